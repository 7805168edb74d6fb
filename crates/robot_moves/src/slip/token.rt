ghost use Rattle.std.specs.Prelude.{◌≡◌};
ghost use Rattle.robot_moves.specs.Slips.{token_of};

/// Held for a cartridge in the hand, until it is set down or put back, or stays there since no cell is free. It is
/// not `Drop`, so that none is let go unspent.
pub struct Token<T> {
    of: T,
}

/// A cartridge that was lifted, by its place.
#[derive(Clone, Copy)]
pub struct Lifted {
    pub from: u16,
}

/// A cartridge that was in the hand before, by its number.
#[derive(Clone, Copy)]
pub struct InHand {
    pub cartridge: u32,
}

/// The token for a cartridge that was lifted.
pub type Slip = Token<Lifted>;

/// The token for a cartridge that was in the hand before.
pub type Found = Token<InHand>;

impl<T> Token<T> {
    pub(super) fn new(of: T) -> Token<T>
        ensures { result ≡ token_of of }
    {
        Token { of }
    }

    /// Ends the token, and tells what it has.
    pub(super) fn spend(self) -> T
        ensures { result ≡ self.of }
    {
        let Token { of } = self;
        of
    }
}
