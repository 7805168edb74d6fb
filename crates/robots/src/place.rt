ghost use Rattle.robots.specs.Making.{empty_place};
ghost use Rattle.std.specs.Prelude.{◌≡◌};

use crate::kind::Kind;

/// A place with all that a robot's meaning says of it.
#[derive(Clone, Copy, PartialEq, Eq, Debug)]
pub struct Place {
    pub kind: Kind,
    /// The number of the cartridge that it holds, or 0: robots and people give and get numbers, and 0 is none.
    pub cartridge: u32,
    pub in_service: bool,
}

impl Place {
    /// An empty place in service.
    pub fn empty(kind: Kind) -> Place
        ensures { result ≡ empty_place kind }
    {
        Place {
            kind,
            cartridge: 0,
            in_service: true,
        }
    }
}
