ghost use Rattle.server.specs.Hands.{refusal_number, why_not_put, why_not_taken};
ghost use Rattle.std.specs.Prelude.{◌≡◌};

use robots::fault::Fault;

/// Why a call was refused. A refused call changes nothing.
#[derive(Clone, Copy, PartialEq, Eq, Debug)]
pub enum CallRefusal {
    /// The buffer has under 2,048 bytes.
    ShortBuffer,
    /// A request with this number is waiting or at work.
    NumberInUse,
    /// There is no such place.
    NoPlace,
    /// The door is shut, and this is not a port place.
    NotPort,
    /// The door is shut, and an enter is at work.
    EnterAtWork,
    /// No cartridge has this number.
    NoNumber,
    /// The place is full.
    PlaceFull,
    /// The place is empty.
    PlaceEmpty,
}

/// The number that a refused call returns.
impl From<CallRefusal> for u8 {
    ghost from_gives = { λ why n. n ≡ refusal_number why };

    fn from(why: CallRefusal) -> u8 {
        match why {
            CallRefusal::ShortBuffer => 1,
            CallRefusal::NumberInUse => 2,
            CallRefusal::NoPlace => 3,
            CallRefusal::NotPort => 4,
            CallRefusal::EnterAtWork => 5,
            CallRefusal::NoNumber => 6,
            CallRefusal::PlaceFull => 7,
            CallRefusal::PlaceEmpty => 8,
        }
    }
}

/// What a put that the robot refused is told.
pub fn why_not_put(fault: Fault) -> CallRefusal
    ensures { result ≡ why_not_put fault }
{
    match fault {
        Fault::NoPlace(_) => CallRefusal::NoPlace,
        Fault::BadNumber(_) => CallRefusal::NoNumber,
        _ => CallRefusal::PlaceFull,
    }
}

/// What a take that the robot refused is told.
pub fn why_not_taken(fault: Fault) -> CallRefusal
    ensures { result ≡ why_not_taken fault }
{
    match fault {
        Fault::NoPlace(_) => CallRefusal::NoPlace,
        _ => CallRefusal::PlaceEmpty,
    }
}
