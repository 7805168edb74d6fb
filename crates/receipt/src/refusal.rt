ghost use Rattle.receipt.specs.Checking.{detail_of, status_of};
ghost use Rattle.std.specs.Prelude.{◌≡◌};

use library::state::State;
use statuses::Status;
use stock::refusal::in_byte;

/// Why a request is refused at its receipt.
#[derive(Clone, Copy, PartialEq, Eq, Debug)]
pub enum NotReceived {
    /// The state does not serve it.
    NotServed(State),
    /// An unforced idle is pending already.
    IdlePending,
    /// There is no such drive.
    NoDrive(u16),
    /// The drive is not online.
    NotOnline(u16),
    /// It is so already.
    AlreadySo,
    /// There is nothing to cancel.
    NothingToCancel,
    /// The queue is full.
    LibraryBusy,
}

/// The status that tells a refusal.
impl From<NotReceived> for Status {
    ghost from_gives = { λ why status. status ≡ status_of why };

    fn from(why: NotReceived) -> Status {
        match why {
            NotReceived::NotServed(_) => Status::NotServed,
            NotReceived::IdlePending => Status::IdlePending,
            NotReceived::NoDrive(_) => Status::NoDrive,
            NotReceived::NotOnline(_) => Status::NotOnline,
            NotReceived::AlreadySo => Status::AlreadySo,
            NotReceived::NothingToCancel => Status::NothingToCancel,
            NotReceived::LibraryBusy => Status::LibraryBusy,
        }
    }
}

impl NotReceived {
    /// The state or the place that it is about, where it has one.
    pub fn detail(self) -> Option<u8>
        ensures { result ≡ detail_of self }
    {
        match self {
            NotReceived::NotServed(state) => Some(u8::from(state)),
            NotReceived::NoDrive(p) | NotReceived::NotOnline(p) => Some(in_byte(p)),
            _ => None,
        }
    }
}
