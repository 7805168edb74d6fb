ghost use Rattle.stock.specs.Refusals.{detail_of, in_byte, status_of};
ghost use Rattle.stock.specs.declared.refusal.Refusal.TheVariants.{LibraryFailure};
ghost use Rattle.std.specs.Prelude.{◌≡◌};

use robots::fault::Fault;
use statuses::Status;

/// Why a step ended a request without success; a robot's fault is kept whole.
#[derive(Clone, Copy, PartialEq, Eq, Debug)]
pub enum Refusal {
    /// No place, or too many places or port places, for a start.
    BadMakeUp,
    /// No cell is free.
    NoFreeCell,
    /// The label is in no cell or drive.
    NoVolume,
    /// The label is in two or more places; for an enter, in one already.
    SeveralVolumes,
    /// It is in this drive.
    InDrive(u16),
    /// This drive is full.
    DriveInUse(u16),
    /// This drive is empty.
    DriveEmpty(u16),
    /// Another label is in this drive.
    OtherVolume(u16),
    /// No port place is free.
    NoPortPlace,
    /// The label cannot be read.
    UnreadableLabel,
    /// The robot refused.
    LibraryFailure(Fault),
}

impl From<Fault> for Refusal {
    ghost from_gives = { λ fault why. why ≡ LibraryFailure fault };

    fn from(fault: Fault) -> Refusal {
        Refusal::LibraryFailure(fault)
    }
}

/// A place as it is written into a byte.
pub fn in_byte(p: u16) -> u8
    ensures { result ≡ in_byte p }
{
    (p % 256) as u8
}

/// The status that tells a refusal.
impl From<Refusal> for Status {
    ghost from_gives = { λ why status. status ≡ status_of why };

    fn from(why: Refusal) -> Status {
        match why {
            Refusal::BadMakeUp => Status::BadMakeUp,
            Refusal::NoFreeCell => Status::NoFreeCell,
            Refusal::NoVolume => Status::NoVolume,
            Refusal::SeveralVolumes => Status::SeveralVolumes,
            Refusal::InDrive(_) => Status::InDrive,
            Refusal::DriveInUse(_) => Status::DriveInUse,
            Refusal::DriveEmpty(_) => Status::DriveEmpty,
            Refusal::OtherVolume(_) => Status::OtherVolume,
            Refusal::NoPortPlace => Status::NoPortPlace,
            Refusal::UnreadableLabel => Status::UnreadableLabel,
            Refusal::LibraryFailure(_) => Status::LibraryFailure,
        }
    }
}

impl Refusal {
    /// The place that it is about, where it has one.
    pub fn detail(self) -> Option<u8>
        ensures { result ≡ detail_of self }
    {
        match self {
            Refusal::InDrive(p)
            | Refusal::DriveInUse(p)
            | Refusal::DriveEmpty(p)
            | Refusal::OtherVolume(p) => Some(in_byte(p)),
            Refusal::LibraryFailure(fault) => Some(in_byte(fault.place())),
            _ => None,
        }
    }
}
