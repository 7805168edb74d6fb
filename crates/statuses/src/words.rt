ghost use Rattle.std.specs.Prelude.{◌++◌, Some, codes, decimal};

use crate::{Status, UnknownStatus};
use std::error::Error;
use std::fmt;

impl Status {
    /// What the status says, in plain words.
    pub fn words(self) -> &'static str {
        match self {
            Status::Success => "done",
            Status::Short => "the packet is empty or shorter than its map says",
            Status::Long => "the packet is longer than its map says",
            Status::UnknownCommand => "the command is absent or unknown",
            Status::WrongBit => "a field is missing, not taken, or an option other than force",
            Status::WrongCharacter => "the label has a wrong character",
            Status::WrongDriveState => "the drive state is neither online nor offline",
            Status::NotServed => "the server does not serve this in its state",
            Status::IdlePending => "idle is pending already",
            Status::NoDrive => "there is no drive at this place",
            Status::NotOnline => "the drive is not online",
            Status::AlreadySo => "it is so already",
            Status::NothingToCancel => "there is nothing to cancel",
            Status::LibraryBusy => "the queue of requests is full",
            Status::Cancelled => "the request was cancelled",
            Status::BadMakeUp => "the library has no places, or too many",
            Status::NoFreeCell => "no cell is free",
            Status::NoVolume => "no cell or drive holds this label",
            Status::SeveralVolumes => "more than one cartridge has this label",
            Status::InDrive => "the cartridge is in a drive",
            Status::DriveInUse => "the drive holds a cartridge",
            Status::DriveEmpty => "the drive is empty",
            Status::OtherVolume => "the drive holds another label",
            Status::NoPortPlace => "no port place is free",
            Status::UnreadableLabel => "the label cannot be read",
            Status::LibraryFailure => "the robot refused",
        }
    }
}

impl fmt::Display for Status {
    fn fmt<W: fmt::Write>(&self, f: &mut fmt::Formatter<W>) -> fmt::Result {
        f.write_str(self.words())
    }
}

impl fmt::Display for UnknownStatus {
    ghost output = { λ s. Some (codes "no status has the number " ++ decimal s.code) };

    fn fmt<W: fmt::Write>(&self, f: &mut fmt::Formatter<W>) -> fmt::Result {
        write!(f, "no status has the number {}", self.code)
    }
}

impl Error for UnknownStatus {}
