//! Why a packet is refused.

ghost use Rattle.requests.specs.Refusals.{cause_detail, cause_status};
ghost use Rattle.requests.specs.declared.refusals.Cause.TheVariants as cause;
ghost use Rattle.std.specs.Prelude.{◌≡◌};

use crate::bodies::UnknownSetting;
use crate::commands::UnknownCommand;
use labels::WrongCharacter;
use statuses::Status;

/// The cause of a refusal: each has a status, and some a detail.
#[derive(Clone, Copy, PartialEq, Eq, Debug)]
pub enum Cause {
    Short,
    Long,
    UnknownCommand,
    WrongBit { bit: u8 },
    WrongCharacter { index: u8 },
    WrongDriveState,
}

impl Cause {
    /// The lowest wrong bit, or the index of the first wrong character.
    pub fn detail(self) -> Option<u8>
        ensures { result ≡ cause_detail self }
    {
        match self {
            Cause::WrongBit { bit } => Some(bit),
            Cause::WrongCharacter { index } => Some(index),
            Cause::Short | Cause::Long | Cause::UnknownCommand | Cause::WrongDriveState => None,
        }
    }
}

/// The status that a packet is refused by.
impl From<Cause> for Status {
    ghost from_gives = { λ refused status. status ≡ cause_status refused };

    fn from(cause: Cause) -> Status {
        match cause {
            Cause::Short => Status::Short,
            Cause::Long => Status::Long,
            Cause::UnknownCommand => Status::UnknownCommand,
            Cause::WrongBit { .. } => Status::WrongBit,
            Cause::WrongCharacter { .. } => Status::WrongCharacter,
            Cause::WrongDriveState => Status::WrongDriveState,
        }
    }
}

impl From<UnknownCommand> for Cause {
    ghost from_gives = { λ _ refused. refused ≡ cause.UnknownCommand };

    fn from(_: UnknownCommand) -> Cause {
        Cause::UnknownCommand
    }
}

impl From<WrongCharacter> for Cause {
    ghost from_gives = { λ wrong refused. refused ≡ cause.WrongCharacter wrong.index };

    fn from(wrong: WrongCharacter) -> Cause {
        Cause::WrongCharacter { index: wrong.index }
    }
}

impl From<UnknownSetting> for Cause {
    ghost from_gives = { λ _ refused. refused ≡ cause.WrongDriveState };

    fn from(_: UnknownSetting) -> Cause {
        Cause::WrongDriveState
    }
}

/// A refused packet: the cause, and its number and command where they could be read.
#[derive(Clone, Copy, PartialEq, Eq, Debug)]
pub struct BadPacket {
    pub cause: Cause,
    pub number: Option<u16>,
    pub command: Option<u8>,
}
