//! A request as read: its number, its mark and one of nine bodies.

ghost use Rattle.requests.specs.Bodies.{command_in, setting_named, setting_number};
ghost use Rattle.std.specs.Prelude.{◌≡◌};

use crate::commands::Command;
use labels::Label;

/// Whether a request was cancelled or aborted before its turn. A packet carries no mark.
#[derive(Clone, Copy, PartialEq, Eq, Debug)]
pub enum Mark {
    Unmarked,
    Cancelled,
    Aborted,
}

/// What a drive is varied to.
#[derive(Clone, Copy, PartialEq, Eq, Debug)]
pub enum DriveSetting {
    Online,
    Offline,
}

/// The number that stands for the setting in a packet.
impl From<DriveSetting> for u8 {
    ghost from_gives = { λ setting code. code ≡ setting_number setting };

    fn from(setting: DriveSetting) -> u8 {
        match setting {
            DriveSetting::Online => 1,
            DriveSetting::Offline => 2,
        }
    }
}

/// A number that stands for no drive setting.
#[derive(Clone, Copy, PartialEq, Eq, Debug)]
pub struct UnknownSetting {
    pub code: u8,
}

/// The setting that the number stands for.
impl TryFrom<u8> for DriveSetting {
    type Error = UnknownSetting;

    ghost try_from_gives = { λ code res. res ≡ setting_named code };

    fn try_from(code: u8) -> Result<DriveSetting, UnknownSetting> {
        match code {
            1 => Ok(DriveSetting::Online),
            2 => Ok(DriveSetting::Offline),
            _ => Err(UnknownSetting { code }),
        }
    }
}

/// What a request asks for, with all that it names.
#[derive(Clone, Copy, PartialEq, Eq, Debug)]
pub enum Body {
    Cancel {
        target: u16,
    },
    Dismount {
        label: Label,
        drive: u8,
        force: bool,
    },
    Eject {
        label: Label,
    },
    Enter,
    Idle {
        force: bool,
    },
    Mount {
        label: Label,
        drive: u8,
    },
    Query {
        label: Option<Label>,
    },
    Start,
    Vary {
        drive: u8,
        setting: DriveSetting,
    },
}

impl Body {
    /// The command that the body is of.
    pub fn command(self) -> Command
        ensures { result ≡ command_in self }
    {
        match self {
            Body::Cancel { .. } => Command::Cancel,
            Body::Dismount { .. } => Command::Dismount,
            Body::Eject { .. } => Command::Eject,
            Body::Enter => Command::Enter,
            Body::Idle { .. } => Command::Idle,
            Body::Mount { .. } => Command::Mount,
            Body::Query { .. } => Command::Query,
            Body::Start => Command::Start,
            Body::Vary { .. } => Command::Vary,
        }
    }
}

/// A request.
#[derive(Clone, Copy, PartialEq, Eq, Debug)]
pub struct Request {
    pub number: u16,
    pub mark: Mark,
    pub body: Body,
}
