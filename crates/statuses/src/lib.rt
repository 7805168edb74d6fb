//! The statuses that end a request, each with its number, the layer that refuses by it,
//! and whether such a refusal tells a detail. One table in `specs/Statuses.antt` says all of it.

#![tactic(auto)]

ghost use Rattle.statuses.specs.Statuses.{layer_number, row, status_named, status_number};
ghost use Rattle.std.specs.Prelude.{◌≡◌, ◌==◌, Decides};
ghost use Rattle.std.specs.Cmp.Rules.{comparing};
ghost use Rattle.std.proofs.Common.{rules};
ghost use Rattle.std.specs.Cmp as Keys;

mod words;

/// How a request ended, or why it was refused. The default is what a blank entry has.
#[derive(Clone, Copy, Eq, Debug, Default)]
pub enum Status {
    #[default]
    Success,
    Short,
    Long,
    UnknownCommand,
    WrongBit,
    WrongCharacter,
    WrongDriveState,
    NotServed,
    IdlePending,
    NoDrive,
    NotOnline,
    AlreadySo,
    NothingToCancel,
    LibraryBusy,
    Cancelled,
    BadMakeUp,
    NoFreeCell,
    NoVolume,
    SeveralVolumes,
    InDrive,
    DriveInUse,
    DriveEmpty,
    OtherVolume,
    NoPortPlace,
    UnreadableLabel,
    LibraryFailure,
}

/// A derived comparison would promise nothing of so many variants.
impl PartialEq for Status {
    ghost eq = { λ x y. status_number x == status_number y };

    ghost laws = { Prim.search (comparing, rules) };

    fn eq(&self, other: &Status) -> bool
        ensures value { result ≡ (status_number self.now == status_number other.now) }
        ensures decides { Decides result (self.now ≡ other.now) }
    {
        u8::from(*self) == u8::from(*other)
    }
}

/// Which part refuses.
#[derive(Clone, Copy, PartialEq, Eq, Debug)]
pub enum Layer {
    Packet,
    Server,
    Robot,
}

/// The number that stands for the layer in a response.
impl From<Layer> for u8 {
    ghost from_gives = { λ layer n. n ≡ layer_number layer };

    fn from(layer: Layer) -> u8 {
        match layer {
            Layer::Packet => 1,
            Layer::Server => 2,
            Layer::Robot => 3,
        }
    }
}

/// The number that stands for the status in a response.
impl From<Status> for u8 {
    ghost from_gives = { λ status n. n ≡ status_number status };

    fn from(status: Status) -> u8 {
        status as u8
    }
}

/// A number that stands for no status.
#[derive(Clone, Copy, PartialEq, Eq, Debug)]
pub struct UnknownStatus {
    pub code: u8,
}

/// The status that a number stands for.
impl TryFrom<u8> for Status {
    type Error = UnknownStatus;

    ghost try_from_gives = { λ code res. res ≡ status_named code };

    fn try_from(code: u8) -> Result<Status, UnknownStatus> {
        match code {
            0 => Ok(Status::Success),
            1 => Ok(Status::Short),
            2 => Ok(Status::Long),
            3 => Ok(Status::UnknownCommand),
            4 => Ok(Status::WrongBit),
            5 => Ok(Status::WrongCharacter),
            6 => Ok(Status::WrongDriveState),
            7 => Ok(Status::NotServed),
            8 => Ok(Status::IdlePending),
            9 => Ok(Status::NoDrive),
            10 => Ok(Status::NotOnline),
            11 => Ok(Status::AlreadySo),
            12 => Ok(Status::NothingToCancel),
            13 => Ok(Status::LibraryBusy),
            14 => Ok(Status::Cancelled),
            15 => Ok(Status::BadMakeUp),
            16 => Ok(Status::NoFreeCell),
            17 => Ok(Status::NoVolume),
            18 => Ok(Status::SeveralVolumes),
            19 => Ok(Status::InDrive),
            20 => Ok(Status::DriveInUse),
            21 => Ok(Status::DriveEmpty),
            22 => Ok(Status::OtherVolume),
            23 => Ok(Status::NoPortPlace),
            24 => Ok(Status::UnreadableLabel),
            25 => Ok(Status::LibraryFailure),
            _ => Err(UnknownStatus { code }),
        }
    }
}

impl Status {
    /// Whether both are one and the same: what the comparison decides.
    pub fn is(self, other: Status) -> bool
        ensures value { result ≡ (status_number self == status_number other) }
        ensures decides { Decides result (self ≡ other) }
    {
        self.eq(&other)
    }

    /// The layer that refuses by it; success is no refusal.
    pub fn layer(self) -> Option<Layer>
        ensures { result ≡ (row self).layer }
    {
        match self {
            Status::Success => None,
            Status::Short
            | Status::Long
            | Status::UnknownCommand
            | Status::WrongBit
            | Status::WrongCharacter
            | Status::WrongDriveState => Some(Layer::Packet),
            Status::LibraryFailure => Some(Layer::Robot),
            _ => Some(Layer::Server),
        }
    }

    /// Whether a refusal by it tells a detail.
    pub fn has_detail(self) -> bool
        ensures { result ≡ (row self).detail }
    {
        match self {
            Status::WrongBit
            | Status::WrongCharacter
            | Status::NotServed
            | Status::NoDrive
            | Status::NotOnline
            | Status::InDrive
            | Status::DriveInUse
            | Status::DriveEmpty
            | Status::OtherVolume
            | Status::LibraryFailure => true,
            _ => false,
        }
    }
}
