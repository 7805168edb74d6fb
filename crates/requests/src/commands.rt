//! The nine commands, with the bits that each needs and permits.

ghost use Rattle.requests.specs.Commands.{command_named, command_number, row};
ghost use Rattle.std.specs.Prelude.{◌≡◌};

/// What a request asks for.
#[derive(Clone, Copy, PartialEq, Eq, Debug)]
pub enum Command {
    Cancel,
    Dismount,
    Eject,
    Enter,
    Idle,
    Mount,
    Query,
    Start,
    Vary,
}

/// The map of the bits that a command needs, and of those that it may have besides.
#[derive(Clone, Copy, PartialEq, Eq, Debug)]
pub struct Bits {
    pub needed: u8,
    pub permitted: u8,
}

impl Command {
    /// What the command takes: one table, so that one look tells both maps.
    pub fn bits(self) -> Bits
        ensures needed { result.needed ≡ (row self).needed }
        ensures permitted { result.permitted ≡ (row self).permitted }
    {
        let (needed, permitted) = match self {
            Command::Cancel => (1 + 2 + 32, 0),
            Command::Dismount => (1 + 2 + 8 + 16, 4),
            Command::Eject => (1 + 2 + 8, 0),
            Command::Enter => (1 + 2, 0),
            Command::Idle => (1 + 2, 4),
            Command::Mount => (1 + 2 + 8 + 16, 0),
            Command::Query => (1 + 2, 8),
            Command::Start => (1 + 2, 0),
            Command::Vary => (1 + 2 + 16 + 64, 0),
        };
        Bits { needed, permitted }
    }

    /// The map of the bits that the command needs.
    pub fn needed(self) -> u8
        ensures { result ≡ (row self).needed }
    {
        self.bits().needed
    }

    /// The map of the bits that the command may have besides.
    pub fn permitted(self) -> u8
        ensures { result ≡ (row self).permitted }
    {
        self.bits().permitted
    }
}

/// The number that stands for the command in a packet.
impl From<Command> for u8 {
    ghost from_gives = { λ command code. code ≡ command_number command };

    fn from(command: Command) -> u8 {
        match command {
            Command::Cancel => 2,
            Command::Dismount => 3,
            Command::Eject => 4,
            Command::Enter => 5,
            Command::Idle => 6,
            Command::Mount => 7,
            Command::Query => 8,
            Command::Start => 9,
            Command::Vary => 10,
        }
    }
}

/// A number that stands for no command.
#[derive(Clone, Copy, PartialEq, Eq, Debug)]
pub struct UnknownCommand {
    pub code: u8,
}

/// The command that the number stands for.
impl TryFrom<u8> for Command {
    type Error = UnknownCommand;

    ghost try_from_gives = { λ code res. res ≡ command_named code };

    fn try_from(code: u8) -> Result<Command, UnknownCommand> {
        match code {
            2 => Ok(Command::Cancel),
            3 => Ok(Command::Dismount),
            4 => Ok(Command::Eject),
            5 => Ok(Command::Enter),
            6 => Ok(Command::Idle),
            7 => Ok(Command::Mount),
            8 => Ok(Command::Query),
            9 => Ok(Command::Start),
            10 => Ok(Command::Vary),
            _ => Err(UnknownCommand { code }),
        }
    }
}
