ghost use Rattle.library.specs.States.{notice_number};
ghost use Rattle.std.specs.Prelude.{◌≡◌};

/// What an operator is told.
#[derive(Clone, Copy, PartialEq, Eq, Debug)]
pub enum Notice {
    /// Put cartridges into the port: an enter begins.
    Input,
    /// Remove what an enter left in the port.
    Remove,
    /// The server will be idle once it has answered what waits.
    IdlePending,
    /// The server is idle.
    Idle,
}

/// The number that stands for a notice in a message.
impl From<Notice> for u8 {
    ghost from_gives = { λ notice n. n ≡ notice_number notice };

    fn from(notice: Notice) -> u8 {
        match notice {
            Notice::Input => 1,
            Notice::Remove => 2,
            Notice::IdlePending => 3,
            Notice::Idle => 4,
        }
    }
}

/// A message to the operator: the number of its kind, and of the request that it is about. The kind is
/// a number, since this record leaves the server as it is, and a host may lend slots that hold any.
#[derive(Clone, Copy, PartialEq, Eq, Debug)]
pub struct Message {
    pub kind: u8,
    pub number: u16,
}
