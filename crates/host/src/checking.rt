//! The check of a packet.

ghost use Rattle.host.specs.Checking.{told, told_of};
ghost use Rattle.requests.specs.Reading.{request_in};
ghost use Rattle.std.specs.Prelude.{◌≡◌};

use requests::{Outline, inspect};
use statuses::Status;

/// What C is told of a packet. C has no `Option`, so a flag stands beside each value, and a value that is not
/// there is 0. The order of the fields leaves no gap between them, so that the record is returned in one
/// register.
#[derive(Clone, Copy, PartialEq, Eq, Debug)]
#[repr(C)]
pub struct Checked {
    pub status: u8,
    pub has_detail: bool,
    pub detail: u8,
    pub has_number: bool,
    pub number: u16,
    pub has_command: bool,
    pub command: u8,
}

fn tell(outline: Outline) -> Checked
    ensures { result ≡ told outline }
{
    let (status, detail) = match outline.fault {
        Ok(()) => (Status::Success, None),
        Err(cause) => (Status::from(cause), cause.detail()),
    };
    Checked {
        status: u8::from(status),
        has_detail: detail.is_some(),
        detail: detail.unwrap_or(0),
        has_number: outline.number.is_some(),
        number: outline.number.unwrap_or(0),
        has_command: outline.command.is_some(),
        command: outline.command.unwrap_or(0),
    }
}

/// Checks the bytes of a packet: status 0 if they are a request, else why they are none.
pub fn cartridge_check_packet(packet: &[u8]) -> Checked
    ensures { result ≡ told_of (request_in packet.now) }
{
    tell(inspect(packet))
}
