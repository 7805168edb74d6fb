//! The writer of request packets.

ghost use Rattle.host.specs.Writing.{Passes, told_of, values_of};
ghost use Rattle.requests.specs.Values.{fields_of};
ghost use Rattle.requests.specs.Writing.{answer, left};
ghost use Rattle.std.specs.Prelude.{◌≡◌, length};

use requests::{Unwritable, Values, write};
use statuses::Status;

/// What C is told of a packet that was to be written; the length is 0 where it was not. C has no
/// `Result`, so the status is a number.
#[derive(Clone, Copy, PartialEq, Eq, Debug)]
#[repr(C)]
pub struct Written {
    pub status: u8,
    pub length: usize,
}

fn tell(res: Result<usize, Unwritable>) -> Written
    ensures { result ≡ told_of res }
{
    match res {
        Ok(length) => Written {
            status: u8::from(Status::Success),
            length,
        },
        Err(cause) => Written {
            status: u8::from(Status::from(cause)),
            length: 0,
        },
    }
}

/// Writes the packet of a map and a value for each field to the front of the buffer, or tells why
/// not and leaves the buffer as it was. Values of fields that are not in the map are ignored.
pub fn cartridge_write_request(
    buffer: &mut [u8],
    map: u8,
    number: u16,
    command: u8,
    option: u8,
    label: &[u8; 6],
    place: u8,
    target: u16,
    drive_state: u8,
) -> Written
    ensures answer { result ≡ told_of (answer (length buffer.old) (fields_of map (values_of number command option label.now place target drive_state))) }
    ensures after { buffer.new ≡ left (fields_of map (values_of number command option label.now place target drive_state)) buffer.old }
    ensures passes { Passes result buffer.new number command }
{
    let values = Values {
        number,
        command,
        option,
        label: *label,
        place,
        target,
        drive_state,
    };
    tell(write(buffer, map, values))
}
