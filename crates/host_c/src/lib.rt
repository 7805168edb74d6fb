//! What hosts link: the check of a packet's bytes and the writer of request packets, exported for C.
//! Each is the library's own, under the same clauses; `c/cartridge_host.h` declares both.

#![tactic(auto)]

ghost use Rattle.host.specs.Checking.{told_of};
ghost use Rattle.host.specs.Writing.{Passes, told_of as written_of, values_of};
ghost use Rattle.requests.specs.Reading.{request_in};
ghost use Rattle.requests.specs.Values.{fields_of};
ghost use Rattle.requests.specs.Writing.{answer, left};
ghost use Rattle.std.specs.Prelude.{◌≡◌, length};

use host::{Checked, Written};

/// Checks the bytes of a packet: status 0 if they are a request, else why they are none.
#[unsafe(no_mangle)]
pub extern "C" fn cartridge_check_packet(packet: &[u8]) -> Checked
    ensures { result ≡ told_of (request_in packet.now) }
{
    host::cartridge_check_packet(packet)
}

/// Writes the packet of a map and a value for each field to the front of the buffer, or tells why
/// not and leaves the buffer as it was. Values of fields that are not in the map are ignored.
#[unsafe(no_mangle)]
pub extern "C" fn cartridge_write_request(
    buffer: &mut [u8],
    map: u8,
    number: u16,
    command: u8,
    option: u8,
    label: &[u8; 6],
    place: u8,
    target: u16,
    drive_state: u8,
) -> Written
    ensures answer { result ≡ written_of (answer (length buffer.old) (fields_of map (values_of number command option label.now place target drive_state))) }
    ensures after { buffer.new ≡ left (fields_of map (values_of number command option label.now place target drive_state)) buffer.old }
    ensures passes { Passes result buffer.new number command }
{
    host::cartridge_write_request(
        buffer,
        map,
        number,
        command,
        option,
        label,
        place,
        target,
        drive_state,
    )
}
