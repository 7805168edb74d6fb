//! A packet written into the front of a buffer.

ghost use Rattle.std.specs.Prelude.{◌≡◌, ◌≤◌, ◌++◌, length, take, drop, IfOk};
ghost use Rattle.requests.specs.RoundTrips.{ReadsBack};
ghost use Rattle.requests.specs.Values.{fields_of};
ghost use Rattle.requests.specs.Writing.{answer, left, packet_of, unwritable_status};
ghost use Rattle.requests.specs.declared.writing.Unwritable.TheVariants.{BadFields};

use crate::inspecting::pass_fields;
use crate::refusals::Cause;
use crate::standing::Standing;
use crate::taking::Fields;
use crate::values::{Values, fields_of};
use byte_fields::Writer;
use statuses::Status;

/// The length of the longest packet, a map and every field.
const ROOM: usize = 15;

/// Why a packet is not written.
#[derive(Clone, Copy, PartialEq, Eq, Debug)]
pub enum Unwritable {
    SmallBuffer,
    BadFields { cause: Cause },
}

/// The status that the writer tells: 2 for a small buffer, else that of the cause.
impl From<Unwritable> for Status {
    ghost from_gives = { λ refused status. status ≡ unwritable_status refused };

    fn from(refused: Unwritable) -> Status {
        match refused {
            Unwritable::SmallBuffer => Status::Long,
            Unwritable::BadFields { cause } => Status::from(cause),
        }
    }
}

impl From<Cause> for Unwritable {
    ghost from_gives = { λ cause refused. refused ≡ BadFields cause };

    fn from(cause: Cause) -> Unwritable {
        Unwritable::BadFields { cause }
    }
}

/// The map, and each field that is there.
fn put_fields(buffer: &mut [u8], f: Fields) -> usize
    requires { 15 ≤ length buffer.old }
    ensures after { buffer.new ≡ packet_of f ++ drop (length (packet_of f)) buffer.old }
    ensures end { result ≡ length (packet_of f) }
{
    let mut writer = Writer::new(buffer);
    writer.put(&[f.map]);
    writer.put_field(f.number);
    writer.put_field(f.command);
    writer.put_field(f.option);
    writer.put_field(f.label);
    writer.put_field(f.place);
    writer.put_field(f.target);
    writer.put_field(f.drive_state);
    writer.len()
}

/// Writes the packet of a map and values to the front of the buffer and says how long it is, or
/// says why it is not written and leaves the buffer as it was.
pub fn write(buffer: &mut [u8], map: u8, values: Values) -> Result<usize, Unwritable>
    ensures answer { result ≡ answer (length buffer.old) (fields_of map values) }
    ensures after { buffer.new ≡ left (fields_of map values) buffer.old }
    ensures reads { IfOk result (λ n. ReadsBack (take n buffer.new) (fields_of map values)) }
{
    let fields = fields_of(map, values);
    if buffer.len() < ROOM {
        return Err(Unwritable::SmallBuffer);
    }
    pass_fields::<true>(Standing { fields })?;
    Ok(put_fields(buffer, fields))
}
