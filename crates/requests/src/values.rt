//! What a packet is written from: a map, and a value for each field, used if its bit stands.

ghost use Rattle.requests.specs.Values.{fields_of};
ghost use Rattle.std.specs.Prelude.{◌≡◌};

use crate::taking::Fields;
use byte_fields::has;

/// A value for each field.
#[derive(Clone, Copy, PartialEq, Eq, Debug)]
pub struct Values {
    pub number: u16,
    pub command: u8,
    pub option: u8,
    pub label: [u8; 6],
    pub place: u8,
    pub target: u16,
    pub drive_state: u8,
}

/// The fields of a packet with this map.
pub fn fields_of(map: u8, values: Values) -> Fields
    ensures { result ≡ fields_of map values }
{
    Fields {
        map,
        number: has(map, 1).then_some(values.number),
        command: has(map, 2).then_some(values.command),
        option: has(map, 4).then_some(values.option),
        label: has(map, 8).then_some(values.label),
        place: has(map, 16).then_some(values.place),
        target: has(map, 32).then_some(values.target),
        drive_state: has(map, 64).then_some(values.drive_state),
    }
}
