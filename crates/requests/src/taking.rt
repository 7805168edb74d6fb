//! The fields of a packet: the map byte first, then each field whose bit stands, in bit order,
//! as long as there are bytes.

ghost use Rattle.requests.specs.Taking.{ended, map_alone, taken};
ghost use Rattle.requests.specs.Reading.{whole};
ghost use Rattle.std.specs.Prelude.{◌≡◌};

use crate::refusals::Cause;
use byte_fields::{Field, take};

/// The map, and what was taken of the fields.
#[derive(Clone, Copy, PartialEq, Eq, Debug)]
pub struct Fields {
    pub map: u8,
    pub number: Option<u16>,
    pub command: Option<u8>,
    pub option: Option<u8>,
    pub label: Option<[u8; 6]>,
    pub place: Option<u8>,
    pub target: Option<u16>,
    pub drive_state: Option<u8>,
}

/// How the packet's length stands to what its map says.
#[derive(Clone, Copy, PartialEq, Eq, Debug)]
pub enum Ending {
    Short,
    Exact,
    Long,
}

/// A packet taken apart.
#[derive(Clone, Copy, PartialEq, Eq, Debug)]
pub struct Taken {
    pub fields: Fields,
    pub ending: Ending,
}

impl Taken {
    /// The fields of a packet of the right length.
    pub(crate) fn whole(self) -> Result<Fields, Cause>
        ensures { result ≡ whole self }
    {
        match self.ending {
            Ending::Short => Err(Cause::Short),
            Ending::Long => Err(Cause::Long),
            Ending::Exact => Ok(self.fields),
        }
    }
}

/// The map alone.
fn map_alone(map: u8) -> Fields
    ensures { result ≡ map_alone map }
{
    Fields {
        map,
        number: None,
        command: None,
        option: None,
        label: None,
        place: None,
        target: None,
        drive_state: None,
    }
}

/// Takes the fields off the packet, and tells the bytes behind them; none where it ends before a
/// field, and then those before it are taken.
fn take_each<'a>(fields: &mut Fields, packet: &'a [u8]) -> Option<&'a [u8]>
    requires { fields.old ≡ map_alone 0 }
    ensures { ended fields.new result ≡ taken packet.now }
{
    let (map, rest) = u8::cut(packet)?;
    fields.map = map;
    let (number, rest) = take(map, 1, rest)?;
    fields.number = number;
    let (command, rest) = take(map, 2, rest)?;
    fields.command = command;
    let (option, rest) = take(map, 4, rest)?;
    fields.option = option;
    let (label, rest) = take(map, 8, rest)?;
    fields.label = label;
    let (place, rest) = take(map, 16, rest)?;
    fields.place = place;
    let (target, rest) = take(map, 32, rest)?;
    fields.target = target;
    let (drive_state, rest) = take(map, 64, rest)?;
    fields.drive_state = drive_state;
    Some(rest)
}

/// Takes the fields off the packet.
pub fn take_fields(packet: &[u8]) -> Taken
    ensures { result ≡ taken packet.now }
{
    let mut fields = map_alone(0);
    let ending = match take_each(&mut fields, packet) {
        None => Ending::Short,
        Some([]) => Ending::Exact,
        Some([_, ..]) => Ending::Long,
    };
    Taken { fields, ending }
}
