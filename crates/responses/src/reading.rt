//! A response read off a packet, field by field. `None` says that the packet is no response.

ghost use Rattle.std.specs.Prelude.{◌≡◌};
ghost use Rattle.byte_fields.specs.Taking.{seen};
ghost use Rattle.responses.specs.Reading.{head_off, response_in, seen_response};
ghost use Rattle.responses.specs.RoundTrips.{WrittenBack};

use crate::entries::take_entries;
use crate::inventories::take_places;
use crate::known::known_status;
use crate::writing::layer_code;
use crate::{Entry, Head, MOST_ENTRIES, MOST_PLACES, Response, ResponseKind};
use byte_fields::{Field, has, take};

/// The fields before the lists, and the bytes behind them.
fn take_head(map: u8, bytes: &[u8]) -> Option<(Head, &[u8])>
    ensures { seen result ≡ head_off map bytes.now }
{
    let (number, rest) = take(map, 1, bytes)?;
    let (command, rest) = take(map, 2, rest)?;
    let (kind, rest) = take::<u8>(map, 4, rest)?;
    let kind = ResponseKind::try_from(kind?).ok()?;
    let (status, rest) = take::<u8>(map, 8, rest)?;
    let status = known_status(status?)?;
    let (layer, rest) = take::<u8>(map, 16, rest)?;
    if layer != layer_code(status) {
        return None;
    }
    let (detail, rest) = take(map, 32, rest)?;
    let head = Head {
        number,
        command,
        kind,
        status,
        detail,
    };
    Some((head, rest))
}

/// Reads a packet as a response, its entries and places into what is lent.
pub fn read<'a>(
    packet: &[u8],
    entries: &'a mut [Entry; MOST_ENTRIES],
    places: &'a mut [u32; MOST_PLACES],
) -> Option<Response<'a>>
    ensures answer { seen_response result ≡ response_in packet.now }
    ensures writes { WrittenBack result packet.now }
{
    let (map, rest) = u8::cut(packet)?;
    let (head, rest) = take_head(map, rest)?;
    let (entries, rest) = take_entries(has(map, 64), rest, entries)?;
    let (inventory, rest) = take_places(has(map, 128), rest, places)?;
    let [] = rest else {
        return None;
    };
    Some(Response {
        head,
        entries,
        inventory,
    })
}
