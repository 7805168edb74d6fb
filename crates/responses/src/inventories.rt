//! An inventory: a map of 32 bytes with a bit for each place, then six bytes for each place whose
//! bit stands.

ghost use Rattle.std.proofs.Common.{refl};
ghost use Rattle.std.specs.Prelude.{◌≡◌, ◌+◌, ◌*◌, ◌%◌, ◌^◌, ◌<◌, ◌≤◌, false, length, slice_index_or};
ghost use Rattle.byte_fields.specs.Writers.{Added};
ghost use Rattle.responses.specs.Inventories.{inventory_bytes, label_bytes, labels_bytes, map_bytes};
ghost use Rattle.byte_fields.specs.Taking.{seen};
ghost use Rattle.responses.specs.Reading.{bits_of, gathered, inventory_off, maybe, place_off, seen_list};
ghost use Rattle.responses.specs.Responses.{count_of, listed, most_places};

use crate::MOST_PLACES;
use crate::cartridges::take_cartridge;
use crate::items::{Item, put_all};
use byte_fields::Writer;
use labels::six_for;

/// What the place's bit is worth in its map byte.
fn bit_of(place: usize) -> u8
    ensures { result ≡ 2 ^ (place % 8) }
{
    1 << (place % 8)
}

/// The bits of the places that hold a cartridge, place 0 the lowest bit of the first byte.
fn inventory_map(inventory: &[u32]) -> [u8; 32]
    requires { length inventory.now ≤ most_places }
    ensures { result ≡ map_bytes 32 inventory.now }
{
    let mut map = [0u8; 32];
    for (place, number) in inventory.iter().enumerate() {
        if *number != 0 {
            map[place / 8] |= bit_of(place);
        }
    }
    map
}

/// What stands for the cartridge at a place, nothing where there is none.
impl Item for u32 {
    ghost bytes = { label_bytes };

    ghost all = { labels_bytes };

    ghost most = { 6 };

    fn put(self, writer: &mut Writer) {
        if self != 0 {
            writer.put(&six_for(self));
        }
    }

    ghost none = { refl };

    ghost more = { λ x xs. refl };
}

pub(crate) fn put_inventory(writer: &mut Writer, inventory: Option<&[u32]>)
    requires room { writer.old.at + 32 + 6 * count_of (listed inventory) ≤ length writer.old.buffer.now }
    requires count { count_of (listed inventory) ≤ most_places }
    ensures added { Added (inventory_bytes (listed inventory.entry)) writer.old writer.new }
    ensures bound { writer.new.at ≤ writer.old.at + 32 + 6 * count_of (listed inventory.entry) }
{
    if let Some(inventory) = inventory {
        writer.put(&inventory_map(inventory));
        put_all(writer, inventory);
    }
}

/// Whether the bit of the place stands in the map.
fn bit_at(map: &[u8], place: usize) -> bool
    requires { place < 8 * length map.now }
    ensures { result ≡ slice_index_or (bits_of map.now) place false }
{
    (map[place / 8] >> (place % 8)) & 1 == 1
}

/// What a place holds, 0 where its bit does not stand.
fn take_place(there: bool, bytes: &[u8]) -> Option<(u32, &[u8])>
    ensures { seen result ≡ place_off there bytes.now }
{
    if there {
        take_cartridge(bytes)
    } else {
        Some((0, bytes))
    }
}

/// An inventory off the front, into `places`. A loop beside that of the entries is plainer than one
/// for both: here a bit tells of each place whether there is something to take.
fn take_inventory<'b>(bytes: &'b [u8], places: &mut [u32]) -> Option<&'b [u8]>
    requires { length places.old ≡ most_places }
    ensures { gathered result places.new ≡ inventory_off bytes.now }
{
    let (map, mut rest) = bytes.split_at_checked(32)?;
    for (place, slot) in places.iter_mut().enumerate() {
        (*slot, rest) = take_place(bit_at(map, place), rest)?;
    }
    Some(rest)
}

/// The inventory, where it is there.
pub(crate) fn take_places<'a, 'b>(
    there: bool,
    bytes: &'b [u8],
    places: &'a mut [u32; MOST_PLACES],
) -> Option<(Option<&'a [u32]>, &'b [u8])>
    ensures { seen_list result ≡ maybe there inventory_off bytes.now }
{
    if !there {
        return Some((None, bytes));
    }
    let rest = take_inventory(bytes, places)?;
    Some((Some(&*places), rest))
}
