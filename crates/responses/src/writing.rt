//! A response written into the front of a buffer.

ghost use Rattle.std.specs.Prelude.{◌≡◌, ◌≤◌, ◌++◌, length, take, drop, IfOk};
ghost use Rattle.responses.specs.Responses.{count_of, enough_bytes, listed, most_entries, most_places, told};
ghost use Rattle.responses.specs.RoundTrips.{ReadsBack};
ghost use Rattle.std.specs.Result.{result_err};
ghost use Rattle.responses.specs.Writing.{answer, bytes_of, flag, layer_byte, left, map_of, unwritable};

use crate::entries::put_entries;
use crate::inventories::put_inventory;
use crate::{ENOUGH_BYTES, MOST_ENTRIES, MOST_PLACES, Response};
use byte_fields::Writer;
use statuses::Status;

/// Why a response is not written.
#[derive(Clone, Copy, PartialEq, Eq, Debug)]
pub enum Unwritable {
    SmallBuffer,
    ManyEntries,
    ManyPlaces,
}

/// What a field that is there adds to the map.
fn worth(there: bool, bit: u8) -> u8
    ensures is { result ≡ flag there bit }
    ensures bound { result ≤ bit }
{
    if there { bit } else { 0 }
}

/// The number of the layer that refuses by the status.
pub(crate) fn layer_code(status: Status) -> Option<u8>
    ensures { result ≡ layer_byte status }
{
    status.layer().map(u8::from)
}

/// How many items there are.
fn count<T>(list: Option<&[T]>) -> usize
    ensures { result ≡ count_of (listed list.entry) }
{
    list.map_or(0, |list| list.len())
}

impl Response<'_> {
    fn map(&self) -> u8
        ensures { result ≡ map_of (told self.now) }
    {
        worth(self.head.number.is_some(), 1)
            + worth(self.head.command.is_some(), 2)
            + 4
            + 8
            + worth(layer_code(self.head.status).is_some(), 16)
            + worth(self.head.detail.is_some(), 32)
            + worth(self.entries.is_some(), 64)
            + worth(self.inventory.is_some(), 128)
    }

    /// Whether it is written into a buffer of `room` bytes.
    fn check(&self, room: usize) -> Result<(), Unwritable>
        ensures { result_err result ≡ unwritable room (told self.now) }
    {
        if room < ENOUGH_BYTES {
            Err(Unwritable::SmallBuffer)
        } else if count(self.entries) > MOST_ENTRIES {
            Err(Unwritable::ManyEntries)
        } else if count(self.inventory) > MOST_PLACES {
            Err(Unwritable::ManyPlaces)
        } else {
            Ok(())
        }
    }

    fn put(&self, buffer: &mut [u8]) -> usize
        requires room { enough_bytes ≤ length buffer.old }
        requires entries { count_of (listed self.now.entries) ≤ most_entries }
        requires places { count_of (listed self.now.inventory) ≤ most_places }
        ensures after { buffer.new ≡ bytes_of (told self.now) ++ drop (length (bytes_of (told self.now))) buffer.old }
        ensures end { result ≡ length (bytes_of (told self.now)) }
        ensures bound { result ≤ enough_bytes }
    {
        let head = self.head;
        let mut writer = Writer::new(buffer);
        writer.put(&[self.map()]);
        writer.put_field(head.number);
        writer.put_field(head.command);
        writer.put(&[u8::from(head.kind), u8::from(head.status)]);
        writer.put_field(layer_code(head.status));
        writer.put_field(head.detail);
        put_entries(&mut writer, self.entries);
        put_inventory(&mut writer, self.inventory);
        writer.len()
    }

    /// Writes the response to the front of the buffer and says how long it is, or says why it is
    /// not written and leaves the buffer as it was.
    pub fn write(&self, buffer: &mut [u8]) -> Result<usize, Unwritable>
        ensures answer { result ≡ answer (length buffer.old) (told self.now) }
        ensures after { buffer.new ≡ left (told self.now) buffer.old }
        ensures bound { IfOk result (λ n. n ≤ enough_bytes) }
        ensures reads { IfOk result (λ n. ReadsBack (told self.now) (take n buffer.new)) }
    {
        self.check(buffer.len())?;
        Ok(self.put(buffer))
    }
}
