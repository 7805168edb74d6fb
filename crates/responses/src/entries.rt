//! Entries: a count byte, then nine bytes for each.

ghost use Rattle.std.proofs.Common.{refl};
ghost use Rattle.std.specs.Prelude.{◌≡◌, ◌+◌, ◌*◌, ◌≤◌, length};
ghost use Rattle.byte_fields.specs.Writers.{Added};
ghost use Rattle.responses.specs.Entries.{behind_label, each_bytes, entries_bytes, entry_bytes};
ghost use Rattle.byte_fields.specs.Taking.{seen};
ghost use Rattle.responses.specs.Reading.{each_off, entries_off, entry_off, gathered, maybe, seen_list};
ghost use Rattle.responses.specs.Responses.{count_of, listed, most_entries};

use crate::cartridges::take_cartridge;
use crate::items::{Item, put_all};
use crate::known::known_status;
use crate::{Entry, MOST_ENTRIES};
use byte_fields::{Field, Writer};
use labels::six_for;

/// What stands behind the label: the places and the status.
fn behind_label(e: Entry) -> [u8; 3]
    ensures { result ≡ behind_label e }
{
    [e.from, e.to, u8::from(e.status)]
}

/// The cartridge's label, the places and the status.
impl Item for Entry {
    ghost bytes = { entry_bytes };

    ghost all = { each_bytes };

    ghost most = { 9 };

    fn put(self, writer: &mut Writer) {
        writer.put(&six_for(self.cartridge));
        writer.put(&behind_label(self));
    }

    ghost none = { refl };

    ghost more = { λ x xs. refl };
}

pub(crate) fn put_entries(writer: &mut Writer, entries: Option<&[Entry]>)
    requires room { writer.old.at + 1 + 9 * count_of (listed entries) ≤ length writer.old.buffer.now }
    requires count { count_of (listed entries) ≤ 255 }
    ensures added { Added (entries_bytes (listed entries.entry)) writer.old writer.new }
    ensures bound { writer.new.at ≤ writer.old.at + 1 + 9 * count_of (listed entries.entry) }
{
    if let Some(entries) = entries {
        writer.put(&[entries.len() as u8]);
        put_all(writer, entries);
    }
}

/// One entry off the front.
fn take_entry(bytes: &[u8]) -> Option<(Entry, &[u8])>
    ensures { seen result ≡ entry_off bytes.now }
{
    let (cartridge, rest) = take_cartridge(bytes)?;
    let [from, to, code, rest @ ..] = rest else {
        return None;
    };
    let entry = Entry {
        cartridge,
        from: *from,
        to: *to,
        status: known_status(*code)?,
    };
    Some((entry, rest))
}

/// An entry off the front for each of `entries`.
fn take_each<'b>(bytes: &'b [u8], entries: &mut [Entry]) -> Option<&'b [u8]>
    ensures { gathered result entries.new ≡ each_off (length entries.old) bytes.now }
{
    let mut rest = bytes;
    for slot in entries.iter_mut() {
        (*slot, rest) = take_entry(rest)?;
    }
    Some(rest)
}

/// The entries, where they are there.
pub(crate) fn take_entries<'a, 'b>(
    there: bool,
    bytes: &'b [u8],
    entries: &'a mut [Entry],
) -> Option<(Option<&'a [Entry]>, &'b [u8])>
    requires { most_entries ≤ length entries.old }
    ensures { seen_list result ≡ maybe there entries_off bytes.now }
{
    if !there {
        return Some((None, bytes));
    }
    let (count, rest) = u8::cut(bytes)?;
    let count = usize::from(count);
    if count > MOST_ENTRIES {
        return None;
    }
    let entries = &mut entries[0..count];
    let rest = take_each(rest, entries)?;
    Some((Some(&*entries), rest))
}
