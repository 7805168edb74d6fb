//! Fields taken off the front, each only if it is there. `None` says that the bytes end before it.

ghost use Rattle.byte_fields.specs.Taking.{has_bit, seen};
ghost use Rattle.std.specs.Prelude.{◌≡◌};

use crate::fields::Field;

/// Whether the bit that is worth `worth` stands in the map.
pub fn has(map: u8, worth: u8) -> bool
    ensures { result ≡ has_bit map worth }
{
    worth != 0 && map / worth % 2 == 1
}

/// The field whose bit is worth `worth`, if it stands in the map, and the bytes behind it.
// Map and bytes are handed on, and no reader is changed in place: so what is left is seen at each step.
pub fn take<F: Field>(map: u8, worth: u8, bytes: &[u8]) -> Option<(Option<F>, &[u8])>
    ensures { seen result ≡ F.off (has_bit map worth) bytes.now }
{
    if !has(map, worth) {
        return Some((None, bytes));
    }
    let (field, rest) = F::cut(bytes)?;
    Some((Some(field), rest))
}
