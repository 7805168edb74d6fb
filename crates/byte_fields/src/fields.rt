//! What a field of a packet may be: a byte, a number of two bytes, or six bytes.

ghost use Rattle.std.proofs.Common.{refl};
ghost use Rattle.std.specs.Prelude.{◌≡◌, ◌+◌, ◌*◌, ◌<◌, ◌≤◌, ℕ, Bool, true, false, List, [], ◌++◌, length, Option, Some, None};
ghost use Rattle.byte_fields.specs.Putting.{one_bytes, six_bytes, two_bytes};
ghost use Rattle.byte_fields.specs.Taking.{found, one_off, six_off, two_off};
ghost use Rattle.byte_fields.specs.Writers.{Put};
ghost use Rattle.byte_fields.specs.Again.{six_again, two_again};

use crate::putting::Writer;

/// A value of so many bytes, which can be cut off the front of a packet and put into a buffer.
pub trait Field: Copy {
    /// The bytes of a field, none where it is not there.
    ghost bytes: { Option Self → List ℕ };

    /// The field off the front of a list of bytes, if it should be there.
    ghost off: { Bool → List ℕ → Option (Option Self × List ℕ) };

    /// How many bytes a value has.
    ghost width: { ℕ };

    /// The value at the front, and the bytes behind it.
    fn cut(packet: &[u8]) -> Option<(Self, &[u8])>
        ensures { found result ≡ off true packet.now };

    /// Its bytes put behind what is written.
    fn put(self, writer: &mut Writer)
        ensures put { Put (bytes (Some self)) writer.old writer.new }
        ensures bound { writer.new.at ≤ writer.old.at + width }
        ensures width { length (bytes (Some self)) ≤ width };

    /// A field that is not there has no bytes.
    ghost none_bytes: { bytes None ≡ [] };

    /// Nor is anything cut off for it.
    ghost none_off: { (bs : List ℕ) → off false bs ≡ Some (None, bs) };

    /// What was put is cut off again as it was.
    ghost back: { (x : Self) (rest : List ℕ) → length (bytes (Some x)) ≡ width → off true (bytes (Some x) ++ rest) ≡ Some (Some x, rest) };
}

/// A byte.
impl Field for u8 {
    ghost bytes = { one_bytes };

    ghost off = { one_off };

    ghost width = { 1 };

    fn cut(packet: &[u8]) -> Option<(u8, &[u8])> {
        let [b, rest @ ..] = packet else {
            return None;
        };
        Some((*b, rest))
    }

    fn put(self, writer: &mut Writer) {
        writer.put(&[self]);
    }

    ghost none_bytes = { refl };

    ghost none_off = { λ bs. refl };

    ghost back = { λ x rest w. refl };
}

/// A number of two bytes, the high one first.
impl Field for u16 {
    ghost bytes = { two_bytes };

    ghost off = { two_off };

    ghost width = { 2 };

    fn cut(packet: &[u8]) -> Option<(u16, &[u8])> {
        let [high, low, rest @ ..] = packet else {
            return None;
        };
        Some((u16::from_be_bytes([*high, *low]), rest))
    }

    fn put(self, writer: &mut Writer) {
        writer.put(&self.to_be_bytes());
    }

    ghost none_bytes = { refl };

    ghost none_off = { λ bs. refl };

    ghost back = { λ x rest w. two_again x rest };
}

/// Six bytes as they are.
impl Field for [u8; 6] {
    ghost bytes = { six_bytes };

    ghost off = { six_off };

    ghost width = { 6 };

    fn cut(packet: &[u8]) -> Option<([u8; 6], &[u8])> {
        let [a, b, c, d, e, f, rest @ ..] = packet else {
            return None;
        };
        Some(([*a, *b, *c, *d, *e, *f], rest))
    }

    fn put(self, writer: &mut Writer) {
        writer.put(&self);
    }

    ghost none_bytes = { refl };

    ghost none_off = { λ bs. refl };

    ghost back = { six_again };
}
