//! What a queue is asked to do, over the records alone.

ghost use Rattle.std.specs.Prelude.{◌≡◌, ◌<◌, [], ◌∷◌, ◌++◌, length, if◌then◌else◌, Ok, Err, nat_le, nat_lt, slice_set};
ghost use Rattle.ring.specs.Order.{first, rest};
ghost use Rattle.ring.specs.Queue.{Kept, records};

use super::Ring;

impl<'a, T: Copy> Ring<'a, T> {
    /// How many records there are.
    pub fn len(&self) -> usize
        ensures { result ≡ length (records self.now) }
    {
        self.count
    }

    /// Whether every slot in use has a record.
    pub fn is_full(&self) -> bool
        ensures { result ≡ nat_le self.now.capacity (length (records self.now)) }
    {
        self.capacity <= self.len()
    }

    /// Puts a record in the place of the i-th oldest; where there is none it hands the record back.
    pub fn replace(&mut self, i: usize, x: T) -> Result<(), T>
        ensures answer { result ≡ (if nat_lt i (length (records self.old)) then Ok tt else Err x) }
        ensures records { records self.new ≡ (if nat_lt i (length (records self.old)) then slice_set (records self.old) i x else records self.old) }
        ensures kept { Kept self.old self.new }
    {
        if i < self.len() {
            self.overwrite(i, x);
            Ok(())
        } else {
            Err(x)
        }
    }

    /// Adds a record as the newest; a full ring hands it back.
    pub fn push(&mut self, x: T) -> Result<(), T>
        ensures answer { result ≡ (if nat_lt (length (records self.old)) self.old.capacity then Ok tt else Err x) }
        ensures records { records self.new ≡ (if nat_lt (length (records self.old)) self.old.capacity then records self.old ++ x ∷ [] else records self.old) }
        ensures kept { Kept self.old self.new }
    {
        if self.len() < self.capacity {
            self.append(x);
            Ok(())
        } else {
            Err(x)
        }
    }

    /// Takes the oldest record out.
    pub fn pop(&mut self) -> Option<T>
        ensures answer { result ≡ first (records self.old) }
        ensures records { records self.new ≡ rest (records self.old) }
        ensures kept { Kept self.old self.new }
    {
        let oldest = self.get(0);
        if self.len() > 0 {
            self.advance();
        }
        oldest
    }
}
