//! Where a record lies: the only functions that reach into the slots.

ghost use Rattle.std.specs.Prelude.{◌≡◌, ◌<◌, ◌≤◌, min, [], ◌∷◌, ◌++◌, length, slice_set};
ghost use Rattle.ring.specs.Order.{rest, slot_of};
ghost use Rattle.ring.specs.Queue.{Kept, records};
ghost use Rattle.std.specs.List.{slice_get};

use super::Ring;

impl<'a, T: Copy> Ring<'a, T> {
    /// An empty ring in the first `limit` of the slots, or in all of them where they are fewer.
    pub fn new(slots: &'a mut [T], limit: usize) -> Ring<'a, T>
        ensures none { records result ≡ [] }
        ensures capacity { result.capacity ≡ min (length slots.old) limit }
        ensures slots { result.slots.now ≡ slots.old }
    {
        let capacity = slots.len().min(limit);
        Ring {
            slots,
            capacity,
            head: 0,
            count: 0,
        }
    }

    /// The slot of the i-th oldest.
    fn slot(&self, i: usize) -> usize
        requires { i ≤ self.now.capacity }
        ensures at { result ≡ slot_of self.now.capacity self.now.head i }
        ensures most { result ≤ self.now.capacity }
        ensures within { i < self.now.capacity → result < self.now.capacity }
    {
        let high = self.capacity - self.head;
        if i < high { self.head + i } else { i - high }
    }

    /// The i-th oldest record, counted from 0.
    pub fn get(&self, i: usize) -> Option<T>
        ensures { result ≡ slice_get (records self.now) i }
    {
        if i < self.count {
            let at = self.slot(i);
            let slots = &*self.slots;
            Some(slots[at])
        } else {
            None
        }
    }

    /// Writes a record over the i-th oldest.
    pub(super) fn overwrite(&mut self, i: usize, x: T)
        requires { i < length (records self.old) }
        ensures records { records self.new ≡ slice_set (records self.old) i x }
        ensures kept { Kept self.old self.new }
    {
        let at = self.slot(i);
        self.slots[at] = x;
    }

    /// Writes a record behind the newest.
    pub(super) fn append(&mut self, x: T)
        requires { length (records self.old) < self.old.capacity }
        ensures records { records self.new ≡ records self.old ++ x ∷ [] }
        ensures kept { Kept self.old self.new }
    {
        let n = self.count;
        let at = self.slot(n);
        self.slots[at] = x;
        self.count += 1;
    }

    /// Leaves the slot of the oldest.
    pub(super) fn advance(&mut self)
        requires { 0 < length (records self.old) }
        ensures records { records self.new ≡ rest (records self.old) }
        ensures kept { Kept self.old self.new }
    {
        self.head = self.slot(1);
        self.count -= 1;
    }
}
