//! Calls that reach every record. They go by number, since the records are no one slice: they may
//! go on at the first slot.

ghost use Rattle.ring.specs.Order.{any_of};
ghost use Rattle.ring.specs.Queue.{Answers, Kept, records};
ghost use Rattle.std.specs.Prelude.{◌≡◌, Bool, map};

use super::Ring;

impl<'a, T: Copy> Ring<'a, T> {
    /// Whether some record meets the condition.
    pub fn any<F: Fn(T) -> bool>(&self, is_met: F) -> bool
        requires { F.IsAlwaysCallable is_met }
        ensures { (p : T → Bool) → Answers (F.post is_met) p → result ≡ any_of p (records self.now) }
    {
        for i in 0..self.count {
            if let Some(x) = self.get(i) {
                if is_met(x) {
                    return true;
                }
            }
        }
        false
    }

    /// Changes each record in its place.
    pub fn each<F: Fn(T) -> T>(&mut self, change: F)
        requires { F.IsAlwaysCallable change }
        ensures records { (g : T → T) → Answers (F.post change) g → records self.new ≡ map g (records self.old) }
        ensures kept { Kept self.old self.new }
    {
        let n = self.count;
        for i in 0..n {
            if let Some(x) = self.get(i) {
                self.overwrite(i, change(x));
            }
        }
    }
}
