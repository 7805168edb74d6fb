ghost use Rattle.std.specs.Prelude.{◌≤◌, length};

mod calls;
mod every;
mod slots;

/// A first-in-first-out queue in lent slots.
///
/// Its host lends the memory, so it is no collection of the library. It uses the first `capacity` of the
/// slots. The oldest record stands at `head`, or at 0 where `head` is `capacity`.
// No model: what its calls say of slots out of use is no part of a list of records.
#[derive(Drop)]
pub struct Ring<'a, T> {
    slots: &'a mut [T],
    capacity: usize,
    head: usize,
    count: usize,
    ghost lent: { capacity ≤ length slots.now },
    ghost headed: { head ≤ capacity },
    ghost counted: { count ≤ capacity },
}
