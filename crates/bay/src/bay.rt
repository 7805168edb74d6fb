ghost use Rattle.std.specs.Prelude.{◌≤◌, vec_len};
ghost use Rattle.bay.specs.Numbered.{Numbered};
ghost use Rattle.labels.specs.Numbers.{unreadable_number};

use robots::place::Place;

pub mod acts;

/// A robot that keeps what each place holds.
#[derive(Drop)]
pub struct Bay {
    places: Vec<Place>,
    hand: u32,
    ghost few: { vec_len places ≤ 256 },
    ghost numbered: { Numbered places.items },
    ghost handed: { hand ≤ unreadable_number },
}
