//! What a robot of up to 256 places can be made from.

ghost use Rattle.robots.specs.Making.{making_refusal, numbers_fit, or_unmade};
ghost use Rattle.robots.specs.declared.making.Unmade.TheVariants.{NoMemory};
ghost use Rattle.std.specs.Prelude.{◌≡◌, ◌≤◌};
ghost use Rattle.labels.specs.Numbers.{unreadable_number};

use crate::place::Place;
use labels::UNREADABLE_NUMBER;
use std::alloc::AllocError;

/// Why a robot was not made.
#[derive(Clone, Copy, PartialEq, Eq, Debug)]
pub enum Unmade {
    /// There are more than 256 places.
    TooManyPlaces,
    /// A place or the hand holds what is neither a cartridge's number nor 0.
    BadNumber,
    /// There is not memory enough.
    NoMemory,
}

impl From<AllocError> for Unmade {
    ghost from_gives = { λ _ why. why ≡ NoMemory };

    fn from(_: AllocError) -> Unmade {
        Unmade::NoMemory
    }
}

/// Whether each place holds a cartridge's number or 0.
fn numbers_fit(places: &[Place]) -> bool
    ensures { result ≡ numbers_fit places.now }
{
    places
        .iter()
        .all(|place| place.cartridge <= UNREADABLE_NUMBER)
}

/// Whether a robot can be made from these places, and this in its hand; want of memory aside.
pub fn check_places(places: &[Place], hand: u32) -> Result<(), Unmade>
    ensures { result ≡ or_unmade (making_refusal places.now hand) }
{
    if places.len() > 256 {
        return Err(Unmade::TooManyPlaces);
    }
    if hand > UNREADABLE_NUMBER || !numbers_fit(places) {
        return Err(Unmade::BadNumber);
    }
    Ok(())
}
