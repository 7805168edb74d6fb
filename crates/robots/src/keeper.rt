//! What a robot has to keep; the questions and the acts are written once, over any keeper.

ghost use Rattle.labels.specs.Numbers.{unreadable_number};
ghost use Rattle.robots.specs.Acts.{with_held, with_service};
ghost use Rattle.robots.specs.Making.{place_asked};
ghost use Rattle.robots.specs.Meaning.{Meaning, Sound, count, held_at};
ghost use Rattle.std.specs.Prelude.{◌≡◌, ◌<◌, ◌≤◌};

use crate::fault::Fault;
use crate::kind::Kind;
use crate::ladders::{may_lift, may_put, may_set, may_switch, may_take};
use crate::place::Place;
use crate::robot::{Questions, Robot};
use std::marker::PhantomData;

/// Says that an act on a `K` was granted. Only the acts below make one, and they lend it: a keeper cannot
/// keep it for later, nor use it on a keeper of another type. So on a keeper that passes no grant on nothing
/// but an act calls `store`, `fill` or `turn`.
#[derive(Drop)]
pub struct Granted<K> {
    of: PhantomData<K>,
}

impl<K> Granted<K> {
    fn new() -> Granted<K> {
        Granted { of: PhantomData }
    }
}

/// What is kept of the places and of the hand. `store`, `fill` and `turn` test nothing: the acts do that before.
pub trait Keeper {
    ghost kept: { Self → Meaning };

    /// How many places there are.
    fn place_count(&self) -> u16
        ensures { result ≡ count (kept self.now) };

    /// The number of the cartridge in the hand, or 0.
    fn hand(&self) -> u32
        ensures { result ≡ (kept self.now).hand };

    /// The place p, if there is one.
    fn place(&self, p: u16) -> Option<Place>
        ensures { result ≡ place_asked (kept self.now) p };

    /// Place p and the hand now hold these.
    // A number stays a plain `u32`, with its bound here: a caller of `put` may give any, and wrong ones are refused.
    fn store(&mut self, granted: &Granted<Self>, p: u16, number: u32, hand: u32)
        requires within { p < count (kept self.old) }
        requires numbered { number ≤ unreadable_number }
        requires handed { hand ≤ unreadable_number }
        ensures { kept self.new ≡ with_held (kept self.old) p number hand };

    /// The empty place p and the hand now hold these: what `store` does, for a keeper that has less to do at
    /// an empty place.
    fn fill(&mut self, granted: &Granted<Self>, p: u16, number: u32, hand: u32)
        requires within { p < count (kept self.old) }
        requires empty { held_at (kept self.old) p ≡ 0 }
        requires some { 0 < number }
        requires numbered { number ≤ unreadable_number }
        requires handed { hand ≤ unreadable_number }
        ensures { kept self.new ≡ with_held (kept self.old) p number hand }
    {
        self.store(granted, p, number, hand);
    }

    /// Place p is now in service, or out of it.
    fn turn(&mut self, granted: &Granted<Self>, p: u16, on: bool)
        requires { p < count (kept self.old) }
        ensures { kept self.new ≡ with_service (kept self.old) p on };

    ghost sound: { (x : Self) → Sound (kept x) };
}

impl<K: Keeper> Questions for K {
    ghost meaning = { K.kept };

    ghost sound = { K.sound };

    fn places(&self) -> u16 {
        self.place_count()
    }

    fn in_hand(&self) -> u32 {
        self.hand()
    }

    fn kind(&self, p: u16) -> Option<Kind> {
        self.place(p).map(|place| place.kind)
    }

    fn cartridge(&self, p: u16) -> Option<u32> {
        self.place(p).map(|place| place.cartridge)
    }

    fn in_service(&self, p: u16) -> Option<bool> {
        self.place(p).map(|place| place.in_service)
    }
}

impl<K: Keeper> Robot for K {
    fn lift(&mut self, p: u16) -> Result<u32, Fault> {
        let number = may_lift(self, p)?;
        self.store(&Granted::new(), p, 0, number);
        Ok(number)
    }

    fn set(&mut self, p: u16) -> Result<(), Fault> {
        may_set(self, p)?;
        self.fill(&Granted::new(), p, self.hand(), 0);
        Ok(())
    }

    fn put(&mut self, p: u16, number: u32) -> Result<(), Fault> {
        may_put(self, p, number)?;
        self.fill(&Granted::new(), p, number, self.hand());
        Ok(())
    }

    fn take(&mut self, p: u16) -> Result<u32, Fault> {
        let number = may_take(self, p)?;
        self.store(&Granted::new(), p, 0, self.hand());
        Ok(number)
    }

    fn switch(&mut self, p: u16, on: bool) -> Result<(), Fault> {
        may_switch(self, p)?;
        self.turn(&Granted::new(), p, on);
        Ok(())
    }
}
