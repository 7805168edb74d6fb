ghost use Rattle.bay.specs.Bays.{bay_meaning};
ghost use Rattle.bay.specs.Stored;
ghost use Rattle.robots.specs.Making.{Made};
ghost use Rattle.std.proofs.Common.{arith};

use super::Bay;
use robots::keeper::{Granted, Keeper};
use robots::making::{Unmade, check_places};
use robots::place::Place;
use std::alloc::Global;

impl Bay {
    /// A bay with these places, and this in its hand.
    pub fn new(heap: Global, places: &[Place], hand: u32) -> Result<Bay, Unmade>
        ensures { Made bay_meaning places.now hand result }
    {
        check_places(places, hand)?;
        let places = places.to_vec(heap)?;
        Ok(Bay { places, hand })
    }
}

// Indices are made by `as`: one by `From` has an equation that each proof would have to carry.
impl Keeper for Bay {
    ghost kept = { bay_meaning };

    ghost sound = { λ b. Stored.sound b.places.items b.hand (omega (arith, b.places.ok.0)) b.numbered b.handed };

    fn place_count(&self) -> u16 {
        self.places.len() as u16
    }

    fn hand(&self) -> u32 {
        self.hand
    }

    fn place(&self, p: u16) -> Option<Place> {
        self.places.get(p as usize).copied()
    }

    fn store(&mut self, _: &Granted<Bay>, p: u16, number: u32, hand: u32) {
        self.places[p as usize].cartridge = number;
        self.hand = hand;
    }

    fn turn(&mut self, _: &Granted<Bay>, p: u16, on: bool) {
        self.places[p as usize].in_service = on;
    }
}
