ghost use Rattle.std.specs.Prelude.{◌≡◌, ◌<◌, ◌≤◌};
ghost use Rattle.labels.specs.Numbers.{unreadable_number};
ghost use Rattle.robots.specs.Acts.{with_held};
ghost use Rattle.robots.specs.Making.{Made};
ghost use Rattle.robots.specs.Meaning.{count};
ghost use Rattle.tag_frame.specs.Frames.{frame_meaning};
ghost use Rattle.std.proofs.Common.{◌∙◌, arith};
ghost use Rattle.std.proofs.lemmas.List.{length-map};
ghost use Rattle.tag_frame.specs.Tagged.{held_length, held_number};

use super::TagFrame;
use crate::site::sites_of;
use crate::table::Table;
use robots::keeper::{Granted, Keeper};
use robots::making::{Unmade, check_places};
use robots::place::Place;
use std::alloc::Global;
use std::mem;

impl TagFrame {
    /// A tag frame with these places, and this in its hand.
    pub fn new(heap: Global, places: &[Place], hand: u32) -> Result<TagFrame, Unmade>
        ensures { Made frame_meaning places.now hand result }
    {
        check_places(places, hand)?;
        let sites = sites_of(heap, places)?;
        let table = Table::of_places(heap, places)?;
        Ok(TagFrame { sites, table, hand })
    }

    /// Place p and the hand now hold these. The table is changed by value, and written back whole.
    fn hold(&mut self, p: u16, number: u32, hand: u32)
        requires within { p < count (frame_meaning self.old) }
        requires numbered { number ≤ unreadable_number }
        requires handed { hand ≤ unreadable_number }
        ensures { frame_meaning self.new ≡ with_held (frame_meaning self.old) p number hand }
    {
        let table = mem::replace(&mut self.table, Table::none(*self.sites.allocator()));
        self.table = table.with(p, number);
        self.hand = hand;
    }
}

// Indices are made by `as`: one by `From` has an equation that each proof would have to carry.
impl Keeper for TagFrame {
    ghost kept = { frame_meaning };

    ghost sound = { λ f.
        let n = f.table.count in
        let ts = f.table.tags.items in
        record {
          few = simp length-map (omega (arith, f.sites.ok.0, f.few));
          held_length = held_length n ts ∙ simp length-map (omega (arith, f.sites.ok.0, f.tabled));
          service_length = simp length-map;
          held_numbers = λ p. held_number n ts p f.table.distinct;
          hand_number = f.handed;
        } };

    fn place_count(&self) -> u16 {
        self.sites.len() as u16
    }

    fn hand(&self) -> u32 {
        self.hand
    }

    fn place(&self, p: u16) -> Option<Place> {
        self.sites.get(p as usize).map(|site| Place {
            kind: site.kind,
            cartridge: self.table.number_at(p),
            in_service: site.in_service,
        })
    }

    fn store(&mut self, _: &Granted<TagFrame>, p: u16, number: u32, hand: u32) {
        self.hold(p, number, hand);
    }

    // The list is not searched for an empty place.
    fn fill(&mut self, _: &Granted<TagFrame>, p: u16, number: u32, in_hand: u32) {
        let table = mem::replace(&mut self.table, Table::none(*self.sites.allocator()));
        self.table = table.add(p, number);
        self.hand = in_hand;
    }

    fn turn(&mut self, _: &Granted<TagFrame>, p: u16, on: bool) {
        self.sites[p as usize].in_service = on;
    }
}
