//! A table is changed by value: an edit takes it and gives the new one.

ghost use Rattle.std.specs.Prelude.{◌≡◌, ◌<◌, ◌≤◌, true, map, length, replicate, IfOk, slice_index, slice_set};
ghost use Rattle.labels.specs.Numbers.{unreadable_number};
ghost use Rattle.robots.specs.Making.{numbers_fit, place_cartridge};
ghost use Rattle.tag_frame.specs.Tables.{table_held};

use crate::table::Table;
use crate::tag::{Tag, number_in, retag};
use robots::place::Place;
use std::alloc::{AllocError, Global};

impl Table {
    /// A table of no places, which stands in while another is changed; it asks for no memory.
    pub(crate) fn none(heap: Global) -> Table {
        Table {
            tags: Vec::new(heap),
            count: 0,
        }
    }

    /// A table of no cartridges, with room for one at each place.
    fn empty(heap: Global, count: u16) -> Result<Table, AllocError>
        ensures { IfOk result (λ t. (t.count ≡ count) × (table_held t ≡ replicate count 0)) }
    {
        let tags = Vec::with_capacity(heap, usize::from(count))?;
        Ok(Table { tags, count })
    }

    /// A table of what these places hold.
    pub(crate) fn of_places(heap: Global, places: &[Place]) -> Result<Table, AllocError>
        requires few { length places.now ≤ 256 }
        requires numbered { numbers_fit places.now ≡ true }
        ensures { IfOk result (λ t. (t.count ≡ length places.now) × (table_held t ≡ map place_cartridge places.now)) }
    {
        let mut table = Table::empty(heap, places.len() as u16)?;
        for (p, place) in places.iter().enumerate() {
            let number = place.cartridge;
            if number != 0 {
                table = table.add(p as u16, number);
            }
        }
        Ok(table)
    }

    /// The number of the cartridge at p, or 0.
    pub(crate) fn number_at(&self, p: u16) -> u32
        ensures value { result ≡ slice_index (table_held self.now) p }
        ensures number { result ≤ unreadable_number }
    {
        number_in(&self.tags, p)
    }

    /// The table with this cartridge too, at a place that was empty: the list is not searched.
    pub(crate) fn add(self, p: u16, number: u32) -> Table
        requires within { p < self.count }
        requires empty { slice_index (table_held self) p ≡ 0 }
        requires some { 0 < number }
        requires numbered { number ≤ unreadable_number }
        ensures held { table_held result ≡ slice_set (table_held self) p number }
        ensures count { result.count ≡ self.count }
    {
        let Table { mut tags, count } = self;
        tags.push_reserved(Tag { number, place: p });
        Table { tags, count }
    }

    /// The table with this cartridge, or none if the number is 0, in place of what is at p.
    pub(crate) fn with(self, p: u16, number: u32) -> Table
        requires within { p < self.count }
        requires numbered { number ≤ unreadable_number }
        ensures held { table_held result ≡ slice_set (table_held self) p number }
        ensures count { result.count ≡ self.count }
    {
        let Table { mut tags, count } = self;
        retag(&mut tags, p, number);
        Table { tags, count }
    }
}
