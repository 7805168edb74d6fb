ghost use Rattle.std.specs.Prelude.{◌≡◌, ◌+◌, ◌<◌, ◌≤◌, ◌==◌, [], IfOk, IfSome, drop, length};
ghost use Rattle.stock.specs.Filing.{filed_more, index_of, refiled, unfiled, volume_of};
ghost use Rattle.std.specs.List.{list_any, position_from};

use super::{Catalogue, Filed, Row, Volume};
use std::alloc::{AllocError, Global};

/// The first row with this number.
fn first_row(rows: &[Filed], number: u32) -> Option<usize>
    ensures value { result ≡ position_from (λ row. row.number == number) 0 rows.now }
    ensures within { IfSome result (λ i. i < length rows.now) }
{
    rows.iter().position(|row| row.number == number)
}

/// Whether a row has this number.
fn any_in(rows: &[Filed], number: u32) -> bool
    ensures { result ≡ list_any (λ row. row.number == number) rows.now }
{
    rows.iter().any(|row| row.number == number)
}

/// Whether a row from `from` on has this number.
fn any_from(rows: &[Filed], from: usize, number: u32) -> bool
    requires { from ≤ length rows.now }
    ensures { result ≡ list_any (λ row. row.number == number) (drop from rows.now) }
{
    // No `skip`: it would go through the rows before once more.
    any_in(&rows[from..], number)
}

/// The row that is the first with this number, or that there is another too.
fn volume_in(rows: &[Filed], number: u32) -> Option<Volume>
    ensures { result ≡ volume_of rows.now number }
{
    let index = first_row(rows, number)?;
    if any_from(rows, index + 1, number) {
        return Some(Volume::Several);
    }
    let place = rows[index].place;
    Some(Volume::One(Row { index, place }))
}

/// The first row that names the place.
fn index_in(rows: &[Filed], place: u16) -> Option<usize>
    ensures { result ≡ index_of rows.now place }
{
    rows.iter().position(|row| row.place == place)
}

impl Catalogue {
    /// An empty catalogue; the only call of it that can want memory.
    pub fn new(heap: Global) -> Result<Catalogue, AllocError>
        ensures { IfOk result (λ c. c ≡ []) }
    {
        let rows = Vec::with_capacity(heap, 256)?;
        Ok(Catalogue { rows })
    }

    /// Where the cartridge of this number is filed, if it is.
    pub fn volume(&self, number: u32) -> Option<Volume>
        ensures { result ≡ volume_of self.now number }
    {
        volume_in(&self.rows, number)
    }

    /// The row that names the place, if there is one.
    pub fn row_of(&self, place: u16) -> Option<usize>
        ensures { result ≡ index_of self.now place }
    {
        index_in(&self.rows, place)
    }

    /// What a row has is now at `to`.
    pub fn refile(&mut self, index: usize, to: u16)
        ensures { self.new ≡ refiled index to self.old }
    {
        if let Some(row) = self.rows.get_mut(index) {
            row.place = to;
        }
    }

    /// What a row has is filed no more.
    pub fn unfile(&mut self, index: usize)
        ensures { self.new ≡ unfiled index self.old }
    {
        if index < self.rows.len() {
            let _ = self.rows.remove(index);
        }
    }

    /// Files a cartridge, if there is room.
    pub fn file(&mut self, number: u32, place: u16)
        ensures { self.new ≡ filed_more (record { number = number; place = place }) self.old }
    {
        if self.rows.len() < 256 {
            self.rows.push_reserved(Filed { number, place });
        }
    }

    /// Files nothing any more.
    pub fn clear(&mut self)
        ensures { self.new ≡ [] }
    {
        self.rows.clear();
    }
}
