ghost use Rattle.std.specs.Prelude.{◌≤◌, List, vec_capacity, vec_items};
ghost use Rattle.stock.specs.declared.catalogue.Filed.{Filed};

use std::marker::Model;

pub mod acts;

/// A cartridge and the place where it is filed.
#[derive(Clone, Copy, PartialEq, Eq, Debug, Drop)]
pub struct Filed {
    pub number: u32,
    pub place: u16,
}

/// A row of the catalogue: where it stands, and the place that it names.
#[derive(Clone, Copy, PartialEq, Eq, Debug)]
pub struct Row {
    pub index: usize,
    pub place: u16,
}

/// Where a label is filed: in one row, or in several.
// No `Result`: it is no failure of a lookup that there are several, and an enter asks only whether there is any.
#[derive(Clone, Copy, PartialEq, Eq, Debug)]
pub enum Volume {
    One(Row),
    Several,
}

/// The readable cartridges of cells and drives, each with its place. Room for 256 is got when it is made.
// No map: filing in one would ask for memory, which no step may want, and a label may stand in several rows.
#[derive(Drop)]
pub struct Catalogue {
    rows: Vec<Filed>,
}

/// Clauses see the list of what is filed.
impl Model for Catalogue {
    ghost Value = { List Filed };

    ghost view = { λ c. vec_items c.rows };

    ghost invariant = { λ c. 256 ≤ vec_capacity c.rows };
}
