ghost use Rattle.std.specs.Prelude.{◌≡◌, ◌≤◌, vec_len};
ghost use Rattle.labels.specs.Numbers.{unreadable_number};

use crate::site::Site;
use crate::table::Table;

pub mod acts;

/// A robot that keeps a list of cartridges, each with its place.
#[derive(Drop)]
pub struct TagFrame {
    sites: Vec<Site>,
    table: Table,
    hand: u32,
    ghost few: { vec_len sites ≤ 256 },
    ghost tabled: { table.count ≡ vec_len sites },
    ghost handed: { hand ≤ unreadable_number },
}
