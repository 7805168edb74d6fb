ghost use Rattle.std.specs.Prelude.{◌≡◌, ◌≤◌, true, vec_capacity};
ghost use Rattle.tag_frame.specs.Tags.{tidy};

use crate::tag::Tag;

pub mod edits;

/// The cartridges of a frame of `count` places, each with its place, and room for one at every place.
// No map: an act would ask for memory, which none may want.
#[derive(Drop)]
pub struct Table {
    tags: Vec<Tag>,
    count: u16,
    ghost distinct: { tidy count tags.items ≡ true },
    ghost room: { count ≤ vec_capacity tags },
}
