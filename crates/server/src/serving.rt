ghost use Rattle.library.specs.Cores.{library_of};
ghost use Rattle.library.specs.Library.{Library};
ghost use Rattle.server.specs.Door.{with_door};
ghost use Rattle.std.specs.Prelude.{true};

use library::cores::Core;
use robots::robot::Robot;
use std::marker::Model;

pub mod calls;
pub mod door;

/// A library whose door is shut.
#[derive(Drop)]
pub struct Serving<'a, R: Robot> {
    core: Core<'a, R>,
}

impl<'a, R: Robot> Model for Serving<'a, R> {
    ghost Value = { Library };

    ghost view = { λ s. library_of s.core };
}

/// A library whose door is open: hands reach every place, and no packet comes in. It is a type of its own and
/// no flag, so that it has no call for what it cannot do.
#[derive(Drop)]
pub(crate) struct Open<'a, R: Robot> {
    core: Core<'a, R>,
}

impl<'a, R: Robot> Model for Open<'a, R> {
    ghost Value = { Library };

    ghost view = { λ s. with_door true (library_of s.core) };
}
