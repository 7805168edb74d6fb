//! The door: what opens and shuts it, and what hands do while it is open. These calls, and that of
//! the messages, become public together with the law over runs.

ghost use Rattle.library.specs.Cores.{library_of};
ghost use Rattle.server.specs.Door.{open_call, put_through, shut_call, take_through, with_door};
ghost use Rattle.server.specs.Hands.{service_call};
ghost use Rattle.std.specs.Prelude.{◌≡◌, true};

use super::{Open, Serving};
use crate::hands::{put_inside, switch, take_inside};
use crate::refusal::CallRefusal;
use receipt::receive::force_idle;
use robots::robot::Robot;

/// The number that the opening of the door is told with.
const DOOR_NUMBER: u16 = 0;

impl<'a, R: Robot> Serving<'a, R> {
    /// Opens the door: idle at once, from every state.
    pub(crate) fn open(self) -> Open<'a, R>
        ensures { result ≡ open_call self.entry }
    {
        let Serving { mut core } = self;
        force_idle(&mut core, DOOR_NUMBER);
        Open { core }
    }
}

impl<'a, R: Robot> Open<'a, R> {
    /// Shuts the door. The library stays idle.
    pub(crate) fn shut(self) -> Serving<'a, R>
        ensures { result ≡ shut_call self.entry }
    {
        let Open { core } = self;
        Serving { core }
    }

    /// A person puts a cartridge into any place.
    pub(crate) fn put(&mut self, place: u16, number: u32) -> Result<(), CallRefusal>
        ensures answer { result ≡ (put_through self.old place number).answer }
        ensures library { self.new ≡ (put_through self.old place number).library }
    {
        put_inside(&mut self.core, place, number)
    }

    /// A person takes the cartridge out of any place, and its number is told.
    pub(crate) fn take(&mut self, place: u16) -> Result<u32, CallRefusal>
        ensures answer { result ≡ (take_through self.old place).answer }
        ensures library { self.new ≡ (take_through self.old place).library }
    {
        take_inside(&mut self.core, place)
    }

    /// Puts a place into service, or out of it.
    pub(crate) fn service(&mut self, place: u16, on: bool) -> Result<(), CallRefusal>
        ensures answer { result ≡ (service_call self.old place on).answer }
        ensures library { self.new ≡ (service_call self.old place on).library }
    {
        switch(&mut self.core, place, on)
    }
}
