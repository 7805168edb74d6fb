//! What is asked of a stock, and what people do at its places.

ghost use Rattle.std.specs.Prelude.{◌≡◌, ◌<◌, IfSome};
ghost use Rattle.robot_moves.specs.Search.{is_kind, next_full_port, of_kind};
ghost use Rattle.robots.specs.Acts.{put_answer, switch_answer, take_answer};
ghost use Rattle.robots.specs.Meaning.{count};
ghost use Rattle.stock.specs.Filing.{volume_of};
ghost use Rattle.stock.specs.Holding.{held_in};
ghost use Rattle.stock.specs.Moves.{with_put, with_switched, with_taken};

use super::Stock;
use crate::catalogue::{Catalogue, Volume};
use robot_moves::search::{is_of, next_full_port};
use robots::fault::Fault;
use robots::kind::Kind;
use robots::robot::{Questions, Robot};

/// The number of the cartridge at p; 0 where there is none, or no such place.
pub fn held<Q: Questions>(robot: &Q, p: u16) -> u32
    ensures { result ≡ held_in (Q.meaning robot.now) p }
{
    robot.cartridge(p).unwrap_or(0)
}

impl<R: Robot> Stock<R> {
    pub fn new(robot: R, catalogue: Catalogue) -> Stock<R>
        ensures robot { result.robot ≡ R.Questions.meaning robot }
        ensures filed { result.filed ≡ catalogue }
    {
        Stock { robot, catalogue }
    }

    pub fn places(&self) -> u16
        ensures { result ≡ count self.now.robot }
    {
        self.robot.places()
    }

    /// Whether there is a place p of this kind.
    pub fn is_of(&self, kind: Kind, p: u16) -> bool
        ensures { result ≡ of_kind (is_kind kind) self.now.robot p }
    {
        is_of(&self.robot, kind, p)
    }

    /// Where the label with this number is filed.
    pub fn volume(&self, number: u32) -> Option<Volume>
        ensures { result ≡ volume_of self.now.filed number }
    {
        self.catalogue.volume(number)
    }

    /// The lowest full port place from `from` on.
    pub fn full_port(&self, from: u16) -> Option<u16>
        ensures value { result ≡ next_full_port self.now.robot from }
        ensures within { IfSome result (λ p. p < 65535) }
    {
        next_full_port(&self.robot, from)
    }

    /// A person puts a cartridge in.
    pub fn put(&mut self, p: u16, number: u32) -> Result<(), Fault>
        ensures answer { result ≡ put_answer self.old.robot p number }
        ensures after { self.new ≡ with_put self.old p number }
    {
        self.robot.put(p, number)
    }

    /// A person takes the cartridge out, and its number is told.
    pub fn take(&mut self, p: u16) -> Result<u32, Fault>
        ensures answer { result ≡ take_answer self.old.robot p }
        ensures after { self.new ≡ with_taken self.old p }
    {
        self.robot.take(p)
    }

    /// Puts a place into service, or out of it.
    pub fn switch(&mut self, p: u16, on: bool) -> Result<(), Fault>
        ensures answer { result ≡ switch_answer self.old.robot p }
        ensures after { self.new ≡ with_switched self.old p on }
    {
        self.robot.switch(p, on)
    }
}
