//! What a start does: it empties the hand, and files what it reads.

ghost use Rattle.robots.specs.Meaning.{count};
ghost use Rattle.stock.specs.Holding.{inventory_of, readable, shown_at};
ghost use Rattle.stock.specs.Starts.{begun, fit, hand_cleared, read_at};
ghost use Rattle.std.specs.Prelude.{◌≡◌};

use super::Stock;
use crate::refusal::Refusal;
use crate::stock::lookups::held;
use crate::stock::movements::why_stopped;
use labels::UNREADABLE_NUMBER;
use robot_moves::movement::{Target, empty_hand};
use robot_moves::search::{is_of, port_count};
use robots::kind::Kind;
use robots::robot::{Questions, Robot};
use std::array;

/// Whether the number is that of a label.
fn readable(number: u32) -> bool
    ensures { result ≡ readable number }
{
    number != 0 && number != UNREADABLE_NUMBER
}

/// Whether a start accepts the make-up: 1 to 256 places, at most 21 of them port places.
fn fit<Q: Questions>(robot: &Q) -> bool
    ensures { result ≡ fit (Q.meaning robot.now) }
{
    let n = robot.places();
    let ports = port_count(robot);
    n != 0 && n <= 256 && ports <= 21
}

/// What an inventory says of the place p: its cartridge, where it is a cell or a drive.
fn shown<Q: Questions>(robot: &Q, p: u16) -> u32
    ensures { result ≡ shown_at (Q.meaning robot.now) p }
{
    if is_of(robot, Kind::Port, p) {
        0
    } else {
        held(robot, p)
    }
}

/// What cells and drives hold, for each of 256 places.
fn inventory<Q: Questions>(robot: &Q) -> [u32; 256]
    ensures { result ≡ inventory_of (Q.meaning robot.now) }
{
    array::from_fn(|p| shown(robot, p as u16))
}

impl<R: Robot> Stock<R> {
    /// Sets what the hand holds into the next free cell from the last place.
    fn clear_hand(&mut self) -> Result<(), Refusal>
        ensures answer { result ≡ (hand_cleared self.old).answer }
        ensures after { self.new ≡ (hand_cleared self.old).stock }
    {
        let last = self.robot.places().saturating_sub(1);
        empty_hand(&mut self.robot, last).map_err(|why| why_stopped(Target::NextCell, why))
    }

    /// The taking step of a start.
    pub fn begin(&mut self) -> Result<(), Refusal>
        ensures answer { result ≡ (begun self.old).answer }
        ensures after { self.new ≡ (begun self.old).stock }
    {
        if !fit(&self.robot) {
            return Err(Refusal::BadMakeUp);
        }
        self.catalogue.clear();
        self.clear_hand()
    }

    /// A start reads the place p: a label in a cell or drive is filed.
    pub fn read(&mut self, p: u16)
        ensures { self.new ≡ read_at self.old p }
    {
        let number = shown(&self.robot, p);
        if readable(number) {
            self.catalogue.file(number, p);
        }
    }

    /// What cells and drives hold, for each of 256 places.
    pub fn inventory(&self) -> [u32; 256]
        ensures { result ≡ inventory_of self.now.robot }
    {
        inventory(&self.robot)
    }
}
