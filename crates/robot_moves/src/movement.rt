//! The movement of a cartridge from one place to another.

ghost use Rattle.robot_moves.specs.Movement.{hand_emptied, movement, sought};
ghost use Rattle.robot_moves.specs.declared.movement.Stopped.TheVariants.{Refused};
ghost use Rattle.robots.specs.Cartridges.{SameCartridges};
ghost use Rattle.std.specs.Prelude.{◌≡◌};

use crate::search::{lowest_free_port, next_free_cell};
use crate::slip;
use robots::fault::Fault;
use robots::robot::{Questions, Robot};

/// Where a cartridge goes.
#[derive(Clone, Copy, PartialEq, Eq, Debug)]
pub enum Target {
    /// To this place.
    At(u16),
    /// To the next free cell from its own place.
    NextCell,
    /// To the lowest free port place.
    LowestPort,
}

/// A cartridge that was moved, and where it is now.
#[derive(Clone, Copy, PartialEq, Eq, Debug)]
pub struct Moved {
    pub cartridge: u32,
    pub to: u16,
}

/// Why a cartridge was not moved.
#[derive(Clone, Copy, PartialEq, Eq, Debug)]
pub enum Stopped {
    /// No place of the kind that was sought is free.
    NoTarget,
    /// The robot refused.
    Refused(Fault),
}

impl From<Fault> for Stopped {
    ghost from_gives = { λ fault why. why ≡ Refused fault };

    fn from(fault: Fault) -> Stopped {
        Stopped::Refused(fault)
    }
}

/// Where a cartridge from p goes.
fn seek<Q: Questions>(robot: &Q, target: Target, p: u16) -> Option<u16>
    ensures { result ≡ sought target (Q.meaning robot.now) p }
{
    match target {
        Target::At(q) => Some(q),
        Target::NextCell => next_free_cell(robot, p),
        Target::LowestPort => lowest_free_port(robot),
    }
}

/// Moves the cartridge at `from` to its target, or leaves everything as it was.
pub fn move_cartridge<R: Robot>(robot: &mut R, from: u16, target: Target) -> Result<Moved, Stopped>
    ensures answer { result ≡ (movement (R.Questions.meaning robot.old) from target).answer }
    ensures after { R.Questions.meaning robot.new ≡ (movement (R.Questions.meaning robot.old) from target).robot }
    ensures kept { SameCartridges (R.Questions.meaning robot.old) (R.Questions.meaning robot.new) }
{
    let slip = slip::lift(robot, from)?;
    let cartridge = robot.in_hand();
    let Some(to) = seek(robot, target, from) else {
        slip::put_back(slip, robot);
        return Err(Stopped::NoTarget);
    };
    match slip::set(slip, robot, to) {
        Ok(_) => Ok(Moved { cartridge, to }),
        Err((slip, fault)) => {
            slip::put_back(slip, robot);
            Err(Stopped::Refused(fault))
        }
    }
}

/// Sets a cartridge that is in the hand down at the next free cell from p; where none is free it stays in the hand.
pub fn empty_hand<R: Robot>(robot: &mut R, p: u16) -> Result<(), Stopped>
    ensures answer { result ≡ (hand_emptied (R.Questions.meaning robot.old) p).answer }
    ensures after { R.Questions.meaning robot.new ≡ (hand_emptied (R.Questions.meaning robot.old) p).robot }
    ensures kept { SameCartridges (R.Questions.meaning robot.old) (R.Questions.meaning robot.new) }
{
    let Some(token) = slip::find(robot) else {
        return Ok(());
    };
    let Some(to) = next_free_cell(robot, p) else {
        slip::leave_found(token, robot, p);
        return Err(Stopped::NoTarget);
    };
    slip::set_found(token, robot, to);
    Ok(())
}
