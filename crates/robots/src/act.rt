//! Questions and acts as values, and what an act does to the cartridges.

ghost use Rattle.robots.specs.Performing.{Conserves, act_answer, acted, reply_to};
ghost use Rattle.std.specs.Prelude.{◌≡◌};

use crate::fault::Fault;
use crate::kind::Kind;
use crate::robot::{Questions, Robot};

/// Something to ask of a robot. A value, since what holds of all robots is said of every question, and below
/// of every act.
#[derive(Clone, Copy, PartialEq, Eq, Debug)]
pub enum Question {
    Places,
    Hand,
    KindAt(u16),
    CartridgeAt(u16),
    ServiceAt(u16),
}

/// What a robot tells.
#[derive(Clone, Copy, PartialEq, Eq, Debug)]
pub enum Reply {
    Count(u16),
    InHand(u32),
    IsKind(Option<Kind>),
    Holds(Option<u32>),
    Serves(Option<bool>),
}

/// Something for a robot to do.
#[derive(Clone, Copy, PartialEq, Eq, Debug)]
pub enum Act {
    Lift(u16),
    Set(u16),
    Put(u16, u32),
    Take(u16),
    Switch(u16, bool),
}

/// What an act answers.
#[derive(Clone, Copy, PartialEq, Eq, Debug)]
pub enum Answer {
    /// A lift or a take: the cartridge's number.
    Number(Result<u32, Fault>),
    /// Any other act.
    Done(Result<(), Fault>),
}

/// Asks the robot this.
pub fn ask<Q: Questions>(robot: &Q, question: Question) -> Reply
    ensures { result ≡ reply_to (Q.meaning robot.now) question }
{
    match question {
        Question::Places => Reply::Count(robot.places()),
        Question::Hand => Reply::InHand(robot.in_hand()),
        Question::KindAt(p) => Reply::IsKind(robot.kind(p)),
        Question::CartridgeAt(p) => Reply::Holds(robot.cartridge(p)),
        Question::ServiceAt(p) => Reply::Serves(robot.in_service(p)),
    }
}

/// Makes the call that the act names. What `perform` says of the cartridges follows from these clauses.
fn call<R: Robot>(robot: &mut R, act: Act) -> Answer
    ensures answer { result ≡ act_answer (R.Questions.meaning robot.old) act }
    ensures after { R.Questions.meaning robot.new ≡ acted (R.Questions.meaning robot.old) act }
{
    match act {
        Act::Lift(p) => Answer::Number(robot.lift(p)),
        Act::Set(p) => Answer::Done(robot.set(p)),
        Act::Put(p, number) => Answer::Done(robot.put(p, number)),
        Act::Take(p) => Answer::Number(robot.take(p)),
        Act::Switch(p, on) => Answer::Done(robot.switch(p, on)),
    }
}

/// Has the robot do this. No cartridge is lost or made, but for the one that a person puts in or takes out.
pub fn perform<R: Robot>(robot: &mut R, act: Act) -> Answer
    ensures answer { result ≡ act_answer (R.Questions.meaning robot.old) act }
    ensures after { R.Questions.meaning robot.new ≡ acted (R.Questions.meaning robot.old) act }
    ensures kept { Conserves act result (R.Questions.meaning robot.old) (R.Questions.meaning robot.new) }
{
    call(robot, act)
}
