//! A lift gives a slip, which is spent where the cartridge is set down or put back.

ghost use Rattle.robot_moves.specs.Search.{next_free_cell};
ghost use Rattle.robot_moves.specs.Slips.{found, set_by_slip, slip_answer};
ghost use Rattle.robots.specs.Acts.{lifted, set_down, set_refusal, with_held};
ghost use Rattle.std.specs.Prelude.{◌≡◌, None};

use robots::fault::Fault;
use robots::robot::{Questions, Robot};

mod token;

pub use token::{Found, InHand, Lifted, Slip};

/// Lifts the cartridge at p, and gives the slip for it.
pub fn lift<R: Robot>(robot: &mut R, p: u16) -> Result<Slip, Fault>
    ensures answer { result ≡ slip_answer (R.Questions.meaning robot.old) p }
    ensures after { R.Questions.meaning robot.new ≡ lifted (R.Questions.meaning robot.old) p }
{
    robot.lift(p).map(|_| Slip::new(Lifted { from: p }))
}

/// Sets the cartridge down at `to`, which spends the slip; where that is refused the slip comes back.
pub fn set<R: Robot>(slip: Slip, robot: &mut R, to: u16) -> Result<(), (Slip, Fault)>
    ensures answer { result ≡ set_by_slip slip (R.Questions.meaning robot.old) to }
    ensures after { R.Questions.meaning robot.new ≡ set_down (R.Questions.meaning robot.old) to }
{
    // No `map_err`: a closure that is not called would let the slip go.
    match robot.set(to) {
        Ok(()) => {
            let _ = slip.spend();
            Ok(())
        }
        Err(fault) => Err((slip, fault)),
    }
}

/// Sets the cartridge down where it was lifted from; whoever calls shows that this cannot be refused.
pub fn put_back<R: Robot>(slip: Slip, robot: &mut R)
    requires { set_refusal (R.Questions.meaning robot.old) slip.of.from ≡ None }
    ensures { R.Questions.meaning robot.new ≡ with_held (R.Questions.meaning robot.old) slip.of.from (R.Questions.meaning robot.old).hand 0 }
{
    let _ = robot.set(slip.spend().from);
}

/// The token for a cartridge that is in the hand, if there is one.
pub fn find<Q: Questions>(robot: &Q) -> Option<Found>
    ensures { result ≡ found (Q.meaning robot.now) }
{
    let cartridge = robot.in_hand();
    if cartridge == 0 {
        return None;
    }
    Some(Found::new(InHand { cartridge }))
}

/// Sets a cartridge that was found in the hand down at `to`; whoever calls shows that this cannot be refused.
pub fn set_found<R: Robot>(token: Found, robot: &mut R, to: u16)
    requires { set_refusal (R.Questions.meaning robot.old) to ≡ None }
    ensures { R.Questions.meaning robot.new ≡ set_down (R.Questions.meaning robot.old) to }
{
    let _ = token.spend();
    let _ = robot.set(to);
}

/// Leaves a cartridge that was found in the hand where it is; whoever calls shows that no cell is free for it.
pub fn leave_found<Q: Questions>(token: Found, robot: &Q, from: u16)
    requires { next_free_cell (Q.meaning robot.now) from ≡ None }
{
    let _ = token.spend();
}
