//! Whether an act would be refused, asked in the order of the rules; written once, for all robots.

ghost use Rattle.std.specs.Prelude.{◌≡◌, ◌≤◌, IfOk};
ghost use Rattle.labels.specs.Numbers.{unreadable_number};
ghost use Rattle.robots.specs.Acts.{lift_answer, put_answer, set_answer, switch_answer, take_answer};

use crate::fault::Fault;
use crate::robot::Questions;
use labels::UNREADABLE_NUMBER;

/// What a lift would answer.
pub fn may_lift<Q: Questions>(robot: &Q, p: u16) -> Result<u32, Fault>
    ensures answer { result ≡ lift_answer (Q.meaning robot.now) p }
    ensures number { IfOk result (λ n. n ≤ unreadable_number) }
{
    let (Some(number), Some(service)) = (robot.cartridge(p), robot.in_service(p)) else {
        return Err(Fault::NoPlace(p));
    };
    if robot.in_hand() != 0 {
        Err(Fault::HandFull(p))
    } else if !service {
        Err(Fault::OutOfService(p))
    } else if number == 0 {
        Err(Fault::PlaceEmpty(p))
    } else {
        Ok(number)
    }
}

/// What a set would answer.
pub fn may_set<Q: Questions>(robot: &Q, p: u16) -> Result<(), Fault>
    ensures { result ≡ set_answer (Q.meaning robot.now) p }
{
    let (Some(number), Some(service)) = (robot.cartridge(p), robot.in_service(p)) else {
        return Err(Fault::NoPlace(p));
    };
    if robot.in_hand() == 0 {
        Err(Fault::HandEmpty(p))
    } else if !service {
        Err(Fault::OutOfService(p))
    } else if number != 0 {
        Err(Fault::PlaceFull(p))
    } else {
        Ok(())
    }
}

/// What a put would answer.
pub fn may_put<Q: Questions>(robot: &Q, p: u16, number: u32) -> Result<(), Fault>
    ensures { result ≡ put_answer (Q.meaning robot.now) p number }
{
    let Some(held) = robot.cartridge(p) else {
        return Err(Fault::NoPlace(p));
    };
    if number < 1 || number > UNREADABLE_NUMBER {
        Err(Fault::BadNumber(p))
    } else if held != 0 {
        Err(Fault::PlaceFull(p))
    } else {
        Ok(())
    }
}

/// What a take would answer.
pub fn may_take<Q: Questions>(robot: &Q, p: u16) -> Result<u32, Fault>
    ensures { result ≡ take_answer (Q.meaning robot.now) p }
{
    let Some(number) = robot.cartridge(p) else {
        return Err(Fault::NoPlace(p));
    };
    if number == 0 {
        Err(Fault::PlaceEmpty(p))
    } else {
        Ok(number)
    }
}

/// What a switch would answer.
pub fn may_switch<Q: Questions>(robot: &Q, p: u16) -> Result<(), Fault>
    ensures { result ≡ switch_answer (Q.meaning robot.now) p }
{
    robot.kind(p).map(|_| ()).ok_or(Fault::NoPlace(p))
}
