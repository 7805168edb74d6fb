//! What people do: at the port while the door is shut, at every place while it is open.

ghost use Rattle.library.specs.Cores.{library_of, work_of};
ghost use Rattle.server.specs.Door.{put_through, take_through, with_door, within_reach};
ghost use Rattle.server.specs.Hands.{entering, put_call, put_if, reach, service_call, take_call, take_if};
ghost use Rattle.std.specs.Prelude.{◌≡◌, true};
ghost use Rattle.std.specs.Result.{result_err};

use crate::refusal::{CallRefusal, why_not_put, why_not_taken};
use library::cores::{Core, Work};
use requests::Body;
use robots::kind::Kind;
use robots::robot::Robot;

/// Whether an enter is at work.
fn is_entering(work: &Option<Work>) -> bool
    ensures { result ≡ entering (work_of work.now) }
{
    work.as_ref()
        .is_some_and(|work| matches!(work.request.body, Body::Enter))
}

/// Whether a hand reaches the place while the door is shut.
fn reach<R: Robot>(core: &Core<R>, place: u16) -> Result<(), CallRefusal>
    ensures { result_err result ≡ reach (library_of core.now) place }
{
    if place >= core.stock.places() {
        return Err(CallRefusal::NoPlace);
    }
    if !core.stock.is_of(Kind::Port, place) {
        return Err(CallRefusal::NotPort);
    }
    if is_entering(&core.work) {
        Err(CallRefusal::EnterAtWork)
    } else {
        Ok(())
    }
}

/// Whether a hand reaches the place while the door is open: there has to be one.
fn reach_inside<R: Robot>(core: &Core<R>, place: u16) -> Result<(), CallRefusal>
    ensures { result_err result ≡ within_reach (with_door true (library_of core.now)) place }
{
    if place < core.stock.places() {
        Ok(())
    } else {
        Err(CallRefusal::NoPlace)
    }
}

/// Puts a cartridge into a place, unless no hand reaches it.
fn put_if<R: Robot>(
    within: Result<(), CallRefusal>,
    core: &mut Core<R>,
    place: u16,
    number: u32,
) -> Result<(), CallRefusal>
    ensures answer { result ≡ (put_if (result_err within) (library_of core.old) place number).answer }
    ensures library { library_of core.new ≡ (put_if (result_err within) (library_of core.old) place number).library }
{
    within?;
    core.stock.put(place, number).map_err(why_not_put)
}

/// Takes the cartridge out of a place, unless no hand reaches it.
fn take_if<R: Robot>(
    within: Result<(), CallRefusal>,
    core: &mut Core<R>,
    place: u16,
) -> Result<u32, CallRefusal>
    ensures answer { result ≡ (take_if (result_err within) (library_of core.old) place).answer }
    ensures library { library_of core.new ≡ (take_if (result_err within) (library_of core.old) place).library }
{
    within?;
    core.stock.take(place).map_err(why_not_taken)
}

/// Puts a cartridge into a port place.
pub fn put<R: Robot>(core: &mut Core<R>, place: u16, number: u32) -> Result<(), CallRefusal>
    ensures answer { result ≡ (put_call (library_of core.old) place number).answer }
    ensures library { library_of core.new ≡ (put_call (library_of core.old) place number).library }
{
    put_if(reach(core, place), core, place, number)
}

/// Takes the cartridge out of a port place.
pub fn take<R: Robot>(core: &mut Core<R>, place: u16) -> Result<u32, CallRefusal>
    ensures answer { result ≡ (take_call (library_of core.old) place).answer }
    ensures library { library_of core.new ≡ (take_call (library_of core.old) place).library }
{
    take_if(reach(core, place), core, place)
}

/// Puts a cartridge into any place, through the open door.
pub fn put_inside<R: Robot>(core: &mut Core<R>, place: u16, number: u32) -> Result<(), CallRefusal>
    ensures answer { result ≡ (put_through (with_door true (library_of core.old)) place number).answer }
    ensures library { with_door true (library_of core.new) ≡ (put_through (with_door true (library_of core.old)) place number).library }
{
    put_if(reach_inside(core, place), core, place, number)
}

/// Takes the cartridge out of any place, through the open door.
pub fn take_inside<R: Robot>(core: &mut Core<R>, place: u16) -> Result<u32, CallRefusal>
    ensures answer { result ≡ (take_through (with_door true (library_of core.old)) place).answer }
    ensures library { with_door true (library_of core.new) ≡ (take_through (with_door true (library_of core.old)) place).library }
{
    take_if(reach_inside(core, place), core, place)
}

/// Puts a place into service, or out of it.
pub fn switch<R: Robot>(core: &mut Core<R>, place: u16, on: bool) -> Result<(), CallRefusal>
    ensures answer { result ≡ (service_call (library_of core.old) place on).answer }
    ensures library { library_of core.new ≡ (service_call (library_of core.old) place on).library }
{
    core.stock
        .switch(place, on)
        .map_err(|_| CallRefusal::NoPlace)
}
