//! Calls in turn, each with what it must give.

use library::slots::{BLANK_MESSAGE, BLANK_REQUEST};
use robots::robot::Robot;
use server::refusal::CallRefusal;
use server::serving::Serving;
use std::test::*;

/// The number of `V00000`: 31 * 60,466,176 + 1. Those of `V00001`, `V00002` and so on follow it.
pub const V0: u32 = 1_874_451_457;

/// A call, and what it must give.
#[derive(Clone, Copy, PartialEq, Eq, Debug)]
pub enum Call {
    /// The packet is answered by these bytes.
    Receive(&'static [u8], &'static [u8]),
    /// A step writes these bytes.
    Step(&'static [u8]),
    /// So many steps write nothing.
    Quiet(u16),
    /// The cartridge is put into the place.
    Put(u16, u32),
    /// The place gives this cartridge.
    Take(u16, u32),
    /// A hand does not reach the place, for this cause.
    Barred(u16, CallRefusal),
    /// The place is put into service, or out of it.
    Service(u16, bool),
}

/// Fails the test where this does not hold.
pub fn ensure(holds: bool) -> Result<(), Fail> {
    if holds {
        Ok(())
    } else {
        Err(Fail::new("an answer is not as worked out"))
    }
}

/// The packet is answered by these bytes.
pub fn received<R: Robot>(
    library: &mut Serving<R>,
    packet: &[u8],
    expected: &[u8],
) -> Result<(), Fail> {
    let mut buffer = [7; 2048];
    let length = library.receive(packet, &mut buffer)?;
    ensure(length <= 2048 && &buffer[0..length] == expected)
}

/// The step writes these bytes, or nothing.
pub fn stepped<R: Robot>(library: &mut Serving<R>, expected: &[u8]) -> Result<(), Fail> {
    let mut buffer = [7; 2048];
    let length = library.step(&mut buffer)?;
    ensure(length <= 2048 && &buffer[0..length] == expected)
}

/// So many steps write nothing.
pub fn quiet<R: Robot>(library: &mut Serving<R>, steps: u16) -> Result<(), Fail> {
    for _ in 0..steps {
        stepped(library, &[])?;
    }
    Ok(())
}

fn made<R: Robot>(library: &mut Serving<R>, call: Call) -> Result<(), Fail> {
    match call {
        Call::Receive(packet, expected) => received(library, packet, expected),
        Call::Step(expected) => stepped(library, expected),
        Call::Quiet(steps) => quiet(library, steps),
        Call::Put(place, number) => Ok(library.put(place, number)?),
        Call::Take(place, number) => ensure(library.take(place)? == number),
        Call::Barred(place, why) => {
            ensure(library.put(place, 1) == Err(why))?;
            ensure(library.take(place) == Err(why))
        }
        Call::Service(place, on) => Ok(library.service(place, on)?),
    }
}

/// Makes the calls, and checks each.
fn follow<R: Robot>(library: &mut Serving<R>, script: &[Call]) -> Result<(), Fail> {
    for call in script {
        made(library, *call)?;
    }
    Ok(())
}

/// Follows the script with a server over the robot, with two slots in each queue.
pub fn over<R: Robot + Drop>(rt: HostRuntime, robot: R, script: &[Call]) -> Result<(), Fail> {
    let mut requests = [BLANK_REQUEST; 2];
    let mut messages = [BLANK_MESSAGE; 2];
    let mut library = Serving::new(rt.alloc(), robot, &mut requests, &mut messages)?;
    follow(&mut library, script)
}
