use crate::script::{Call, Calls};
use crate::site::{Spot, places_of};
use crate::tally::{NO_CALLS, Tally};
use bay::bay::Bay;
use library::slots::{BLANK_MESSAGE, BLANK_REQUEST, MESSAGE_SLOTS, REQUEST_SLOTS};
use robots::making::Unmade;
use robots::robot::Robot;
use server::refusal::CallRefusal;
use server::serving::Serving;
use std::alloc::Global;
use tag_frame::frame::TagFrame;

/// A start over 256 places, which is the longest request, needs fewer steps.
const MOST_STEPS: u16 = 300;

/// What C is told: how many calls were made, and the sum of what they told; or, by a flag since C has no
/// `Option`, that the site or the server could not be made.
#[derive(Clone, Copy)]
#[repr(C)]
pub struct Outcome {
    pub calls: u64,
    pub sum: u64,
    pub is_made: bool,
}

const UNMADE: Outcome = Outcome {
    calls: 0,
    sum: 0,
    is_made: false,
};

/// A server that a script is played to, its buffer, and the tally of what it told.
#[derive(Drop)]
struct Player<'a, R: Robot> {
    library: Serving<'a, R>,
    buffer: [u8; 2048],
    tally: Tally,
}

impl<R: Robot> Player<'_, R> {
    /// Counts a call and adds what it wrote; tells the length.
    fn tell(&mut self, res: Result<usize, CallRefusal>) -> usize {
        match res {
            Ok(length) => match self.buffer.get(0..length) {
                Some(response) => {
                    self.tally.hear(0, response);
                    length
                }
                // Not met: no length is above 2,048, but a result that is passed on does not say so.
                None => 0,
            },
            Err(why) => {
                self.tally.hear(u8::from(why), &[]);
                0
            }
        }
    }

    fn receive(&mut self, packet: &[u8]) -> usize {
        let result = self.library.receive(packet, &mut self.buffer);
        self.tell(result)
    }

    fn step(&mut self) -> usize {
        let result = self.library.step(&mut self.buffer);
        self.tell(result)
    }

    /// Receives a packet, and where it is acknowledged makes steps until one writes.
    fn ask(&mut self, packet: &[u8]) {
        let length = self.receive(packet);
        if length == 0 || self.buffer[0] != 0x0F || self.buffer[4] != 1 {
            return;
        }
        for _ in 0..MOST_STEPS {
            if self.step() != 0 {
                return;
            }
        }
    }

    /// Counts a call that tells no more than whether it was refused.
    fn note(&mut self, res: Result<(), CallRefusal>) {
        self.tally.hear(res.map_or_else(u8::from, |()| 0), &[]);
    }

    fn take(&mut self, place: u16) {
        match self.library.take(place) {
            Ok(number) => self.tally.hear(0, &number.to_be_bytes()),
            Err(why) => self.tally.hear(u8::from(why), &[]),
        }
    }

    fn make(&mut self, call: Call) {
        match call {
            Call::Receive(packet) => {
                let _ = self.receive(packet);
            }
            Call::Ask(packet) => self.ask(packet),
            Call::Steps(count) => {
                for _ in 0..count {
                    let _ = self.step();
                }
            }
            Call::Put(place, number) => {
                let result = self.library.put(u16::from(place), number);
                self.note(result);
            }
            Call::Take(place) => self.take(u16::from(place)),
            Call::Service(place, on) => {
                let result = self.library.service(u16::from(place), on);
                self.note(result);
            }
        }
    }

    fn play(&mut self, script: &[u8]) {
        for call in Calls::new(script) {
            self.make(call);
        }
    }
}

/// Makes the calls to a new server over the robot, if that was made.
fn play<R: Robot + Drop>(
    heap: Global,
    made: Result<R, Unmade>,
    slots: usize,
    script: &[u8],
    rounds: u32,
) -> Outcome {
    let Ok(robot) = made else {
        return UNMADE;
    };
    let mut requests = [BLANK_REQUEST; REQUEST_SLOTS];
    let mut messages = [BLANK_MESSAGE; MESSAGE_SLOTS];
    let slots = slots.min(REQUEST_SLOTS);
    let made = Serving::new(heap, robot, &mut requests[0..slots], &mut messages);
    let Ok(library) = made else {
        return UNMADE;
    };
    let mut player = Player {
        library,
        buffer: [0; 2048],
        tally: NO_CALLS,
    };
    for _ in 0..rounds {
        player.play(script);
    }
    Outcome {
        calls: player.tally.calls,
        sum: player.tally.high.rotate_left(32) ^ player.tally.low,
        is_made: true,
    }
}

/// Makes the calls of the script so many times, to a new server over a bay, or over a tag frame.
#[unsafe(no_mangle)]
pub extern "C" fn cartridge_play(
    heap: Global,
    site: &[Spot],
    hand: u32,
    tagged: bool,
    slots: usize,
    script: &[u8],
    rounds: u32,
) -> Outcome {
    let Ok(places) = places_of(heap, site) else {
        return UNMADE;
    };
    if tagged {
        let made = TagFrame::new(heap, &places, hand);
        play(heap, made, slots, script, rounds)
    } else {
        let made = Bay::new(heap, &places, hand);
        play(heap, made, slots, script, rounds)
    }
}
