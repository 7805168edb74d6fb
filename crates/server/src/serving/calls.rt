ghost use Rattle.std.specs.Prelude.{◌≡◌, ◌≤◌, [], length, IfOk};
ghost use Rattle.library.specs.Cores.{library_of};
ghost use Rattle.library.specs.Making.{fresh};
ghost use Rattle.server.specs.Calls.{number_read, receive_call, step_call, used_by};
ghost use Rattle.server.specs.Door.{message_call};
ghost use Rattle.server.specs.Hands.{put_call, service_call, take_call};

use super::Serving;
use crate::hands::{put, switch, take};
use crate::refusal::CallRefusal;
use crate::sending::{send_answer, send_bad_packet, send_final};
use library::cores::Core;
use library::message::Message;
use receipt::receive::receive;
use requests::{BadPacket, Request, read};
use robots::robot::Robot;
use std::alloc::{AllocError, Global};
use steps::step::step;
use stock::catalogue::Catalogue;
use stock::stock::Stock;

/// The room that a response may need.
const RESPONSE_ROOM: usize = 2_048;

/// The request number that could be read in a packet.
fn number_in(read: &Result<Request, BadPacket>) -> Option<u16>
    ensures { result ≡ number_read read.now }
{
    match read {
        Ok(request) => Some(request.number),
        Err(bad) => bad.number,
    }
}

/// Whether the number is one waiting or at work.
fn is_used<R: Robot>(core: &Core<R>, number: Option<u16>) -> bool
    ensures { result ≡ used_by (library_of core.now) number }
{
    // No `is_some_and`: what a closure within a closure answers is lost to the proof.
    match number {
        Some(number) => core.any_request(|q| q.number == number),
        None => false,
    }
}

impl<'a, R: Robot + Drop> Serving<'a, R> {
    /// A new server over the robot: idle, with an empty catalogue and all drives online.
    /// Waiting requests and messages use the slots that are lent. Only this call can want memory.
    pub fn new(
        heap: Global,
        robot: R,
        waiting: &'a mut [Request],
        messages: &'a mut [Message],
    ) -> Result<Serving<'a, R>, AllocError>
        ensures { IfOk result (λ s. s ≡ fresh (record { robot = R.Questions.meaning robot; filed = [] }) (length waiting.old) (length messages.old)) }
    {
        let catalogue = Catalogue::new(heap)?;
        let core = Core::new(Stock::new(robot, catalogue), waiting, messages);
        Ok(Serving { core })
    }
}

impl<'a, R: Robot> Serving<'a, R> {
    /// Receives a packet: writes one response at the front of the buffer, and tells its length.
    pub fn receive(&mut self, packet: &[u8], buffer: &mut [u8]) -> Result<usize, CallRefusal>
        ensures answer { result ≡ (receive_call packet.now buffer.old self.old).answer }
        ensures buffer { buffer.new ≡ (receive_call packet.now buffer.old self.old).buffer }
        ensures library { self.new ≡ (receive_call packet.now buffer.old self.old).library }
        ensures bound { IfOk result (λ n. n ≤ 2048) }
    {
        if buffer.len() < RESPONSE_ROOM {
            return Err(CallRefusal::ShortBuffer);
        }
        let request = read(packet);
        if is_used(&self.core, number_in(&request)) {
            return Err(CallRefusal::NumberInUse);
        }
        match request {
            Err(bad) => Ok(send_bad_packet(bad, buffer).length),
            Ok(request) => {
                let answer = receive(&mut self.core, request);
                Ok(send_answer(&self.core, &answer, buffer).length)
            }
        }
    }

    /// Goes one step on: writes the final that it ends a request with, and tells its length, or 0 where it writes nothing.
    pub fn step(&mut self, buffer: &mut [u8]) -> Result<usize, CallRefusal>
        ensures answer { result ≡ (step_call buffer.old self.old).answer }
        ensures buffer { buffer.new ≡ (step_call buffer.old self.old).buffer }
        ensures library { self.new ≡ (step_call buffer.old self.old).library }
        ensures bound { IfOk result (λ n. n ≤ 2048) }
    {
        if buffer.len() < RESPONSE_ROOM {
            return Err(CallRefusal::ShortBuffer);
        }
        // No response is empty, so 0 says that nothing was written.
        match step(&mut self.core) {
            None => Ok(0),
            Some(ended) => Ok(send_final(&self.core, &ended, buffer).length),
        }
    }

    /// Takes the oldest message to the operator, if there is one, and tells how many were dropped.
    pub(crate) fn message(&mut self) -> (Option<Message>, u16)
        ensures message { result.0 ≡ (message_call self.old).message }
        ensures dropped { result.1 ≡ (message_call self.old).dropped }
        ensures library { self.new ≡ (message_call self.old).library }
    {
        let message = self.core.messages.pop();
        (message, self.core.dropped)
    }

    /// A person puts a cartridge into a port place.
    pub fn put(&mut self, place: u16, number: u32) -> Result<(), CallRefusal>
        ensures answer { result ≡ (put_call self.old place number).answer }
        ensures library { self.new ≡ (put_call self.old place number).library }
    {
        put(&mut self.core, place, number)
    }

    /// A person takes the cartridge out of a port place, and its number is told.
    pub fn take(&mut self, place: u16) -> Result<u32, CallRefusal>
        ensures answer { result ≡ (take_call self.old place).answer }
        ensures library { self.new ≡ (take_call self.old place).library }
    {
        take(&mut self.core, place)
    }

    /// Puts a place into service, or out of it.
    pub fn service(&mut self, place: u16, on: bool) -> Result<(), CallRefusal>
        ensures answer { result ≡ (service_call self.old place on).answer }
        ensures library { self.new ≡ (service_call self.old place on).library }
    {
        switch(&mut self.core, place, on)
    }
}
