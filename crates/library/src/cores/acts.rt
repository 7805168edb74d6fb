ghost use Rattle.library.specs.Changes.{with_drives, with_requests};
ghost use Rattle.library.specs.Cores.{library_of, work_of};
ghost use Rattle.library.specs.Drives.{drive_told, named};
ghost use Rattle.library.specs.Making.{fresh};
ghost use Rattle.library.specs.Marks.{work_meets};
ghost use Rattle.library.specs.Posting.{with_posted};
ghost use Rattle.requests.specs.declared.bodies.Request.{Request};
ghost use Rattle.ring.specs.Order.{any_of};
ghost use Rattle.ring.specs.Queue.{Answers, records};
ghost use Rattle.std.specs.Prelude.{◌≡◌, Bool, ◌||◌, length};

use super::Core;
use crate::drive::{DriveEvent, DriveState};
use crate::marks::names_drive;
use crate::message::{Message, Notice};
use crate::slots::{MESSAGE_SLOTS, REQUEST_SLOTS};
use crate::state::State;
use requests::Request;
use ring::Ring;
use robots::robot::Robot;
use stock::stock::Stock;

impl<'a, R: Robot> Core<'a, R> {
    /// A new library: idle, with all drives online.
    pub fn new(
        stock: Stock<R>,
        waiting: &'a mut [Request],
        messages: &'a mut [Message],
    ) -> Core<'a, R>
        ensures { library_of result ≡ fresh stock (length waiting.old) (length messages.old) }
    {
        let waiting = Ring::new(waiting, REQUEST_SLOTS);
        let messages = Ring::new(messages, MESSAGE_SLOTS);
        Core {
            stock,
            waiting,
            messages,
            state: State::Idle,
            dropped: 0,
            drives: [DriveState::Online; 256],
            work: None,
        }
    }

    /// Posts a message to the operator, if there is one; where the queue is full it is dropped and counted.
    pub fn post(&mut self, notice: Option<Notice>, number: u16)
        ensures { library_of self.new ≡ with_posted notice number (library_of self.old) }
    {
        let Some(notice) = notice else {
            return;
        };
        let message = Message {
            kind: u8::from(notice),
            number,
        };
        if self.messages.push(message).is_err() {
            self.dropped = self.dropped.saturating_add(1);
        }
    }

    /// Whether a waiting mount or dismount names the drive.
    pub fn is_named(&self, drive: u8) -> bool
        ensures { result ≡ named drive (records self.now.waiting) }
    {
        self.waiting.any(|q| names_drive(drive, q.body))
    }

    /// Tells a drive what happens to it.
    pub fn turn_drive(&mut self, drive: u8, event: DriveEvent)
        ensures { library_of self.new ≡ with_drives (drive_told self.old.drives drive event) (library_of self.old) }
    {
        self.drives[usize::from(drive)].turn(event);
    }

    /// Whether some request, waiting or at work, meets the condition.
    pub fn any_request<F: Fn(Request) -> bool>(&self, is_met: F) -> bool
        requires { F.IsAlwaysCallable is_met }
        ensures { (p : Request → Bool) → Answers (F.post is_met) p → result ≡ (work_meets p (work_of self.now.work) || any_of p (records self.now.waiting)) }
    {
        if let Some(work) = &self.work {
            if is_met(work.request) {
                return true;
            }
        }
        self.waiting.any(&is_met)
    }

    /// Changes each request, waiting or at work.
    pub fn change_requests<F: Fn(Request) -> Request>(&mut self, change: F)
        requires { F.IsAlwaysCallable change }
        ensures { (f : Request → Request) → Answers (F.post change) f → library_of self.new ≡ with_requests f (library_of self.old) }
    {
        self.waiting.each(&change);
        if let Some(work) = &mut self.work {
            work.request = change(work.request);
        }
    }
}
