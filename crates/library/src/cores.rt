use crate::drive::DriveState;
use crate::message::Message;
use crate::state::State;
use crate::turn::Progress;
use requests::Request;
use ring::Ring;
use robots::robot::Robot;
use stock::stock::Stock;

pub mod acts;

/// The request at work, and how far it has come.
#[derive(Clone, Copy)]
pub struct Work {
    pub request: Request,
    pub progress: Progress,
}

/// All that a library has, whether its door is open or shut.
// No model: other crates read and write its fields.
#[derive(Drop)]
pub struct Core<'a, R: Robot> {
    pub stock: Stock<R>,
    pub waiting: Ring<'a, Request>,
    pub messages: Ring<'a, Message>,
    pub state: State,
    /// How many messages were dropped, up to 65,535.
    pub dropped: u16,
    pub drives: [DriveState; 256],
    pub work: Option<Work>,
}
