//! The memory that a host lends for the two queues.

use crate::message::Message;
use requests::{Body, Mark, Request};

/// How many slots the waiting requests use at most.
pub const REQUEST_SLOTS: usize = 64;

/// How many slots the messages use at most.
pub const MESSAGE_SLOTS: usize = 32;

/// What a request slot may hold before it is used.
pub const BLANK_REQUEST: Request = Request {
    number: 0,
    mark: Mark::Unmarked,
    body: Body::Start,
};

/// What a message slot may hold before it is used.
pub const BLANK_MESSAGE: Message = Message { kind: 0, number: 0 };
