//! Call refusals in plain words.

use crate::refusal::CallRefusal;
use std::error::Error;
use std::fmt;

impl fmt::Display for CallRefusal {
    fn fmt<W: fmt::Write>(&self, f: &mut fmt::Formatter<W>) -> fmt::Result {
        f.write_str(match *self {
            CallRefusal::ShortBuffer => "the buffer has under 2,048 bytes",
            CallRefusal::NumberInUse => "a request with this number is waiting or at work",
            CallRefusal::NoPlace => "there is no such place",
            CallRefusal::NotPort => "the door is shut, and this is not a port place",
            CallRefusal::EnterAtWork => "the door is shut, and an enter is at work",
            CallRefusal::NoNumber => "no cartridge has this number",
            CallRefusal::PlaceFull => "the place is full",
            CallRefusal::PlaceEmpty => "the place is empty",
        })
    }
}

impl Error for CallRefusal {}
