//! Why a robot was not made, in plain words.

use crate::making::Unmade;
use std::error::Error;
use std::fmt;

impl fmt::Display for Unmade {
    fn fmt<W: fmt::Write>(&self, f: &mut fmt::Formatter<W>) -> fmt::Result {
        f.write_str(match *self {
            Unmade::TooManyPlaces => "there are more than 256 places",
            Unmade::BadNumber => "a place or the hand holds what is no cartridge's number",
            Unmade::NoMemory => "there is not memory enough",
        })
    }
}

impl Error for Unmade {}
