//! A script of calls, made to a server over a given site: for measuring, and for comparing with another
//! server. Only `compare/` links it, so its contracts say no more than that it is safe and ends.

#![tactic(auto)]

mod playing;
mod script;
mod site;
mod tally;

pub use playing::{Outcome, cartridge_play};
pub use site::Spot;
