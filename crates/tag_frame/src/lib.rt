//! The tag frame: a robot of up to 256 places that keeps a list of cartridges, each with its place.

#![tactic(auto)]

pub mod frame;
mod site;
mod table;
mod tag;
