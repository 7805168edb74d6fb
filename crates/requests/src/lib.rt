//! Request packets: what a request is, how a packet is read as one, why a packet is refused, and
//! how a packet is written.

#![tactic(auto)]

mod bodies;
mod checking;
mod commands;
mod examples;
mod inspecting;
mod reading;
mod refusals;
mod standing;
mod taking;
mod values;
mod writing;

pub use bodies::{Body, DriveSetting, Mark, Request, UnknownSetting};
pub use checking::check_fields;
pub use commands::{Bits, Command, UnknownCommand};
pub use examples::worked_packets;
pub use inspecting::{Outline, inspect};
pub use reading::read;
pub use refusals::{BadPacket, Cause};
pub use taking::{Ending, Fields, Taken, take_fields};
pub use values::{Values, fields_of};
pub use writing::{Unwritable, write};
