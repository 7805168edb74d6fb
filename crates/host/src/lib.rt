//! What hosts call: a check of a packet's bytes, and the writer of request packets, on numbers and
//! bytes. The crate `host_c` exports both for C.

#![tactic(auto)]

mod checking;
mod examples;
mod writing;

pub use checking::{Checked, cartridge_check_packet};
pub use examples::worked_examples;
pub use writing::{Written, cartridge_write_request};
