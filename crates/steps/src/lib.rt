//! What one step makes of the request at work, or of the oldest that waits.

#![tactic(auto)]

pub mod finish;
pub mod marked;
pub mod step;
pub mod turns;
