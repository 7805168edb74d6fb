//! The records of a library: its state, its drives, its queues, and the request at work.

#![tactic(auto)]

pub mod cores;
pub mod drive;
pub mod entries;
pub mod marks;
pub mod message;
pub mod slots;
pub mod state;
pub mod turn;
pub mod verdict;
