//! Movements of a cartridge, over any robot: the searches for a place, the slip that is held for a cartridge in
//! the hand, and a lift with the set or the way back that ends it.

#![tactic(auto)]

pub mod movement;
pub mod search;
mod slip;
