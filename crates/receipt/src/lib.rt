//! What a received request is answered: an acknowledge where it is queued, else a final.

#![tactic(auto)]

pub mod checks;
pub mod receive;
pub mod refusal;
