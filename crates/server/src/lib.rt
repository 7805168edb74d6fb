//! The request server: the calls of a library whose door is shut.

#![tactic(auto)]

mod hands;
pub mod refusal;
mod sending;
pub mod serving;
pub mod words;
