//! A robot and the catalogue of what its cells and drives hold, and what a request does to the two.

#![tactic(auto)]

pub mod catalogue;
pub mod refusal;
pub mod stock;
