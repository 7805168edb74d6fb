//! Robots by what they mean.
//!
//! A robot is known above by one record, its meaning: the kind of each place, what each place and the hand
//! hold, and which places are in service. Everything here is proved for every robot that keeps that meaning.

#![tactic(auto)]

pub mod act;
pub mod equal;
pub mod fault;
pub mod keeper;
pub mod kind;
pub mod ladders;
pub mod making;
pub mod place;
pub mod robot;
pub mod words;
