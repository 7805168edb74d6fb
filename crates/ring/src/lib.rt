//! A first-in-first-out queue for records of any kind, in slots that its host lends.
//!
//! It is proved for any number of slots and any limit on how many of them it uses.

#![tactic(auto, using(crate::proofs::Slots::length_records))]

mod queue;

pub use queue::Ring;
