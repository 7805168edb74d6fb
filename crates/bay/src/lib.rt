//! The bay: a robot of up to 256 places that keeps what each place holds.

#![tactic(auto)]

pub mod bay;
