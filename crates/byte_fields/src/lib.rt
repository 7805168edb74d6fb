//! What request and response packets have in common: a map byte that says which fields are
//! there, fields of one, two and six bytes taken off the front of a packet, and the same fields
//! put into a buffer.

#![tactic(auto)]

mod fields;
mod putting;
mod taking;

pub use fields::Field;
pub use putting::Writer;
pub use taking::{has, take};
