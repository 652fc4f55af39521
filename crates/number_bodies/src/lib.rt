// The bodies that are a number (document 01, Bodies; RFC 8794, section 7): integers, dates and floats.
//
// For the crates above, which read a body by its kind, or the float or date of a row.
#![tactic(auto)]

mod float;
mod integer;

pub use float::{float_of_4, float_of_8, read_float};
pub use integer::{read_date, read_int, read_uint, signed};
