// The fields of a record: what the direct children of a master hold (document 01, Records).
//
// For the crates above, which answer from rows that were read: each field is taken from the last direct child of its id
// and kind.
#![tactic(auto)]

mod field;

pub use field::{Fields, range_of, uint_in};
