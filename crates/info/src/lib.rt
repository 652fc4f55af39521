// The record of Info (document 02, C-14): what there is to know of the recording as a whole.
//
// A record question takes the place of an Info's payload, reads it into a lent table and builds the record. The
// builders are for the crates above, which ask many records of one read.
#![tactic(auto)]

mod family;
mod info;

pub use family::{family_at, family_in};
pub use info::{info_at, info_in};
