// What the fields of a record are (document 01, Records): the rows below a master, its direct children, and what they
// hold.
#![tactic(auto)]

mod child;
mod field;

pub use child::Below;
pub use field::{Language, TagValue};
