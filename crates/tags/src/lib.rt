// The records of Tags (document 01, Records): tags, what they apply to, and their simple tags.
//
// A record question takes the place of a part's payload, reads it into a lent table and builds the record asked for.
// The builders are for the crates above, which ask many records of one read.
#![tactic(auto)]

mod simple;
mod tag;
mod uid;

pub use simple::{simple_tag_at, simple_tag_in};
pub use tag::{tag_at, tag_in, target_in, targets_in};
pub use uid::{uid_at, uid_in};
