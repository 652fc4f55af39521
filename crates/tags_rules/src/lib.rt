// What the records of Tags are (document 01, Records): tags, what they apply to, and their simple tags.
#![tactic(auto)]

mod simple;
mod tag;
mod uid;

pub use simple::SimpleTag;
pub use tag::{Tag, Target};
pub use uid::UidList;
