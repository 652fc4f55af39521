// What one seek head is (document 01, Seek tables and the search): its entries, and the positions that they give.
#![tactic(auto)]

mod head;
mod seek;

pub use head::{Entries, Positions, Seektable, Wanted};
pub use seek::Seek;
