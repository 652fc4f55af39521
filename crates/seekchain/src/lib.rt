// Seek tables (document 01, Seek tables and the search): the chain of linked heads, and the part that they lead to.
//
// The crate above that walks over the segment hands the first head to `by_heads`.
#![tactic(auto)]

mod heads;
mod lookup;

pub use heads::linked_heads;
pub use lookup::{by_heads, part_at};
