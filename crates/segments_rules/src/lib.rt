// What the way to the segment is, and the walk over its children (document 01, Seek tables and the search).
#![tactic(auto)]

mod walk;

pub use walk::{Aim, Met};
