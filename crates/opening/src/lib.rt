// The turns of `open` (document 02, C-14): which part it reads next, by the walk over the segment's children and by the
// seek heads. No table is touched here.
#![tactic(auto)]

mod start;
mod turns;

pub use start::begin;
pub use turns::turn;
