// A walk over a recording (document 01, Seek tables and the search; document 02, C-18): `child_at`, the one step of
// every walk, by which a sought address is read too, and `pass_over`, the place behind an element, by its size or,
// where that is unknown, by its ending.
#![tactic(auto)]

mod ends;
mod pass;
mod step;

pub use pass::pass_over;
pub use step::child_at;
