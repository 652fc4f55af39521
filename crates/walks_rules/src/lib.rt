// How a walk over a recording goes (document 01, Seek tables and the search; document 02, C-18): the step to an
// element, where an element of unknown size ends, and the place behind an element.
#![tactic(auto)]

mod step;

pub use step::Stretch;
