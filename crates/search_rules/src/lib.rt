// What the search for a part finds (document 01, Seek tables and the search): the promise of `find_part`, its theorems,
// and document 01's worked segments.
#![tactic(auto)]

mod part;

pub use part::Part;
