// The search for a part of a recording (document 01, Seek tables and the search): the walk to it, and its rows.
//
// `find_part` is the public call.
#![tactic(auto)]

mod part;

pub use part::find_part;
