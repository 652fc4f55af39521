// What the chain of linked seek heads is (document 01, Seek tables and the search): which heads are read, and what
// their entries lead to.
#![tactic(auto)]

mod heads;

pub use heads::HeadsRead;
