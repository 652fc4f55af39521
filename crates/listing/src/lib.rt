// The listing of a recording (document 01, 'Program `rows`'): its four parts and their rows, as text in a lent page.
//
// `listing` is the public call.
#![tactic(auto)]

mod listed;

pub use listed::{PAGE, listing};
