// One seek head (document 01, Seek tables and the search): its entries, and the positions of the wanted ids by them.
//
// The crate above follows the chain of heads and hands each to `head_body`.
#![tactic(auto)]

mod head;
mod level;
mod seek;
mod skim;

pub use head::head_body;
