// Whose byte is this? (document 02, C-16): the element that holds an address, found by headers alone.
//
// The public calls are `owner`, and `owner_chain`, which also tells the masters around that element.
#![tactic(auto)]

mod chain;
mod owned;

pub use owned::{owner, owner_chain};
