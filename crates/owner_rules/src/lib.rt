// The address question without a table (document 02, C-16): what the element that holds an address is, and the chain of
// masters that leads to it.
#![tactic(auto)]

mod owner;

pub use owner::Owner;
