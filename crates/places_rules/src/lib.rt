// Places of a recording by the rows of a table (document 01, Element table): what a row's payload is, and which row
// holds an address.
#![tactic(auto)]

mod whose;

pub use whose::{Holder, WhoseRow};
