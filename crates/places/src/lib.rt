// The address question (document 01, Element table): the row that holds an address of the recording.
//
// The public call is `whose_byte`.
#![tactic(auto)]

mod whose;

pub use whose::{is_within, whose_byte};
