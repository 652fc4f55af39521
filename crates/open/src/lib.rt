// The whole recording at once (document 02, C-14): all five parts, each read into a lent table of its own.
//
// `open` is the public call.
#![tactic(auto)]

mod lent;
mod opened;

pub use opened::open;
