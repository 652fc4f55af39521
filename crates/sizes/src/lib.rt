// Unknown sizes (document 02, C-18): a header whose size is all ones in its own width.
#![tactic(auto)]

mod unknown;

pub use unknown::is_unknown;
