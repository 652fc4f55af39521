// The kind decision: the kind of an element by its id and its parent's (document 01, Kinds; document 02, C-17).
#![tactic(auto)]

mod listed;
mod under;

pub use under::kind_of;
