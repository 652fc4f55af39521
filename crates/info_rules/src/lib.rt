// What the record of Info is (document 02, C-14; the crate's `Info`): its fields, and its families.
#![tactic(auto)]

mod info;

pub use info::Info;
