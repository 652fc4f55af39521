// The kinds of elements: their names and numbers, and the ids by name (document 01, Kinds).
#![tactic(auto)]

pub mod ids;
mod kind;

pub use kind::{Kind, MASTER};
