// How an answer of the program `ask` is told, by value, and printed in one place.
#![tactic(auto)]

pub mod answer;
pub mod open;
mod rows;
pub mod told;
