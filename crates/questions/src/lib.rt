// What the questions of the program `ask` share: a question's line in their list, what a line asks, and its table.
#![tactic(auto)]

pub mod asked;
pub mod list;
pub mod open;
pub mod table;
