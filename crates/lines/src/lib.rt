// What the programs share: standard input, and output that is gathered.
#![tactic(auto)]

pub mod input;
pub mod out;
