// What every question for a record shares (document 01, Records): the payload of a part is read into a lent table, and
// one step is taken for each level, to the master that holds the record.
//
// `find` goes that way in a table that is filled already: a crate above asks many records of one read.
#![tactic(auto)]

mod steps;

pub use steps::{find, locate, no_record};
