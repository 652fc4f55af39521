// What every question for a record shares (document 01, Records): the way from a payload to the k-th record, the order
// of refusals, and one promise for all.
#![tactic(auto)]

mod steps;

pub use steps::{Step, Way};
