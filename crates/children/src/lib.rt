// The rows below a master, and its direct children (document 01, Records): the last one of an id and kind, the k-th,
// and how many there are.
#![tactic(auto)]

mod child;

pub use child::{Children, count_children, is_child, last_child, nth_child, rows_below};
