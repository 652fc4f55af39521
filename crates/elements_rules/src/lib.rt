// What elements are as rows of a table (document 01, Element table; document 02, C-15): the types, the definitions, the
// theorems (the table loses nothing, when a read is accepted, what a row's `after` means), and document 01's table of
// cases.
#![tactic(auto)]

mod element;
mod row;

pub use element::Above;
pub use row::{Mode, Row};
