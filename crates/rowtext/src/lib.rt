// Rows as text (document 01, 'Program `rows`'): a line for each.
//
// `row_lines` is for the crate above: it asks for room in the page.
#![tactic(auto)]

mod row;

pub use row::row_lines;
