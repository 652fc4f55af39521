// The lent table and its rows: the table is cleared, and its length tested; a row is kept, closed behind its children,
// and taken out again.
#![tactic(auto)]

mod row;
mod table;

pub use row::{MOST_NUMBERS, MOST_ROWS, WIDTH, close_row, keep_row, row_at};
pub use table::{clear, clear_rows, is_allowed};
