// The lent table as a whole: filled with zeros, and whether its length and the recording's are allowed.
ghost use Rattle.std.specs.Prelude.{◌≡◌, length};
ghost use Rattle.elements_rules.specs.Promise.{is_table, allowed, zeros};
ghost use Rattle.elements_rules.specs.Contract.{ClearFrom};

use crate::row::{MOST_NUMBERS, WIDTH};
use header::is_place;

// Fills the table with zeros.
pub fn clear(table: &mut [u64])
    ensures { table.new ≡ zeros (length table.old) }
{
    table.fill(0);
}

// Fills a table with zeros that has nothing else behind so many rows: only these are gone over.
pub fn clear_rows(table: &mut [u64], rows: u64)
    requires { ClearFrom rows table.old }
    ensures { table.new ≡ zeros (length table.old) }
{
    if rows < (table.len() / WIDTH) as u64 {
        table[..rows as usize * WIDTH].fill(0);
    } else {
        clear(table);
    }
}

// Whether a table has whole rows, and not too many.
fn is_table(table: &[u64]) -> bool
    ensures { result ≡ is_table (length table.now) }
{
    table.len() % WIDTH == 0 && table.len() <= MOST_NUMBERS
}

// Whether the lengths are within their limits and the start is not past the end; else 14.
pub fn is_allowed(recording: &[u8], start: u64, table: &[u64]) -> bool
    ensures { result ≡ allowed recording.now start (length table.now) }
{
    is_place(recording, start) && is_table(table)
}
