// The rows of a lent table: kept, closed behind their children, and taken out.
ghost use Rattle.std.specs.Prelude.{◌≡◌, true, not, [], ◌∷◌, ◌+◌, ◌*◌, ◌/◌, ◌<◌, length};
ghost use Rattle.std.proofs.lemmas.List.Edits.{sets};
ghost use Rattle.elements_rules.specs.Reading.{full};
ghost use Rattle.elements_rules.specs.Rows.{width, flat, row_at};
ghost use Rattle.elements_rules.specs.Contract.{written, closed, Room};

use elements_rules::{Mode, Row};

// How many numbers a row has.
pub const WIDTH: usize = 8;

// Which of a row's numbers is `after`, counted from 0.
const AFTER: usize = 7;

// The most rows of a table.
pub const MOST_ROWS: usize = 4096;

// The most numbers of a table.
pub const MOST_NUMBERS: usize = MOST_ROWS * WIDTH;

// The eight numbers of a row by name, in the order in which C reads them (include/uzrafmed.h).
fn put_row(table: &mut [u64], n: usize, row: Row)
    requires { n < length table.old / width }
    ensures { table.new ≡ sets table.old (n * width) (flat row) }
{
    let first = n * WIDTH;
    table[first] = row.id;
    table[first + 1] = row.parent;
    table[first + 2] = row.address;
    table[first + 3] = row.header;
    table[first + 4] = row.payload;
    table[first + 5] = row.kind;
    table[first + 6] = row.depth;
    table[first + AFTER] = row.after;
}

// Keeps a row as row n where rows are kept. Answers false where none is free.
pub fn keep_row(table: &mut [u64], mode: Mode, n: usize, row: Row) -> bool
    ensures value { result ≡ not (full mode (length table.old / width) n) }
    ensures table_after { result ≡ true → table.new ≡ written mode table.old n (row ∷ []) }
{
    if mode.keep {
        if n >= table.len() / WIDTH {
            return false;
        }
        put_row(table, n, row);
    }
    true
}

// Sets row n's `after` where rows are kept: a master's is known once its children are read.
pub fn close_row(table: &mut [u64], mode: Mode, n: usize, after: usize)
    requires { Room mode table.old (n + 1) }
    ensures { table.new ≡ closed mode table.old n after }
{
    if mode.keep {
        let last = n * WIDTH + AFTER;
        table[last] = after as u64;
    }
}

// Row n of a table.
pub fn row_at(table: &[u64], n: usize) -> Row
    requires { n < length table.now / width }
    ensures { result ≡ row_at table.now n }
{
    let first = n * WIDTH;
    Row {
        id: table[first],
        parent: table[first + 1],
        address: table[first + 2],
        header: table[first + 3],
        payload: table[first + 4],
        kind: table[first + 5],
        depth: table[first + 6],
        after: table[first + AFTER],
    }
}
