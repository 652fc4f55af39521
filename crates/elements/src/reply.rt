// The public call: the elements of a payload, as rows of a lent table.
ghost use Rattle.std.specs.Prelude.{◌≡◌, true, length};
ghost use Rattle.elements_rules.specs.Promise.{ReadPromise, allowed, zeros};
ghost use Rattle.elements_rules.specs.Contract.{ClearFrom};

use crate::element::master_body;
use elements_rules::{Above, Mode};
use header::Cursor;
use refusals::{Cause, Refusal};
use rowstore::{clear, clear_rows, is_allowed};

// The reading into a cleared table, in live mode or in old mode, with arguments that are allowed.
pub fn fill(
    recording: &[u8],
    live: bool,
    start: u64,
    size: u64,
    parent: u32,
    table: &mut [u64],
) -> Result<u64, Refusal>
    requires table_value { allowed recording.now start (length table.old) ≡ true }
    requires table_value_2 { table.old ≡ zeros (length table.old) }
    ensures { ReadPromise live recording.now start size parent
        table.old result table.new }
{
    let mode = Mode { keep: true, live };
    let from = Cursor { at: start };
    let above = Above {
        id: parent,
        row: 0,
        depth: 0,
    };
    // A `match`, since a refusal clears the table.
    match master_body(recording, table, mode, from, size, 0, above) {
        Err(refusal) => {
            clear(table);
            Err(refusal)
        }
        Ok((rows, _)) => Ok(rows as u64),
    }
}

// The elements of the payload of `size` bytes from `start` on, under a parent id, into the table; in live mode, which
// knows unknown sizes, or in old mode. A refusal fills the table with zeros. 14: a length is broken, or the start is
// past the end.
pub fn read(
    recording: &[u8],
    live: bool,
    start: u64,
    size: u64,
    parent: u32,
    table: &mut [u64],
) -> Result<u64, Refusal>
    ensures { ReadPromise live recording.now start size parent
        table.old result table.new }
{
    let rows = table.len() as u64;
    read_again(recording, live, start, size, parent, rows, table)
}

// The same into a table that has zeros alone behind so many rows, as one that was read into has. So a small payload is
// not paid for by the length of the table.
pub fn read_again(
    recording: &[u8],
    live: bool,
    start: u64,
    size: u64,
    parent: u32,
    rows: u64,
    table: &mut [u64],
) -> Result<u64, Refusal>
    requires { ClearFrom rows table.old }
    ensures { ReadPromise live recording.now start size parent
        table.old result table.new }
{
    clear_rows(table, rows);
    if !is_allowed(recording, start, table) {
        return Err(Cause::BadArgument.at(0));
    }
    fill(recording, live, start, size, parent, table)
}
