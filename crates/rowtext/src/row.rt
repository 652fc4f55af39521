// The lines of rows, behind what the page holds already.
ghost use Rattle.std.specs.Prelude.{◌++◌, ◌+◌, ◌*◌, ◌/◌, ◌≤◌, length};
ghost use Rattle.elements_rules.specs.Rows.{width, rows_of};
ghost use Rattle.pages.specs.Page.{Grew, room};
ghost use Rattle.pages.specs.Text.{ascii};
ghost use Rattle.rowtext.specs.Lines.{kind_word, row_place, row_line, row_lines};
ghost use Rattle.rowtext.specs.Cuts.{Cuts};
ghost use Rattle.rowtext.specs.Room.{line_room};

use elements_rules::Row;
use pages::Page;
use rowstore::row_at;

// Where a word begins and ends.
#[derive(Clone, Copy)]
pub struct Cut {
    pub from: usize,
    pub end: usize,
}

// Where the word for a kind's number, and the space before it, stand among the words of `put_kind`.
fn cut_of(kind: u64) -> Cut
    ensures { Cuts kind result }
{
    match kind {
        1 => Cut { from: 0, end: 7 },
        2 => Cut { from: 7, end: 11 },
        3 => Cut { from: 11, end: 16 },
        4 => Cut { from: 16, end: 23 },
        5 => Cut { from: 23, end: 28 },
        6 => Cut { from: 28, end: 35 },
        7 => Cut { from: 35, end: 41 },
        8 => Cut { from: 41, end: 46 },
        _ => Cut { from: 0, end: 1 },
    }
}

// A space, and the word for a kind's number.
fn put_kind(page: &mut Page, kind: u64)
    requires { page.old.held + 7 ≤ room page.old }
    ensures wrote { Grew page.old (ascii " " ++ kind_word kind) page.new }
    ensures upper_bound { page.new.held ≤ page.old.held + 7 }
{
    let words: &[u8] = b" master int uint string utf8 binary float date";
    let word = cut_of(kind);
    let from = word.from;
    let end = word.end;
    page.put(&words[from..end]);
}

// Where a row is: header address, header length, payload length, depth.
fn row_place(page: &mut Page, row: Row)
    requires { page.old.held + 83 ≤ room page.old }
    ensures wrote { Grew page.old (row_place row) page.new }
    ensures upper_bound { page.new.held ≤ page.old.held + 83 }
{
    page.put_decimal(b"", row.address);
    page.put_decimal(b" ", row.header);
    page.put_decimal(b" ", row.payload);
    page.put_decimal(b" ", row.depth);
}

// A row: where it is, its kind and its id.
fn row_line(page: &mut Page, row: Row)
    requires { page.old.held + line_room ≤ room page.old }
    ensures wrote { Grew page.old (row_line row) page.new }
    ensures upper_bound { page.new.held ≤ page.old.held + line_room }
{
    row_place(page, row);
    put_kind(page, row.kind);
    page.put_hexadecimal(b" ", row.id);
    page.put(b"\n");
}

// The lines of the table's first rows.
pub fn row_lines(page: &mut Page, table: &[u64], rows: usize)
    requires rows_in_bounds { rows ≤ length table.now / width }
    requires line_room_in_bounds { page.old.held + rows * line_room ≤ room page.old }
    ensures wrote { Grew page.old (row_lines (rows_of table.now rows)) page.new }
    ensures upper_bound { page.new.held ≤ page.old.held + rows * line_room }
{
    for n in 0..rows {
        row_line(page, row_at(table, n));
    }
}
