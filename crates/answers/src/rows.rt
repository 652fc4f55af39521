// The rows of a table as an answer tells them, and whether what is left of it is zero.
ghost use Rattle.std.specs.Prelude.{◌≡◌, ◌*◌, ◌≤◌, ◌↔◌, length, IsTrue, EachIndex, slice_index};
ghost use Rattle.elements_rules.specs.Rows.{width};

use lines::out::Out;
use rowstore::WIDTH;

// ` N`, each row that lies in the table, where they are told, and whether a number beyond them is not 0.
pub fn put_rows(rows: u64, told: bool, table: &[u64], out: &mut Out) {
    let within = rows_within(rows, table);
    out.print(format_args!(" {rows}"));
    if told {
        for row in table.chunks_exact(WIDTH).take(within) {
            put_row(row, out);
        }
    }
    put_clear(b" rest ", is_clear(&table[WIDTH * within..]), out);
}

// How many of the rows lie in the table.
fn rows_within(rows: u64, table: &[u64]) -> usize
    ensures { width * result ≤ length table.now }
{
    let room = table.len() / WIDTH;
    rows.min(room as u64) as usize
}

// ` / id parent address header payload kind depth after`, the id in hexadecimal digits.
fn put_row(row: &[u64], out: &mut Out) {
    if let Some((id, numbers)) = row.split_first() {
        out.print(format_args!(" / {id:X}"));
        for number in numbers {
            out.print(format_args!(" {number}"));
        }
    }
}

// `0` where it is clear, else `dirty`.
pub fn put_clear(label: &[u8], clear: bool, out: &mut Out) {
    out.put(label);
    out.put(if clear { b"0" } else { b"dirty" });
}

// Whether every number is 0.
pub fn is_clear(numbers: &[u64]) -> bool
    ensures { IsTrue result ↔ EachIndex numbers.now (λ k. slice_index numbers.now k ≡ 0) }
{
    numbers.iter().all(|number| *number == 0)
}
