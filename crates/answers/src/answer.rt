// An answer as text, behind what the output holds already.
use crate::rows;
use crate::told::{Ending, Told, Value};
use bodies_rules::Range;
use fields_rules::{Language, TagValue};
use lines::out::Out;
use refusals::{Cause, Refusal};

// The answer to a line that is no question.
pub fn bad(out: &mut Out) {
    out.put(b"bad question");
}

// What is told. `entry` is the question's line in the list of questions: its name, its form, and the words of its
// answer. `bytes` is what the call returned, where it returned bytes.
pub fn put_told(told: Told, entry: &[u8], bytes: &[u8], table: &[u64], out: &mut Out) {
    for (before, cell) in told.cells().iter().enumerate() {
        put_gap(before, out);
        // The words of the answer stand behind the question's name and its form.
        out.put(words::word(entry, cell.word.saturating_add(2) as usize));
        put_value(cell.value, bytes, out);
    }
    put_ending(told.cells().len(), told.ending(), table, out);
}

// A space behind the cells before.
fn put_gap(before: usize, out: &mut Out) {
    if before != 0 {
        out.put(b" ");
    }
}

// A value behind its word.
fn put_value(value: Value, bytes: &[u8], out: &mut Out) {
    match value {
        Value::Nothing => {}
        Value::Unset => out.put(b" unset"),
        Value::Flag(false) => out.put(b" no"),
        Value::Flag(true) => out.put(b" yes"),
        Value::Count(count) => out.print(format_args!(" {count}")),
        Value::Integer(number) => out.print(format_args!(" {number}")),
        Value::Float(number) => put_float(number, out),
        Value::Id(id) => out.print(format_args!(" {id:X}")),
        Value::Range(range) => put_range("", range, out),
        Value::Language(Language::Iso(range)) => put_range(" iso", range, out),
        Value::Language(Language::Ietf(range)) => put_range(" ietf", range, out),
        Value::Tag(TagValue::Text(range)) => put_range(" text", range, out),
        Value::Tag(TagValue::Binary(range)) => put_range(" binary", range, out),
        Value::Bytes => out.put_bytes(b" ", bytes),
        Value::RangeBytes(range) => {
            put_range("", range, out);
            out.put_bytes(b" ", bytes);
        }
    }
}

// The 16 hexadecimal digits of a float's pattern, or `nan`.
fn put_float(number: f64, out: &mut Out) {
    if number.is_nan() {
        out.put(b" nan");
    } else {
        out.print(format_args!(" {:016X}", number.to_bits()));
    }
}

// ` ADDRESS+LENGTH` behind what the range is of.
fn put_range(of: &str, range: Range, out: &mut Out) {
    out.print(format_args!("{of} {}+{}", range.at, range.length));
}

// What follows the cells, of which there are `before`.
fn put_ending(before: usize, ending: Ending, table: &[u64], out: &mut Out) {
    match ending {
        Ending::Nothing => {}
        Ending::Rows(rows) => {
            put_gap(before, out);
            out.put(b"rows");
            rows::put_rows(rows, true, table, out);
        }
        Ending::Rest(rows) => {
            put_gap(before, out);
            out.put(b"rows");
            rows::put_rows(rows, false, table, out);
        }
        Ending::Refused(refusal) => put_refused(refusal, out),
        Ending::Unread(refusal) => {
            put_refused(refusal, out);
            rows::put_clear(b" table ", rows::is_clear(table), out);
        }
    }
}

// `refused N at A`, and for 8 the id behind the number.
pub fn put_refused(refusal: Refusal, out: &mut Out) {
    out.print(format_args!("refused {}", refusal.cause.number()));
    if let Cause::InvalidSeekHead(id) = refusal.cause {
        out.print(format_args!(" {id:X}"));
    }
    out.print(format_args!(" at {}", refusal.address));
}
