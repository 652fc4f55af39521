// `shown START SIZE PARENT NUMBERS ROW BYTES`: the shown text of a row, after the read of its table.
use answers::told::{Ending, Told, Value};
use bodies_rules::Range;
use questions::asked::Asked;
use refusals::Refusal;

// The refusal of the read, or `text RANGE HEX`
pub fn shown(read: Result<u64, Refusal>, text: Result<Range, Refusal>) -> Told {
    match (read, text) {
        (Err(refusal), _) => Told::new(Ending::Unread(refusal)),
        (Ok(_), Err(refusal)) => Told::new(Ending::Refused(refusal)),
        (Ok(_), Ok(range)) => Told::new(Ending::Nothing).with(0, Value::RangeBytes(range)),
    }
}

// The text itself.
pub fn shown_bytes<'a>(asked: Asked, recording: &'a [u8], table: &[u64]) -> &'a [u8] {
    shown::shown_text(recording, table, asked.row)
}
