// The shown text of a row: its payload up to the first zero byte, as a range and as the very part of the recording. The
// table is only read.
ghost use Rattle.std.specs.Prelude.{◌≡◌};
ghost use Rattle.shown_rules.specs.Shown.{is_text};
ghost use Rattle.shown_rules.specs.Promise.{TextPromise, ShownPromise};

use crate::part::shown_part;
use bodies_rules::Range;
use payloads::{payload_range, row_payload};
use refusals::{Cause, Refusal};
use rowstore::row_at;

// The numbers of the two kinds of text.
const STRING: u64 = 4;

const UTF8: u64 = 5;

// Whether a row of this kind is a text row, of either kind of text.
fn is_text(kind: u64) -> bool
    ensures { result ≡ is_text kind }
{
    kind == STRING || kind == UTF8
}

// The range of a text row's shown text. 14: as `payload_range` has it, or the row is no text row.
pub fn text_range(recording: &[u8], table: &[u64], row: u64) -> Result<Range, Refusal>
    ensures { TextPromise recording.now table.now row result }
{
    let range = payload_range(recording, table, row)?;
    if !is_text(row_at(table, row as usize).kind) {
        return Err(Cause::BadArgument.at(0));
    }
    let text = shown_part(row_payload(recording, table, row));
    Ok(Range {
        at: range.at,
        length: text.len() as u64,
    })
}

// The shown text of a row as the very part of the recording; empty where `text_range` refuses.
pub fn shown_text<'a>(recording: &'a [u8], table: &[u64], row: u64) -> &'a [u8]
    ensures { ShownPromise recording.now table.now row result.now }
{
    match text_range(recording, table, row) {
        Ok(range) => &recording[range.at as usize..(range.at + range.length) as usize],
        Err(_) => &recording[..0],
    }
}
