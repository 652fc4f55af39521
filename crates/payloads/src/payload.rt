// The payload of a row: its range as numbers, and the very part of the recording. The table is only read.
ghost use Rattle.std.specs.Prelude.{◌≡◌};
ghost use Rattle.places_rules.specs.Payload.{range_in};
ghost use Rattle.places_rules.specs.Promise.{RangePromise, PayloadPromise};

use bodies_rules::Range;
use elements_rules::Row;
use refusals::{Cause, Refusal};
use rowstore::{WIDTH, is_allowed, row_at};

// The range of a row's payload, where it is in the recording.
fn range_of(recording: &[u8], row: Row) -> Option<Range>
    ensures { result ≡ range_in recording.now row }
{
    let at = row.address.checked_add(row.header)?;
    let end = at.checked_add(row.payload)?;
    let length = row.payload;
    (end <= recording.len() as u64).then_some(Range { at, length })
}

// The range of a row's payload. 14: a length is broken, the row is not in the table, or its range is not in the
// recording.
pub fn payload_range(recording: &[u8], table: &[u64], row: u64) -> Result<Range, Refusal>
    ensures { RangePromise recording.now table.now row result }
{
    if !is_allowed(recording, 0, table) {
        return Err(Cause::BadArgument.at(0));
    }
    let rows = table.len() / WIDTH;
    if rows as u64 <= row {
        return Err(Cause::BadArgument.at(0));
    }
    let found = row_at(table, row as usize);
    range_of(recording, found).ok_or(Cause::BadArgument.at(0))
}

// The payload of a row as the very part of the recording; empty where `payload_range` refuses.
pub fn row_payload<'a>(recording: &'a [u8], table: &[u64], row: u64) -> &'a [u8]
    ensures { PayloadPromise recording.now table.now row result.now }
{
    // A `match`, since a refusal is told as no bytes.
    match payload_range(recording, table, row) {
        Err(_) => &recording[..0],
        Ok(range) => {
            let first = range.at as usize;
            let end = first + range.length as usize;
            &recording[first..end]
        }
    }
}
