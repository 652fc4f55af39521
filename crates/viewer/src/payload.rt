// `uz_row_payload`: where the payload of a row is. The table is only read.
ghost use Rattle.viewer_rules.specs.Promise.{UzRangePromise};

use crate::range::range_face;
use payloads::payload_range;
use viewer_rules::UzRange;

pub fn uz_row_payload(recording: &[u8], table: &[u64], row: u64) -> UzRange
    ensures { UzRangePromise recording.now table.now row result }
{
    range_face(payload_range(recording, table, row))
}
