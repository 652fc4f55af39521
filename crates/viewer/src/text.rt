// `uz_shown_text`: where the shown text of a row is. The table is only read.
ghost use Rattle.viewer_rules.specs.Promise.{UzTextPromise};

use crate::range::range_face;
use shown::text_range;
use viewer_rules::UzRange;

pub fn uz_shown_text(recording: &[u8], table: &[u64], row: u64) -> UzRange
    ensures { UzTextPromise recording.now table.now row result }
{
    range_face(text_range(recording, table, row))
}
