// What stands before the segment.
ghost use Rattle.std.specs.Prelude.{◌≡◌, ◌≤◌, length};
ghost use Rattle.header.specs.Promise.{most_bytes};
ghost use Rattle.segments_rules.specs.Segment.{segment_of};

use header::{Cursor, Headed};
use kinds::ids;
use refusals::{Cause, Refusal};
use walks::{child_at, pass_over};
use walks_rules::Stretch;

// The segment. Elements before it are passed over: by size, or in live mode a Cluster of unknown size by its ending.
pub fn segment_of(recording: &[u8], live: bool) -> Result<Headed, Refusal>
    requires { length recording.now ≤ most_bytes }
    ensures { result ≡ segment_of live recording.now }
{
    let end = recording.len() as u64;
    let stretch = Stretch::Sized(end);
    let mut at: u64 = 0;
    while let Some(element) = child_at(recording, live, Cursor { at }, stretch)? {
        if element.header.id == ids::SEGMENT {
            return Ok(element);
        }
        at = pass_over(recording, live, end, element)?;
    }
    Err(Refusal {
        address: at,
        cause: Cause::PastEnd,
    })
}
