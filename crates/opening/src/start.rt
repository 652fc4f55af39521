// The start of `open`: the lengths, and the segment.
ghost use Rattle.std.specs.Prelude.{◌≡◌};
ghost use Rattle.open_rules.specs.Tables.{sizes_of, lent};
ghost use Rattle.open_rules.specs.Promise.{are_allowed};
ghost use Rattle.open_rules.specs.Contract.{Begins};

use open_rules::{Lent, Stage};
use refusals::{Cause, Refusal};
use rowstore::is_allowed;
use segments::segment_of;

// Whether the recording and each table are within their limits. A chain of tests, since the check finds no proof for
// `all` over an array of the five.
#[tactic(auto, unfolding(open_rules::specs::Promise::are_allowed))]
fn are_allowed(recording: &[u8], tables: &Lent) -> bool
    ensures { result ≡ are_allowed recording.now (sizes_of (lent tables.now)) }
{
    is_allowed(recording, 0, tables.info)
        && is_allowed(recording, 0, tables.tracks)
        && is_allowed(recording, 0, tables.attachments)
        && is_allowed(recording, 0, tables.chapters)
        && is_allowed(recording, 0, tables.tags)
}

// Where `open` stands first: 14 for a length, then at the segment's first child.
pub fn begin(recording: &[u8], live: bool, tables: &Lent) -> Result<Stage, Refusal>
    ensures { Begins live recording.now (sizes_of (lent tables.now)) result }
{
    if !are_allowed(recording, tables) {
        return Err(Refusal {
            address: 0,
            cause: Cause::BadArgument,
        });
    }
    let segment = segment_of(recording, live)?;
    Ok(Stage::From {
        segment,
        at: segment.payload.at,
    })
}
