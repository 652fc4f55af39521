// The first child of the segment that is met, and the way past a child: what `open` goes on from.
ghost use Rattle.std.specs.Prelude.{◌≡◌};
ghost use Rattle.kinds.specs.Kinds.{member};
ghost use Rattle.walks_rules.specs.Contract.{Readable};
ghost use Rattle.segments_rules.specs.Segment.{part_ids, aims_at, met_from};
ghost use Rattle.segments_rules.specs.Contract.{PastIn};

use crate::walk::{end_of, stretch_of};
use header::{Cursor, Headed};
use kinds::ids;
use refusals::{Cause, Refusal};
use segments_rules::{Aim, Met};
use sizes::is_unknown;
use walks::{child_at, pass_over};
use walks_rules::Stretch;

// The place behind a child that is passed over, by what its segment holds; 3 where it overruns a segment of known size.
pub fn past_child(
    recording: &[u8],
    live: bool,
    stretch: Stretch,
    child: Headed,
) -> Result<u64, Refusal>
    requires { Readable recording.now child }
    ensures { PastIn live recording.now stretch child result }
{
    if is_unknown(live, child.header) {
        return pass_over(recording, live, end_of(stretch), child);
    }
    let next = child.payload.at + child.header.size;
    match stretch {
        Stretch::Sized(end) => {
            if end < next {
                return Err(Refusal {
                    address: child.place.at,
                    cause: Cause::Overrun,
                });
            }
            Ok(next)
        }
        Stretch::Endless { id: _, end: _ } => Ok(next),
    }
}

// The ids of the parts of a recording.
const PARTS: [u32; 5] = [
    ids::INFO,
    ids::TRACKS,
    ids::ATTACHMENTS,
    ids::CHAPTERS,
    ids::TAGS,
];

// Whether an id is that of a part of a recording.
fn is_part(id: u32) -> bool
    ensures { result ≡ member id part_ids }
{
    PARTS.contains(&id)
}

// Whether a walk looks for an id.
fn aims_at(aim: Aim, id: u32) -> bool
    ensures { result ≡ aims_at aim id }
{
    match aim {
        Aim::One(part) => id == part,
        Aim::Every => is_part(id),
    }
}

// The first child from an address on that is a seek head or is looked for. The bytes of a child that is passed over
// need not exist.
pub fn meet(
    recording: &[u8],
    live: bool,
    aim: Aim,
    segment: Headed,
    from: u64,
) -> Result<Option<Met>, Refusal>
    requires { Readable recording.now segment }
    ensures { result ≡ met_from live recording.now aim segment from }
{
    let stretch = stretch_of(recording, live, segment);
    let mut at = from;
    while let Some(child) = child_at(recording, live, Cursor { at }, stretch)? {
        let id = child.header.id;
        if id == ids::SEEKHEAD {
            return Ok(Some(Met::Head(child)));
        }
        if aims_at(aim, id) {
            return Ok(Some(Met::Part(child)));
        }
        at = past_child(recording, live, stretch, child)?;
    }
    Ok(None)
}
