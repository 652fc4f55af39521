// The place behind an element that a walk passes over.
ghost use Rattle.std.specs.Prelude.{◌≡◌, ◌≤◌, length};
ghost use Rattle.header.specs.Promise.{most_bytes};
ghost use Rattle.walks_rules.specs.Endings.{ended_at, within as within_of, end_from, pass_over};
ghost use Rattle.walks_rules.specs.Contract.{Readable};

use crate::step::child_at;
use header::{Cursor, Headed};
use refusals::Refusal;
use sizes::is_unknown;
use walks_rules::Stretch;

// Where an element of unknown size ends that is at its end at a place.
fn ended_at(recording: &[u8], end: u64, at: u64) -> u64
    ensures { result ≡ ended_at recording.now end at }
{
    if end <= at {
        return end;
    }
    let length = recording.len() as u64;
    if length <= at {
        return length;
    }
    at
}

// The place behind an element in one of unknown size: a Cluster of unknown size in a Segment is gone into.
fn within(recording: &[u8], element: Headed) -> u64
    requires { Readable recording.now element }
    ensures { result ≡ within_of element }
{
    if is_unknown(true, element.header) {
        return element.payload.at;
    }
    element.payload.at + element.header.size
}

// The end of an element of that id and of unknown size, from a place among its children on; at the latest a known end.
fn end_from(recording: &[u8], id: u32, end: u64, from: u64) -> Result<u64, Refusal>
    requires { length recording.now ≤ most_bytes }
    ensures { result ≡ end_from recording.now id end from }
{
    let stretch = Stretch::Endless { id, end };
    let mut at = from;
    while let Some(child) = child_at(recording, true, Cursor { at }, stretch)? {
        at = within(recording, child);
    }
    Ok(ended_at(recording, end, at))
}

// The place behind an element, where a known end bounds it: by its size, or of one of unknown size in live mode its
// end.
pub fn pass_over(recording: &[u8], live: bool, end: u64, element: Headed) -> Result<u64, Refusal>
    requires { Readable recording.now element }
    ensures { result ≡ pass_over live recording.now end element }
{
    if is_unknown(live, element.header) {
        return end_from(recording, element.header.id, end, element.payload.at);
    }
    let next = element.payload.at + element.header.size;
    Ok(next)
}
