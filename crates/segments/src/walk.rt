// The walk over the segment's children.
ghost use Rattle.std.specs.Prelude.{◌≡◌, ◌≤◌, length};
ghost use Rattle.header.specs.Promise.{most_bytes};
ghost use Rattle.walks_rules.specs.Contract.{Readable};
ghost use Rattle.walks_rules.specs.Endings.{end_of};
ghost use Rattle.seekchain_rules.specs.Contract.{place_told};
ghost use Rattle.segments_rules.specs.Segment.{visit as visit_of, stretch_of, overruns as overruns_of};
ghost use Rattle.segments_rules.specs.Segment.{segment_children, lookup_of};
ghost use Rattle.segments_rules.specs.Contract.{visit_told};

use crate::segment::segment_of;
use header::{Cursor, Headed};
use kinds::ids;
use refusals::{Cause, Refusal};
use seekchain::by_heads;
use sizes::is_unknown;
use walks::{child_at, pass_over};
use walks_rules::Stretch;

// What a segment holds: up to the end that its size names, or in live mode, where that is unknown, up to its ending.
pub fn stretch_of(recording: &[u8], live: bool, segment: Headed) -> Stretch
    requires { Readable recording.now segment }
    ensures { result ≡ stretch_of live recording.now segment }
{
    if is_unknown(live, segment.header) {
        return Stretch::Endless {
            id: ids::SEGMENT,
            end: recording.len() as u64,
        };
    }
    Stretch::Sized(segment.payload.at + segment.header.size)
}

// The known end of a stretch.
pub fn end_of(stretch: Stretch) -> u64
    ensures { result ≡ end_of stretch }
{
    match stretch {
        Stretch::Sized(end) => end,
        Stretch::Endless { id: _, end } => end,
    }
}

// Whether a child of known size is larger than what was left of a segment of known size.
fn overruns(recording: &[u8], live: bool, segment: Headed, child: Headed) -> bool
    requires readable { Readable recording.now segment }
    requires readable_2 { Readable recording.now child }
    ensures { result ≡ overruns_of live segment child }
{
    if is_unknown(live, segment.header) {
        return false;
    }
    if is_unknown(live, child.header) {
        return false;
    }
    segment.payload.at + segment.header.size < child.payload.at + child.header.size
}

// What the search tells at a child: by the entries of a seek head, or that the child is the wanted part; none where it
// goes on.
fn visit_child(
    recording: &[u8],
    live: bool,
    wanted: u32,
    segment: Headed,
    child: Headed,
) -> Option<Result<(Option<Headed>, u64), Refusal>>
    requires { Readable recording.now child }
    ensures { result ≡ visit_told (visit_of live recording.now wanted segment child) }
{
    let id = child.header.id;
    if id == ids::SEEKHEAD {
        return Some(by_heads(recording, live, wanted, segment.payload.at, child));
    }
    if id == wanted {
        return Some(Ok((Some(child), 0)));
    }
    None
}

// The children of a segment whose header was read, in turn. The bytes of a child that is passed over need not exist; 3
// if it was larger than what was left.
fn walk(
    recording: &[u8],
    live: bool,
    wanted: u32,
    segment: Headed,
) -> Result<(Option<Headed>, u64), Refusal>
    requires { Readable recording.now segment }
    ensures { result ≡ place_told (segment_children live recording.now wanted segment) }
{
    let stretch = stretch_of(recording, live, segment);
    let end = end_of(stretch);
    let mut at = segment.payload.at;
    while let Some(child) = child_at(recording, live, Cursor { at }, stretch)? {
        if let Some(found) = visit_child(recording, live, wanted, segment, child) {
            return found;
        }
        if overruns(recording, live, segment, child) {
            return Err(Refusal {
                address: child.place.at,
                cause: Cause::Overrun,
            });
        }
        at = pass_over(recording, live, end, child)?;
    }
    Ok((None, 0))
}

// Where the wanted part is.
pub fn look_up(recording: &[u8], live: bool, wanted: u32) -> Result<(Option<Headed>, u64), Refusal>
    requires { length recording.now ≤ most_bytes }
    ensures { result ≡ place_told (lookup_of live recording.now wanted) }
{
    let segment = segment_of(recording, live)?;
    walk(recording, live, wanted, segment)
}
