// Where a stretch ends: at a place, or before an id.
ghost use Rattle.std.specs.Prelude.{◌≡◌};
ghost use Rattle.kinds.specs.Kinds.{member};
ghost use Rattle.sizes.specs.Unknown.{endless};
ghost use Rattle.walks_rules.specs.Step.{child_ids, ends_before, is_past, ended_by};

use kinds::ids;
use walks_rules::Stretch;

// Ids for which the crate's src/ids.rs has no name.
const EBML: u32 = 0x1A45_DFA3;

const CLUSTER: u32 = 0x1F43_B675;

const CUES: u32 = 0x1C53_BB6B;

// Whether an id may have an unknown size.
pub fn is_endless(id: u32) -> bool
    ensures { result ≡ endless id }
{
    id == ids::SEGMENT || id == CLUSTER
}

// Whether an id is that of a child of the segment.
fn is_child(id: u32) -> bool
    ensures { result ≡ member id child_ids }
{
    matches!(
        id,
        ids::SEEKHEAD
            | ids::INFO
            | ids::TRACKS
            | ids::CHAPTERS
            | CLUSTER
            | CUES
            | ids::ATTACHMENTS
            | ids::TAGS
    )
}

// Whether an element of that id and of unknown size ends before one of the next id.
fn ends_before(id: u32, next: u32) -> bool
    ensures { result ≡ ends_before id next }
{
    next == ids::SEGMENT || next == EBML || (id == CLUSTER && is_child(next))
}

// Whether a place is past a stretch.
pub fn is_past(recording: &[u8], stretch: Stretch, at: u64) -> bool
    ensures { result ≡ is_past recording.now stretch at }
{
    match stretch {
        Stretch::Sized(end) => end <= at,
        Stretch::Endless { end, .. } => end <= at || recording.len() as u64 <= at,
    }
}

// Whether an element of the next id ends a stretch.
pub fn is_ended_by(stretch: Stretch, next: u32) -> bool
    ensures { result ≡ ended_by stretch next }
{
    match stretch {
        Stretch::Sized(_) => false,
        Stretch::Endless { id, .. } => ends_before(id, next),
    }
}
