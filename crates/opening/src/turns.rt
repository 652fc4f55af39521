// What `open` does next, from where it stands.
ghost use Rattle.walks_rules.specs.Contract.{Readable};
ghost use Rattle.open_rules.specs.Contract.{Ready, TurnsFrom, TurnsSought, TurnsHead, TurnsMet};

use header::Headed;
use kinds::ids;
use open_rules::{Seeking, Stage, Turn, Which};
use refusals::Refusal;
use seekchain::{linked_heads, part_at};
use seekhead_rules::Wanted;
use segments::{meet, past_child, stretch_of};
use segments_rules::{Aim, Met};

// The order in which the parts are sought.
const ORDER: [Which; 5] = [
    Which::Info,
    Which::Tracks,
    Which::Attachments,
    Which::Chapters,
    Which::Tags,
];

// After the heads, with those parts left to seek: the next one that an entry names.
fn next_sought(
    recording: &[u8],
    live: bool,
    seeking: Seeking,
    parts: &'static [Which],
) -> Result<Turn, Refusal>
    ensures { TurnsSought live recording.now seeking parts.now result }
{
    let mut left = parts;
    while let [which, rest @ ..] = left {
        let link = which.link(seeking.links);
        let (place, _) = part_at(
            recording,
            live,
            which.id(),
            seeking.start,
            seeking.heads,
            seeking.last,
            link,
        )?;
        if let Some(part) = place {
            return Ok(Turn::Read {
                which: *which,
                part,
                next: Stage::Sought {
                    seeking,
                    left: rest,
                },
            });
        }
        left = rest;
    }
    Ok(Turn::Over(seeking.heads))
}

// From the first seek head on: all linked heads are read, then the parts are sought.
fn from_head(recording: &[u8], live: bool, start: u64, first: Headed) -> Result<Turn, Refusal>
    requires { Readable recording.now first }
    ensures { TurnsHead live recording.now start first result }
{
    let wanted = Wanted {
        first: ids::INFO,
        second: ids::TRACKS,
        third: ids::ATTACHMENTS,
        fourth: ids::CHAPTERS,
        fifth: ids::TAGS,
    };
    let found = linked_heads(recording, live, wanted, start, first)?;
    let seeking = Seeking {
        start,
        links: found.parts,
        heads: found.heads,
        last: found.last,
    };
    next_sought(recording, live, seeking, &ORDER)
}

// Before the heads, from an address among the segment's children on: the next part, or the first head.
fn next_met(recording: &[u8], live: bool, segment: Headed, at: u64) -> Result<Turn, Refusal>
    requires { Readable recording.now segment }
    ensures { TurnsMet live recording.now segment at result }
{
    match meet(recording, live, Aim::Every, segment, at)? {
        None => Ok(Turn::Over(0)),
        Some(Met::Head(first)) => from_head(recording, live, segment.payload.at, first),
        Some(Met::Part(part)) => Ok(Turn::Read {
            which: Which::named(part.header.id),
            part,
            next: Stage::Behind {
                segment,
                child: part,
            },
        }),
    }
}

// The part that is read next, or the end of the call.
pub fn turn(recording: &[u8], live: bool, stage: Stage) -> Result<Turn, Refusal>
    requires { Ready recording.now stage }
    ensures { TurnsFrom live recording.now stage result }
{
    match stage {
        Stage::From { segment, at } => next_met(recording, live, segment, at),
        Stage::Behind { segment, child } => {
            let stretch = stretch_of(recording, live, segment);
            let next = past_child(recording, live, stretch, child)?;
            next_met(recording, live, segment, next)
        }
        Stage::Sought { seeking, left } => next_sought(recording, live, seeking, left),
    }
}
