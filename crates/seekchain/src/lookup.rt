// The part that the seek heads lead to.
ghost use Rattle.std.specs.Prelude.{◌≡◌};
ghost use Rattle.walks_rules.specs.Contract.{Readable};
ghost use Rattle.seekchain_rules.specs.Lookup.{by_heads};
ghost use Rattle.seekchain_rules.specs.Contract.{place_told, PartMet};

use crate::heads::{is_too_far, linked_heads, sought};
use header::Headed;
use refusals::{Cause, Refusal};
use seekhead_rules::Wanted;

// The part by the latest position of its id, where so many heads were read, the last of them at `last`: absent, or 8,
// header, 17, 9.
pub fn part_at(
    recording: &[u8],
    live: bool,
    wanted: u32,
    start: u64,
    heads: u64,
    last: u64,
    link: Option<u64>,
) -> Result<(Option<Headed>, u64), Refusal>
    ensures { PartMet live recording.now wanted start heads last link result }
{
    let Some(position) = link else {
        return Ok((None, heads));
    };
    if is_too_far(start, position) {
        return Err(Refusal {
            address: last,
            cause: Cause::InvalidSeekHead(wanted),
        });
    }
    let part = sought(recording, live, start + position, wanted)?;
    Ok((Some(part), heads))
}

// The wanted part by the heads from the first one on, with positions counted from the segment's start.
pub fn by_heads(
    recording: &[u8],
    live: bool,
    wanted: u32,
    start: u64,
    first: Headed,
) -> Result<(Option<Headed>, u64), Refusal>
    requires { Readable recording.now first }
    ensures { result ≡ place_told (by_heads live recording.now wanted start first) }
{
    let only = Wanted {
        first: wanted,
        second: 0,
        third: 0,
        fourth: 0,
        fifth: 0,
    };
    let found = linked_heads(recording, live, only, start, first)?;
    part_at(
        recording,
        live,
        wanted,
        start,
        found.heads,
        found.last,
        found.parts.first,
    )
}
