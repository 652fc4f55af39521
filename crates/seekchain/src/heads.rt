// The chain of linked seek heads: an entry for a seek head leads to the next one.
ghost use Rattle.std.specs.Prelude.{◌≡◌, ◌+◌, ltb};
ghost use Rattle.walks_rules.specs.Contract.{Readable};
ghost use Rattle.seekchain_rules.specs.Heads.{last_address, last_head, sought as sought_at, next_head, linked_heads};
ghost use Rattle.seekchain_rules.specs.Contract.{heads_told};

use header::{Cursor, Headed};
use kinds::ids;
use refusals::{Cause, Refusal};
use seekchain_rules::HeadsRead;
use seekhead::head_body;
use seekhead_rules::{Positions, Wanted};
use walks::child_at;
use walks_rules::Stretch;

// The most seek heads that one search reads, the first included.
const MOST_HEADS: usize = 64;

// The greatest 64-bit number.
const LAST_ADDRESS: u64 = 18446744073709551615;

// Whether the segment's start plus a position exceeds 2^64-1.
pub fn is_too_far(start: u64, position: u64) -> bool
    ensures { result ≡ ltb last_address (start + position) }
{
    LAST_ADDRESS - start < position
}

// The element that a sought address holds: header, 17, 9 where its id is another.
pub fn sought(recording: &[u8], live: bool, address: u64, id: u32) -> Result<Headed, Refusal>
    ensures { result ≡ sought_at live recording.now address id }
{
    let place = Cursor { at: address };
    let stretch = Stretch::Sized(recording.len() as u64);
    let Some(element) = child_at(recording, live, place, stretch)? else {
        return Err(Refusal {
            address,
            cause: Cause::PastEnd,
        });
    };
    if element.header.id != id {
        return Err(Refusal {
            address,
            cause: Cause::StaleEntry,
        });
    }
    Ok(element)
}

// The head that an entry for one leads to, where the heads at the addresses `seen` were read, and `last` is the last of
// them. The order: 8, 10, 11, header, 17, 9.
fn next_head(
    recording: &[u8],
    live: bool,
    start: u64,
    seen: &[u64],
    last: u64,
    link: Option<u64>,
) -> Result<Option<Headed>, Refusal>
    requires { last ≡ last_head seen.now }
    ensures { result ≡ next_head live recording.now start seen.now link }
{
    let Some(position) = link else {
        return Ok(None);
    };
    if is_too_far(start, position) {
        return Err(Refusal {
            address: last,
            cause: Cause::InvalidSeekHead(ids::SEEKHEAD),
        });
    }
    let address = start + position;
    if seen.contains(&address) {
        return Err(Refusal {
            address,
            cause: Cause::HeadAgain,
        });
    }
    if seen.len() >= MOST_HEADS {
        return Err(Refusal {
            address,
            cause: Cause::TooManyHeads,
        });
    }
    let head = sought(recording, live, address, ids::SEEKHEAD)?;
    Ok(Some(head))
}

// The positions of the wanted ids by the heads from the first one on. An entry for a further head is dropped once it
// was followed.
pub fn linked_heads(
    recording: &[u8],
    live: bool,
    wanted: Wanted,
    start: u64,
    first: Headed,
) -> Result<HeadsRead, Refusal>
    requires { Readable recording.now first }
    ensures { result ≡ heads_told wanted (linked_heads live recording.now start first) }
{
    let mut seen = [0u64; MOST_HEADS];
    let mut n: usize = 0;
    let mut head = first;
    let mut parts = Positions {
        first: None,
        second: None,
        third: None,
        fourth: None,
        fifth: None,
    };
    loop {
        let found = head_body(recording, live, wanted, parts, head)?;
        parts = found.parts;
        let last = head.place.at;
        seen[n] = last;
        n += 1;
        match next_head(recording, live, start, &seen[..n], last, found.head)? {
            Some(next) => head = next,
            None => {
                let heads = n as u64;
                return Ok(HeadsRead { parts, heads, last });
            }
        }
    }
}
