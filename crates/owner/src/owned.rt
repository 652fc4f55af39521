// The address question without a table: headers from the front, siblings skipped by their size, down only into the
// element that holds the address.
ghost use Rattle.std.specs.Prelude.{◌≡◌, true, ◌&&◌, ◌≤◌, length, leb};
ghost use Rattle.header.specs.Promise.{most_bytes};
ghost use Rattle.elements_rules.specs.Holds.{within};
ghost use Rattle.elements_rules.specs.Promise.{allowed, zeros};
ghost use Rattle.owner_rules.specs.Owner.{most_links};
ghost use Rattle.owner_rules.specs.Promise.{OwnerPromise, ChainPromise};
ghost use Rattle.owner_rules.specs.Contract.{WalkMet};

use crate::chain::keep_link;
use elements::{DEPTHS, element_header};
use header::{Cursor, is_place};
use kind_decision::kind_of;
use kinds::MASTER;
use owner_rules::Owner;
use places::is_within;
use refusals::{Cause, Refusal};
use rowstore::clear;

// Whether the recording, the start and so many links are allowed; a chain has one link for each depth.
fn is_asked(recording: &[u8], start: u64, links: usize) -> bool
    ensures { result ≡ (allowed recording.now start 0 && leb links most_links) }
{
    is_place(recording, start) && links as u64 <= DEPTHS
}

// The walk to the element that holds the address, which is in the payload. At each header: the header, 17 in live mode,
// 12, 3. The chain is kept in a cleared slice; after a refusal it is as far as the walk came.
fn walk(
    recording: &[u8],
    live: bool,
    start: u64,
    size: u64,
    parent: u32,
    address: u64,
    chain: &mut [u64],
) -> Result<Owner, Refusal>
    requires recording_len_bound { length recording.now ≤ most_bytes }
    requires address_value { within start size address ≡ true }
    requires chain_value { chain.old ≡ zeros (length chain.old) }
    ensures { WalkMet live recording.now start size parent address
        chain.old result chain.new }
{
    let mut place = Cursor { at: start };
    let mut left = size;
    let mut above = parent;
    let mut depth: u64 = 0;
    // A `while`: how far a turn goes on is what the header tells.
    while left > 0 {
        let here = place.at;
        let headed = element_header(recording, live, place)?;
        if depth >= DEPTHS {
            return Err(Cause::TooDeep.at(here));
        }
        let whole = headed.header.length + headed.header.size;
        if whole > left {
            return Err(Cause::Overrun.at(here));
        }
        let past = address - here;
        if past < whole {
            keep_link(chain, depth, here);
            if past < headed.header.length {
                return Ok(Owner::Header {
                    address: here,
                    depth,
                });
            }
            let id = headed.header.id;
            if kind_of(id, above).number() != MASTER {
                return Ok(Owner::Payload {
                    address: here,
                    depth,
                });
            }
            place = headed.payload;
            left = headed.header.size;
            above = id;
            depth += 1;
        } else {
            place = Cursor { at: here + whole };
            left -= whole;
        }
    }
    // Not reached: something is left while the address is ahead.
    Err(Cause::Outside.at(0))
}

// The element that holds an address of the payload of `size` bytes from `start` on, under a parent id; in live mode,
// which knows unknown sizes, or in old mode. The chain takes the header addresses of the masters around it, the
// outermost first, and its own, as far as there is room, and zeros beyond them; the reply's depth tells how many
// masters there are. 14: a length is broken (a chain has at most 16 links), or the start is past the end; then 15: the
// address is outside the payload that the caller named.
pub fn owner_chain(
    recording: &[u8],
    live: bool,
    start: u64,
    size: u64,
    parent: u32,
    address: u64,
    chain: &mut [u64],
) -> Result<Owner, Refusal>
    ensures { ChainPromise live recording.now start size parent address
        chain.old result chain.new }
{
    clear(chain);
    if !is_asked(recording, start, chain.len()) {
        return Err(Cause::BadArgument.at(0));
    }
    if !is_within(start, size, address) {
        return Err(Cause::Outside.at(0));
    }
    let reply = walk(recording, live, start, size, parent, address, chain);
    if let Err(_) = reply {
        clear(chain);
    }
    reply
}

// The same without the chain.
pub fn owner(
    recording: &[u8],
    live: bool,
    start: u64,
    size: u64,
    parent: u32,
    address: u64,
) -> Result<Owner, Refusal>
    ensures { OwnerPromise live recording.now start size parent address result }
{
    let mut chain = [0u64; 16];
    owner_chain(recording, live, start, size, parent, address, &mut chain)
}
