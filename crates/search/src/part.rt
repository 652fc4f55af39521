// The public call: a part of a recording, found and read into rows of a lent table.
ghost use Rattle.std.specs.Prelude.{◌≡◌};
ghost use Rattle.search_rules.specs.Part.{parent_of, PartPromise};

use elements::fill;
use kinds::ids;
use refusals::{Cause, Refusal};
use rowstore::{clear, is_allowed};
use search_rules::Part;
use segments::look_up;

// The id that a part's children are read under; none for what is no part.
fn parent_of(part: u32) -> Option<u32>
    ensures { result ≡ parent_of part }
{
    match part {
        ids::TRACKS => Some(ids::TRACKENTRY),
        ids::ATTACHMENTS => Some(ids::ATTACHEDFILE),
        ids::CHAPTERS => Some(ids::EDITIONENTRY),
        ids::TAGS => Some(ids::TAG),
        _ => None,
    }
}

// Where the part is, and its elements as rows of the table, as `read` would fill it in the same mode. In live mode the
// walk knows where a Segment or Cluster of unknown size ends. The table of an absent part is all
// zeros, and that of a refused one too. 14: a length is broken, or the part is none of the four.
pub fn find_part(
    recording: &[u8],
    live: bool,
    part: u32,
    table: &mut [u64],
) -> Result<(Option<Part>, u64), Refusal>
    ensures { PartPromise live recording.now part table.old result table.new }
{
    clear(table);
    if !is_allowed(recording, 0, table) {
        return Err(Refusal {
            address: 0,
            cause: Cause::BadArgument,
        });
    }
    let Some(parent) = parent_of(part) else {
        return Err(Refusal {
            address: 0,
            cause: Cause::BadArgument,
        });
    };
    let (found, heads) = look_up(recording, live, part)?;
    let Some(element) = found else {
        return Ok((None, heads));
    };
    let at = element.payload.at;
    let size = element.header.size;
    let rows = fill(recording, live, at, size, parent, table)?;
    Ok((Some(Part { at, size, rows }), heads))
}
