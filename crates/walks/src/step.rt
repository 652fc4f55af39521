// The one step of a walk.
ghost use Rattle.std.specs.Prelude.{◌≡◌};
ghost use Rattle.walks_rules.specs.Step.{barred_step, child_at};

use crate::ends::{is_ended_by, is_endless, is_past};
use header::{Cursor, Headed};
use refusals::{Cause, Refusal};
use sizes::is_unknown;
use walks_rules::Stretch;

// Whether the size of an element is unknown, and the element one that has to have a known size.
fn is_barred(live: bool, element: Headed) -> bool
    ensures { result ≡ barred_step live element }
{
    is_unknown(live, element.header) && !is_endless(element.header.id)
}

// The element at a place of a stretch: the end, header, an id that ends it, 17.
pub fn child_at(
    recording: &[u8],
    live: bool,
    place: Cursor,
    stretch: Stretch,
) -> Result<Option<Headed>, Refusal>
    ensures { result ≡ child_at live recording.now stretch place.at }
{
    if is_past(recording, stretch, place.at) {
        return Ok(None);
    }
    let child = place.header(recording)?;
    if is_ended_by(stretch, child.header.id) {
        return Ok(None);
    }
    if is_barred(live, child) {
        return Err(Cause::UnknownSize.at(child.place.at));
    }
    Ok(Some(child))
}
