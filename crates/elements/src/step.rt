// The one step by which the element rules read a header, and know 17.
ghost use Rattle.std.specs.Prelude.{◌≡◌};
ghost use Rattle.elements_rules.specs.Reading.{element_header_read};

use header::{Cursor, Headed};
use refusals::{Cause, Refusal};
use sizes::is_unknown;

// The element whose header is at a place of a payload; in live mode 17 where its size is unknown.
pub fn element_header(recording: &[u8], live: bool, place: Cursor) -> Result<Headed, Refusal>
    ensures { result ≡ element_header_read live recording.now place.at }
{
    let headed = place.header(recording)?;
    if is_unknown(live, headed.header) {
        return Err(Cause::UnknownSize.at(place.at));
    }
    Ok(headed)
}
