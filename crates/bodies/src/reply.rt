// The public call: the body of an id under a parent id, at a place of a recording.
ghost use Rattle.bodies_rules.specs.Promise.{BodyPromise};

use crate::typed::read_body;
use bodies_rules::Body;
use header::{Cursor, Headed, Header, is_place};
use kind_decision::kind_of;
use refusals::{Cause, Refusal};

// The body of `size` bytes at a place; `address` is where its header is, which a refusal of the body tells. 14: the
// recording is too long, or the place is past its end.
pub fn body_at(
    recording: &[u8],
    id: u32,
    parent: u32,
    at: u64,
    size: u64,
    address: u64,
) -> Result<Body, Refusal>
    ensures { BodyPromise recording.now id parent at size address result }
{
    if !is_place(recording, at) {
        return Err(Cause::BadArgument.at(0));
    }
    let kind = kind_of(id, parent);
    // The caller names the payload, and says where the header is; no byte of that is looked at.
    let element = Headed {
        place: Cursor { at: address },
        payload: Cursor { at },
        header: Header {
            id,
            size,
            length: 0,
        },
    };
    let (body, _) = read_body(recording, element, kind).map_err(|cause| cause.at(address))?;
    Ok(body)
}
