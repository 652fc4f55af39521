// What follows a header, read by the element rules and without rows.
ghost use Rattle.seekhead_rules.specs.Contract.{Taken, Shallow, Skimmed};

use bodies::read_body;
use bodies_rules::Body;
use elements::master_body;
use elements_rules::{Above, Mode};
use header::Headed;
use kind_decision::kind_of;
use kinds::MASTER;
use refusals::Refusal;

// The body of an element whose header was read, under a parent id and at a depth. A master's elements are read too.
pub fn skim_body(
    recording: &[u8],
    live: bool,
    element: Headed,
    parent: u32,
    depth: u64,
) -> Result<Body, Refusal>
    requires taken { Taken live recording.now element }
    requires shallow { Shallow depth }
    ensures { Skimmed live recording.now depth parent element result }
{
    let header = element.header;
    let kind = kind_of(header.id, parent);
    if kind.number() == MASTER {
        let above = Above {
            id: header.id,
            row: 0,
            depth: depth + 1,
        };
        let mode = Mode { keep: false, live };
        // The readers ask for a table; no row is kept in this one.
        let mut none = [0u64; 1];
        master_body(
            recording,
            &mut none,
            mode,
            element.payload,
            header.size,
            0,
            above,
        )?;
        return Ok(Body::Master);
    }
    let (body, _) = read_body(recording, element, kind).map_err(|cause| cause.at(
        element.place.at,
    ))?;
    Ok(body)
}
