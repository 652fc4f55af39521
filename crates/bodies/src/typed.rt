// The body of an element by its kind.
ghost use Rattle.std.specs.Prelude.{◌≡◌};
ghost use Rattle.bodies_rules.specs.Reads.{body_read};

use crate::range::{read_bytes, read_text};
use bodies_rules::Body;
use header::{Cursor, Headed};
use kinds::Kind;
use number_bodies::{read_date, read_float, read_int, read_uint};
use refusals::Cause;

// The body of an element whose header was read. Of a master nothing is tested here.
pub fn read_body(recording: &[u8], element: Headed, kind: Kind) -> Result<(Body, Cursor), Cause>
    ensures { result ≡ body_read kind recording.now element.payload.at element.header.size }
{
    // Two numbers cross to the readers, so that the element itself need not lie in memory.
    let at = element.payload.at;
    let size = element.header.size;
    let payload = Cursor { at };
    match kind {
        Kind::Master => Ok((Body::Master, payload)),
        Kind::Int => read_int(payload, recording, size),
        Kind::Uint => read_uint(payload, recording, size),
        Kind::String => read_text(payload, recording, size),
        Kind::Utf8 => read_text(payload, recording, size),
        Kind::Binary => read_bytes(payload, recording, size),
        Kind::Float => read_float(payload, recording, size),
        Kind::Date => read_date(payload, recording, size),
    }
}
