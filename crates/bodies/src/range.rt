// Bodies that are a part of the recording: texts and bytes. Nothing is copied.
ghost use Rattle.std.specs.Prelude.{◌≡◌};
ghost use Rattle.kinds.specs.declared.kind.Kind.TheVariants.{Utf8, Binary};
ghost use Rattle.bodies_rules.specs.Reads.{body_read, end_of};

use bodies_rules::{Body, Range, Value};
use header::Cursor;
use refusals::Cause;
use utf8::is_utf8;

// The place behind `size` bytes, where the recording has them.
fn end_of(place: Cursor, recording: &[u8], size: u64) -> Option<Cursor>
    ensures { result ≡ end_of recording.now place.at size }
{
    let at = place.at.checked_add(size)?;
    (at <= recording.len() as u64).then_some(Cursor { at })
}

// A text of either kind: the bytes have to be there, and then to be UTF-8.
pub fn read_text(place: Cursor, recording: &[u8], size: u64) -> Result<(Body, Cursor), Cause>
    ensures { result ≡ body_read Utf8 recording.now place.at size }
{
    let next = end_of(place, recording, size).ok_or(Cause::PastEnd)?;
    let at = place.at;
    if !is_utf8(&recording[at as usize..next.at as usize]) {
        return Err(Cause::NotUtf8);
    }
    let text = Range { at, length: size };
    Ok((Body::Value(Value::Text(text)), next))
}

// Any bytes.
pub fn read_bytes(place: Cursor, recording: &[u8], size: u64) -> Result<(Body, Cursor), Cause>
    ensures { result ≡ body_read Binary recording.now place.at size }
{
    let next = end_of(place, recording, size).ok_or(Cause::PastEnd)?;
    let at = place.at;
    let bytes = Range { at, length: size };
    Ok((Body::Value(Value::Bytes(bytes)), next))
}
