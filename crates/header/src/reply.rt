// The public call: the header at a place of a recording.
ghost use Rattle.std.specs.Prelude.{◌≡◌, ◌&&◌, length, leb};
ghost use Rattle.header.specs.Promise.{most_bytes, HeaderPromise};

use crate::cursor::{Cursor, Header};
use refusals::{Cause, Refusal};

// The longest recording that a call takes, in bytes.
pub const MOST_BYTES: u64 = 4_294_967_295;

// Whether a recording is no longer than a call takes, and a place is not past its end; else 14.
pub fn is_place(recording: &[u8], at: u64) -> bool
    ensures { result ≡ (leb (length recording.now) most_bytes && leb at (length recording.now)) }
{
    let length = recording.len() as u64;
    length <= MOST_BYTES && at <= length
}

// The header at a place of a recording. 14: the recording is too long, or the place is past its end.
pub fn header_at(recording: &[u8], at: u64) -> Result<Header, Refusal>
    ensures { HeaderPromise recording.now at result }
{
    if !is_place(recording, at) {
        return Err(Cause::BadArgument.at(0));
    }
    let element = Cursor { at }.header(recording)?;
    Ok(element.header)
}
