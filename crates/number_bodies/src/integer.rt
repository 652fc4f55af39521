// Integers and dates: big-endian, signed ones in two's complement of their own width.
ghost use Rattle.std.specs.Prelude.{◌≡◌, ◌*◌, ◌^◌, ◌<◌, ◌≤◌};
ghost use Rattle.kinds.specs.declared.kind.Kind.TheVariants.{Int, Uint, Date};
ghost use Rattle.bodies_rules.specs.Numbers.{signed_of};
ghost use Rattle.bodies_rules.specs.Reads.{body_read};

use bodies_rules::{Body, Value};
use header::Cursor;
use refusals::Cause;

// The number that v is as two's complement of n bytes. By hand: the library takes 1, 2, 4 or 8 bytes alone.
pub fn signed(v: u64, n: u64) -> i64
    requires { (n ≤ 8) × (v < 2 ^ (8 * n)) }
    ensures { result ≡ signed_of n v }
{
    if n == 0 {
        return 0;
    }
    let half = 1u64 << (8 * n - 1);
    if v < half {
        return v as i64;
    }
    // How far the number lies below -1.
    let below = (half - 1) + half - v;
    -1 - (below as i64)
}

// A signed integer of 0 to 8 bytes.
pub fn read_int(place: Cursor, recording: &[u8], size: u64) -> Result<(Body, Cursor), Cause>
    ensures { result ≡ body_read Int recording.now place.at size }
{
    if 8 < size {
        return Err(Cause::InvalidUint);
    }
    let (value, next) = place.number(recording, size).ok_or(Cause::PastEnd)?;
    Ok((Body::Value(Value::Integer(signed(value, size))), next))
}

// An unsigned integer of 0 to 8 bytes.
pub fn read_uint(place: Cursor, recording: &[u8], size: u64) -> Result<(Body, Cursor), Cause>
    ensures { result ≡ body_read Uint recording.now place.at size }
{
    if 8 < size {
        return Err(Cause::InvalidUint);
    }
    let (value, next) = place.number(recording, size).ok_or(Cause::PastEnd)?;
    Ok((Body::Value(Value::Unsigned(value)), next))
}

// A date of 8 bytes: a signed integer that counts nanoseconds.
pub fn read_date(place: Cursor, recording: &[u8], size: u64) -> Result<(Body, Cursor), Cause>
    ensures { result ≡ body_read Date recording.now place.at size }
{
    if size != 8 {
        return Err(Cause::InvalidDate);
    }
    let (value, next) = place.number(recording, size).ok_or(Cause::PastEnd)?;
    Ok((Body::Value(Value::Date(signed(value, size))), next))
}
