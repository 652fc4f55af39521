// Floats of 4 or 8 bytes (IEEE 754, binary32 and binary64). Every pattern of a NaN gives the one NaN.
ghost use Rattle.std.specs.Prelude.{◌≡◌, ◌^◌, ◌<◌, from_bits};
ghost use Rattle.std.specs.Float.{binary32, binary64};
ghost use Rattle.kinds.specs.declared.kind.Kind.TheVariants.{Float};
ghost use Rattle.bodies_rules.specs.Reads.{body_read};

use bodies_rules::{Body, Value};
use header::Cursor;
use refusals::Cause;

// The float that a pattern of 32 bits is, widened exactly.
pub fn float_of_4(pattern: u64) -> f64
    requires { pattern < 2 ^ 32 }
    ensures { result ≡ from_bits binary32 pattern }
{
    let bits = pattern as u32;
    if bits % 0x8000_0000 > 0x7F80_0000 {
        return f64::NAN;
    }
    std::num::f32_to_f64_with_nan(f32::from_bits(bits))
}

// The float that a pattern of 64 bits is.
pub fn float_of_8(pattern: u64) -> f64
    ensures { result ≡ from_bits binary64 pattern }
{
    if pattern % 0x8000_0000_0000_0000 > 0x7FF0_0000_0000_0000 {
        return f64::NAN;
    }
    f64::from_bits(pattern)
}

// A float of 4 or 8 bytes.
pub fn read_float(place: Cursor, recording: &[u8], size: u64) -> Result<(Body, Cursor), Cause>
    ensures { result ≡ body_read Float recording.now place.at size }
{
    if size != 4 && size != 8 {
        return Err(Cause::InvalidFloat);
    }
    let (pattern, next) = place.number(recording, size).ok_or(Cause::PastEnd)?;
    let float = if size == 4 {
        float_of_4(pattern)
    } else {
        float_of_8(pattern)
    };
    Ok((Body::Value(Value::Float(float)), next))
}
