// A number as text, in decimal or hexadecimal digits.
ghost use Rattle.std.specs.Prelude.{◌≡◌, ◌≤◌, ◌<◌, ◌^◌, length, drop};
ghost use Rattle.pages.specs.Text.{numeral};
ghost use Rattle.pages.specs.Text.{glyph as Text·glyph};

// The most digits of a 64-bit number in a base of 10 or more.
pub const DIGITS: usize = 20;

// The digit as a letter: `0` to `9`, then `A` to `F`.
#[tactic(auto, unfolding(crate::specs::Text::glyph))]
fn glyph(digit: u64) -> u8
    requires { digit < 16 }
    ensures { result ≡ Text·glyph digit }
{
    match digit {
        0..=9 => b'0' + digit as u8,
        _ => b'A' - 10 + digit as u8,
    }
}

// Puts the digits of the value at the end of the text, and answers where the first is. A `while`: how many digits
// there are shows only as the quotients are taken.
pub fn spell(value: u64, base: u64, text: &mut [u8; DIGITS]) -> usize
    requires lt_base { 1 < base }
    requires base_bound { base ≤ 16 }
    requires value_bound { value < base ^ 20 }
    ensures upper_bound { result ≤ 20 }
    ensures text_after { drop result text.new ≡ numeral base 20 value }
{
    let mut first = text.len();
    let mut rest = value;
    while base <= rest {
        first -= 1;
        text[first] = glyph(rest % base);
        rest /= base;
    }
    first -= 1;
    text[first] = glyph(rest);
    first
}
