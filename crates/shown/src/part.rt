// What of a text is shown.
ghost use Rattle.std.specs.Prelude.{◌≡◌};
ghost use Rattle.shown_rules.specs.Shown.{shown};

// The bytes before the first zero byte, as the very part; all of them where there is none.
pub fn shown_part(text: &[u8]) -> &[u8]
    ensures { result.now ≡ shown text.now }
{
    match text.iter().position(|byte| *byte == 0) {
        Some(end) => &text[..end],
        None => text,
    }
}
