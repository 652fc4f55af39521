// `utf8 BYTES`: whether the bytes are UTF-8.
use answers::told::{Ending, Told};

// `utf8 yes` or `utf8 no`
pub fn utf8(bytes: &[u8]) -> Told {
    let answer = if utf8::is_utf8(bytes) { 2 } else { 1 };
    Told::new(Ending::Nothing).word(0).word(answer)
}
