// The words of a line: how they are parted, and the numbers and bytes that they spell.
#![tactic(auto)]

ghost use Rattle.std.specs.Prelude.{◌≡◌, ◌<◌, ◌≤◌, length, IfSome, unwrap_or, position, ◌==◌, bytes_eq};
ghost use Rattle.words.specs.Words.{Few, First, word_of, words_of};

// A recording of a question has at most so many bytes.
const MOST: usize = 65536;

// The place of the next byte of that value from `from` on.
pub fn find(bytes: &[u8], from: usize, byte: u8) -> Option<usize>
    requires { from ≤ length bytes.now }
    ensures first { First bytes.now from byte (unwrap_or result (length bytes.now)) }
    ensures inside { IfSome result (λ r. r < length bytes.now) }
{
    Some(from + place(&bytes[from..], byte)?)
}

// The place of the first byte of that value.
fn place(bytes: &[u8], byte: u8) -> Option<usize>
    ensures { result ≡ position (λ b. b == byte) bytes.now }
{
    bytes.iter().position(|b| *b == byte)
}

// How many words the line has: one more than it has spaces.
pub fn word_count(line: &[u8]) -> usize
    ensures { result ≡ length (words_of line.now) }
{
    line.split(|b| *b == b' ').count()
}

// The k-th word, counted from 0; nothing where the line has fewer.
pub fn word(line: &[u8], k: usize) -> &[u8]
    ensures { result.now ≡ word_of k line.now }
{
    line.split(|b| *b == b' ').nth(k).unwrap_or(&[])
}

// The place of a word among the words of a list.
pub fn index_of(word: &[u8], list: &[u8]) -> Option<usize>
    ensures { result ≡ position (λ w. bytes_eq w word.now) (words_of list.now) }
{
    list.split(|b| *b == b' ').position(|w| w == word)
}

// A decimal number that fits 64 bits.
pub fn decimal(word: &[u8]) -> Option<u64> {
    number(word, 10)
}

// An id in hexadecimal digits, of at most 32 bits; zeros in front count for nothing.
pub fn id(word: &[u8]) -> Option<u32> {
    u32::try_from(number(word, 16)?).ok()
}

// The number that the digits of that base spell, where it fits 64 bits.
fn number(word: &[u8], base: u32) -> Option<u64>
    requires { (2 ≤ base) × (base ≤ 36) }
{
    if word.is_empty() {
        return None;
    }
    let mut value: u64 = 0;
    for b in word {
        let digit = char::from(*b).to_digit(base)?;
        value = value
            .checked_mul(u64::from(base))?
            .checked_add(u64::from(digit))?;
    }
    Some(value)
}

// Puts the bytes that the word spells at the start of `bytes`, and tells how many they are: hexadecimal digits, or `-`
// for none.
pub fn spell(word: &[u8], bytes: &mut [u8; 65536]) -> Option<usize>
    ensures { IfSome result Few }
{
    if word == b"-".as_slice() {
        return Some(0);
    }
    let (pairs, rest) = word.as_chunks::<2>();
    if pairs.is_empty() || !rest.is_empty() || MOST < pairs.len() {
        return None;
    }
    for (byte, [high, low]) in bytes.iter_mut().zip(pairs) {
        *byte = hex_digit(*high)? * 16 + hex_digit(*low)?;
    }
    Some(pairs.len())
}

// What a hexadecimal digit counts.
fn hex_digit(b: u8) -> Option<u8>
    ensures { IfSome result (λ d. d < 16) }
{
    let digit = char::from(b).to_digit(16)?;
    Some(digit as u8)
}
