// Whether bytes are UTF-8 (RFC 3629, section 4): one pass, eight bytes at a time over ASCII.
#![tactic(auto)]

ghost use Rattle.std.specs.Prelude.{◌≡◌, true, ◌&&◌, [], ◌<◌, ◌≤◌, ◌++◌, List, ℕ, false, MatchOption, length};
ghost use Rattle.std.specs.List.{list_all};
ghost use Rattle.utf8.specs.Utf8.{within, utf8_tail, utf8_char, behind, goes_on};
ghost use Rattle.utf8.specs.Leads.{noted, others};
ghost use Rattle.utf8.specs.Promise.{Utf8Promise};

// What the first byte of a longer character tells of the others: the range of the second byte, and how many
// tails stand behind that.
#[derive(Clone, Copy)]
struct Lead {
    low: u8,
    high: u8,
    tails: usize,
}

// An arm for each alternative of the grammar that has two bytes or more, and one for the bytes that begin none.
fn lead_of(first: u8) -> Option<Lead>
    requires { 0x80 ≤ first }
    ensures { behind utf8_char first ≡ noted result }
{
    let lead = match first {
        0xc2..=0xdf => Lead {
            low: 0x80,
            high: 0xbf,
            tails: 0,
        },
        0xe0..=0xe0 => Lead {
            low: 0xa0,
            high: 0xbf,
            tails: 1,
        },
        0xe1..=0xec => Lead {
            low: 0x80,
            high: 0xbf,
            tails: 1,
        },
        0xed..=0xed => Lead {
            low: 0x80,
            high: 0x9f,
            tails: 1,
        },
        0xee..=0xef => Lead {
            low: 0x80,
            high: 0xbf,
            tails: 1,
        },
        0xf0..=0xf0 => Lead {
            low: 0x90,
            high: 0xbf,
            tails: 2,
        },
        0xf1..=0xf3 => Lead {
            low: 0x80,
            high: 0xbf,
            tails: 2,
        },
        0xf4..=0xf4 => Lead {
            low: 0x80,
            high: 0x8f,
            tails: 2,
        },
        _ => return None,
    };
    Some(lead)
}

fn is_tail(byte: u8) -> bool
    ensures { result ≡ within utf8_tail byte }
{
    matches!(byte, 0x80..=0xbf)
}

// Whether each of the bytes is a tail. A lead tells of two at most; these take no loop, which is faster.
fn are_tails(bytes: &[u8]) -> bool
    ensures { result ≡ list_all (within utf8_tail) bytes.now }
{
    match bytes {
        [] => true,
        [third] => is_tail(*third),
        [third, fourth] => is_tail(*third) && is_tail(*fourth),
        _ => bytes.iter().all(|byte| is_tail(*byte)),
    }
}

impl Lead {
    // What stands behind the character, where the bytes behind its first one go on as they have to.
    fn past(self, bytes: &[u8]) -> Option<&[u8]>
        ensures { MatchOption result
            (goes_on (others self) bytes.now ≡ false)
            (λ rest. (goes_on (others self) bytes.now ≡ goes_on [] rest.now) × (length rest.now ≤ length bytes.now)) }
    {
        let [second, more @ ..] = bytes else {
            return None;
        };
        if *second < self.low || self.high < *second {
            return None;
        }
        if more.len() < self.tails {
            return None;
        }
        let (tails, rest) = more.split_at(self.tails);
        if are_tails(tails) { Some(rest) } else { None }
    }
}

// Whether eight bytes are ASCII: none has its high bit. The compiler makes one load of the eight, the last of
// which is the highest of the word.
fn are_ascii(eight: &[u8; 8]) -> bool
    ensures { result ≡ true
        → ((s : List ℕ) → goes_on [] (eight.now ++ s) ≡ goes_on [] s) }
{
    u64::from_le_bytes(*eight) & 0x8080_8080_8080_8080 == 0
}

// What is left behind the ASCII that the bytes begin with, eight bytes at a time.
fn past_ascii(bytes: &[u8]) -> &[u8]
    ensures { (goes_on [] bytes.now ≡ goes_on [] result.now) × (length result.now ≤ length bytes.now) }
{
    let (eights, rest) = bytes.as_chunks::<8>();
    match eights.iter().position(|eight| !are_ascii(eight)) {
        Some(passed) => &bytes[8 * passed..],
        None => rest,
    }
}

// Whether the bytes are UTF-8.
pub fn is_utf8(bytes: &[u8]) -> bool
    ensures { Utf8Promise bytes.now result }
{
    let mut rest = bytes;
    while let [first, more @ ..] = rest {
        if first.is_ascii() {
            rest = past_ascii(more);
            continue;
        }
        let Some(lead) = lead_of(*first) else {
            return false;
        };
        let Some(behind) = lead.past(more) else {
            return false;
        };
        rest = behind;
    }
    true
}
