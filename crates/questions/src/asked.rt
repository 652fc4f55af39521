// What a line asks: the words behind its first one, read by the form of its question. `open` is read in open.rt.
//
// A form has a letter for each word: `n` ID, `p` PARENT, `a` AT or START, `s` SIZE, `d` ADDRESS, `r` ROW,
// `k` K or a track type's N, `i` I, `j` J, `u` LIST, `b` BYTES, `t` NUMBERS, `l` the table's numbers themselves,
// `g` RANGE, `w` a word that the question itself reads.
ghost use Rattle.std.specs.Prelude.{◌≡◌, ◌++◌, MatchBool, IfSome};
ghost use Rattle.questions.specs.Bounds.{Lent, live_word};

use crate::table;
use crate::table::MOST_ASKED;
use bodies_rules::Range;

// What the words spell, and how many bytes of the recording and numbers of the table the call is lent: no more than
// the room for each has. Counts, and no slices of the rooms: those are lent anew for the call, the table to be written.
#[derive(Clone, Copy)]
pub struct Asked {
    // Whether the question is in live mode.
    pub live: bool,
    pub id: u32,
    pub parent: u32,
    pub at: u64,
    pub size: u64,
    pub address: u64,
    pub row: u64,
    pub k: u64,
    pub i: u64,
    // J, or the place of LIST among the lists.
    pub j: u64,
    // RANGE, where it is set.
    pub range: Option<Range>,
    pub bytes: usize,
    pub numbers: usize,
}

// Whether a line begins with `live`, and what stands behind it: the question itself.
pub fn mode(line: &[u8]) -> (bool, &[u8])
    ensures { MatchBool result.0 (line.now ≡ live_word ++ result.1.now) (line.now ≡ result.1.now) }
{
    match line.strip_prefix(b"live ") {
        Some(question) => (true, question),
        None => (false, line),
    }
}

// A form without letters is that of no question. A line that spells something else than its form asks nothing.
pub fn asked_of(
    line: &[u8],
    live: bool,
    form: &[u8],
    recording: &mut [u8; 65536],
    table: &mut [u64; MOST_ASKED],
) -> Option<Asked>
    ensures { IfSome result Lent }
{
    if form.is_empty() || words::word_count(line) != form.len() + 1 {
        return None;
    }
    let mut asked = Asked::new(live);
    for (letter, word) in form.iter().zip(line.split(|b| *b == b' ').skip(1)) {
        asked.read_word(*letter, word, recording, table)?;
    }
    Some(asked)
}

impl Asked {
    // No word yet.
    fn new(live: bool) -> Asked
        ensures { Lent result }
    {
        Asked {
            live,
            id: 0,
            parent: 0,
            at: 0,
            size: 0,
            address: 0,
            row: 0,
            k: 0,
            i: 0,
            j: 0,
            range: None,
            bytes: 0,
            numbers: 0,
        }
    }

    // Takes the word as its letter in the form says.
    fn read_word(
        &mut self,
        letter: u8,
        word: &[u8],
        recording: &mut [u8; 65536],
        table: &mut [u64; MOST_ASKED],
    ) -> Option<()>
        requires { Lent self.old }
        ensures { Lent self.new }
    {
        match letter {
            b'n' => self.id = words::id(word)?,
            b'p' => self.parent = words::id(word)?,
            b'a' => self.at = words::decimal(word)?,
            b's' => self.size = words::decimal(word)?,
            b'd' => self.address = words::decimal(word)?,
            b'r' => self.row = words::decimal(word)?,
            b'k' => self.k = words::decimal(word)?,
            b'i' => self.i = words::decimal(word)?,
            b'j' => self.j = words::decimal(word)?,
            b'u' => self.j = words::index_of(word, b"track edition chapter attachment")? as u64,
            b'b' => self.bytes = words::spell(word, recording)?,
            b't' => self.numbers = table::filled(word, table)?,
            b'l' => self.numbers = table::listed(word, table)?,
            b'g' => self.range = range_of(word)?,
            b'w' => {}
            _ => return None,
        }
        Some(())
    }
}

// RANGE: `unset`, or `ADDRESS+LENGTH`.
fn range_of(word: &[u8]) -> Option<Option<Range>> {
    if word == b"unset".as_slice() {
        return Some(None);
    }
    let plus = words::find(word, 0, b'+')?;
    let at = words::decimal(&word[..plus])?;
    let length = words::decimal(&word[plus + 1..])?;
    Some(Some(Range { at, length }))
}
