// What a line asks of `open`: the lengths of the five tables, and the recording.
ghost use Rattle.std.specs.Prelude.{IfSome};
ghost use Rattle.questions.specs.Bounds.{AllLent};

use crate::table::{MOST_ASKED, filled};
use words::{spell, word, word_count};

// How many bytes of the recording, and how many numbers of each table the call is lent. Counts, and no slices of the
// rooms: must-fail/recording_counted_as_a_table.edit takes one count for another.
#[derive(Clone, Copy)]
pub struct AskedOpen {
    // Whether the question is in live mode.
    pub live: bool,
    pub bytes: usize,
    pub info: usize,
    pub tracks: usize,
    pub attachments: usize,
    pub chapters: usize,
    pub tags: usize,
}

// Behind the question's name stand NUMBERS for each table, and BYTES. A line that spells something else asks nothing.
pub fn asked_open(
    line: &[u8],
    live: bool,
    recording: &mut [u8; 65536],
    info: &mut [u64; MOST_ASKED],
    tracks: &mut [u64; MOST_ASKED],
    attachments: &mut [u64; MOST_ASKED],
    chapters: &mut [u64; MOST_ASKED],
    tags: &mut [u64; MOST_ASKED],
) -> Option<AskedOpen>
    ensures { IfSome result AllLent }
{
    if word_count(line) != 7 {
        return None;
    }
    let info = filled(word(line, 1), info)?;
    let tracks = filled(word(line, 2), tracks)?;
    let attachments = filled(word(line, 3), attachments)?;
    let chapters = filled(word(line, 4), chapters)?;
    let tags = filled(word(line, 5), tags)?;
    let bytes = spell(word(line, 6), recording)?;
    Some(AskedOpen {
        live,
        bytes,
        info,
        tracks,
        attachments,
        chapters,
        tags,
    })
}
