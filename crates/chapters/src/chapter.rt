// A chapter: its fields, and the question for the i-th of an edition. Times are in nanoseconds.
ghost use Rattle.std.specs.Prelude.{◌≡◌};
ghost use Rattle.fields.specs.Read.{read};
ghost use Rattle.chapters.specs.Records.{chapter_of};
ghost use Rattle.chapters.specs.Told.{chapter_values};
ghost use Rattle.chapters.specs.Promise.{ChapterPromise};

use bodies_rules::Range;
use fields::Fields;
use kinds::{Kind, ids};
use locate::locate;
use locate_rules::{Step, Way};
use refusals::Refusal;

#[derive(Clone, Copy)]
pub struct Chapter {
    pub uid: Option<u64>,
    pub time_start: Option<u64>,
    pub time_end: Option<u64>,
    pub hidden: Option<bool>,
    pub enabled: Option<bool>,
    pub segment_uid: Option<Range>,
    pub segment_edition_uid: Option<u64>,
    // How many displays it has.
    pub displays: u64,
}

// The chapter, by the rows below its master.
pub fn chapter_in(fields: &Fields) -> Chapter
    ensures { chapter_values result ≡ read chapter_of fields.now }
{
    Chapter {
        uid: fields.number(ids::CHAPTERUID),
        time_start: fields.number(ids::CHAPTERTIMESTART),
        time_end: fields.number(ids::CHAPTERTIMEEND),
        hidden: fields.flag(ids::CHAPTERFLAGHIDDEN),
        enabled: fields.flag(ids::CHAPTERFLAGENABLED),
        segment_uid: fields.content(ids::CHAPTERSEGMENTUID, Kind::Binary),
        segment_edition_uid: fields.number(ids::CHAPTERSEGMENTEDITIONUID),
        displays: fields.count(ids::CHAPTERDISPLAY, Kind::Master),
    }
}

// Chapter i of edition k of the Chapters payload of `size` bytes from `start` on, in live mode or in old mode.
pub fn chapter_at(
    recording: &[u8],
    live: bool,
    start: u64,
    size: u64,
    k: u64,
    i: u64,
    table: &mut [u64],
) -> Result<(Chapter, u64), Refusal>
    ensures { ChapterPromise live recording.now start size k i
        table.old result table.new }
{
    let edition = Step::Nth {
        id: ids::EDITIONENTRY,
        k,
    };
    let atom = Step::Nth {
        id: ids::CHAPTERATOM,
        k: i,
    };
    let way = Way {
        first: edition,
        second: atom,
        third: Step::Here,
    };
    let (master, rows) = locate(recording, live, start, size, ids::EDITIONENTRY, way, table)?;
    let fields = Fields {
        recording,
        table,
        master,
    };
    Ok((chapter_in(&fields), rows as u64))
}
