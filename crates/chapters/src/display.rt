// What a chapter is shown as: its fields, and the question for the j-th of a chapter.
ghost use Rattle.std.specs.Prelude.{◌≡◌};
ghost use Rattle.fields.specs.Read.{read};
ghost use Rattle.chapters.specs.Records.{display_of};
ghost use Rattle.chapters.specs.Told.{display_values};
ghost use Rattle.chapters.specs.Promise.{DisplayPromise};

use bodies_rules::Range;
use fields::Fields;
use fields_rules::Language;
use kinds::{Kind, ids};
use locate::locate;
use locate_rules::{Step, Way};
use refusals::Refusal;

#[derive(Clone, Copy)]
pub struct ChapterDisplay {
    pub string: Option<Range>,
    pub language: Option<Language>,
}

// The display, by the rows below its master.
pub fn display_in(fields: &Fields) -> ChapterDisplay
    ensures { display_values result ≡ read display_of fields.now }
{
    ChapterDisplay {
        string: fields.content(ids::CHAPSTRING, Kind::Utf8),
        language: fields.language(ids::CHAPLANGUAGE, ids::CHAPLANGUAGE_IETF),
    }
}

// Display j of chapter i of edition k of the Chapters payload of `size` bytes from `start` on, in live mode or in old
// mode.
pub fn display_at(
    recording: &[u8],
    live: bool,
    start: u64,
    size: u64,
    k: u64,
    i: u64,
    j: u64,
    table: &mut [u64],
) -> Result<(ChapterDisplay, u64), Refusal>
    ensures { DisplayPromise live recording.now start size k i j
        table.old result table.new }
{
    let edition = Step::Nth {
        id: ids::EDITIONENTRY,
        k,
    };
    let atom = Step::Nth {
        id: ids::CHAPTERATOM,
        k: i,
    };
    let shown = Step::Nth {
        id: ids::CHAPTERDISPLAY,
        k: j,
    };
    let way = Way {
        first: edition,
        second: atom,
        third: shown,
    };
    let (master, rows) = locate(recording, live, start, size, ids::EDITIONENTRY, way, table)?;
    let fields = Fields {
        recording,
        table,
        master,
    };
    Ok((display_in(&fields), rows as u64))
}
