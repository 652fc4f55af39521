// An edition of chapters: its fields, and the question for the k-th.
ghost use Rattle.std.specs.Prelude.{◌≡◌};
ghost use Rattle.fields.specs.Read.{read};
ghost use Rattle.chapters.specs.Records.{edition_of};
ghost use Rattle.chapters.specs.Told.{edition_values};
ghost use Rattle.chapters.specs.Promise.{EditionPromise};

use fields::Fields;
use kinds::{Kind, ids};
use locate::locate;
use locate_rules::{Step, Way};
use refusals::Refusal;

#[derive(Clone, Copy)]
pub struct ChapterEdition {
    pub uid: Option<u64>,
    pub hidden: Option<bool>,
    pub default: Option<bool>,
    pub ordered: Option<bool>,
    // How many chapters it has.
    pub chapters: u64,
}

// The edition, by the rows below its master.
pub fn edition_in(fields: &Fields) -> ChapterEdition
    ensures { edition_values result ≡ read edition_of fields.now }
{
    ChapterEdition {
        uid: fields.number(ids::EDITIONUID),
        hidden: fields.flag(ids::EDITIONFLAGHIDDEN),
        default: fields.flag(ids::EDITIONFLAGDEFAULT),
        ordered: fields.flag(ids::EDITIONFLAGORDERED),
        chapters: fields.count(ids::CHAPTERATOM, Kind::Master),
    }
}

// Edition k of the Chapters payload of `size` bytes from `start` on, in live mode or in old mode.
pub fn edition_at(
    recording: &[u8],
    live: bool,
    start: u64,
    size: u64,
    k: u64,
    table: &mut [u64],
) -> Result<(ChapterEdition, u64), Refusal>
    ensures { EditionPromise live recording.now start size k
        table.old result table.new }
{
    let edition = Step::Nth {
        id: ids::EDITIONENTRY,
        k,
    };
    let way = Way {
        first: edition,
        second: Step::Here,
        third: Step::Here,
    };
    let (master, rows) = locate(recording, live, start, size, ids::EDITIONENTRY, way, table)?;
    let fields = Fields {
        recording,
        table,
        master,
    };
    Ok((edition_in(&fields), rows as u64))
}
