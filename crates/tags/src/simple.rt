// A simple tag: its fields, and the question for the i-th of a tag.
ghost use Rattle.std.specs.Prelude.{◌≡◌};
ghost use Rattle.fields.specs.Read.{read};
ghost use Rattle.tags_rules.specs.Records.{simple_of};
ghost use Rattle.tags_rules.specs.Told.{simple_values};
ghost use Rattle.tags_rules.specs.Promise.{SimplePromise};

use fields::Fields;
use kinds::{Kind, ids};
use locate::locate;
use locate_rules::{Step, Way};
use refusals::Refusal;
use tags_rules::SimpleTag;

// The simple tag, by the rows below its master.
pub fn simple_tag_in(fields: &Fields) -> SimpleTag
    ensures { simple_values result ≡ read simple_of fields.now }
{
    SimpleTag {
        name: fields.content(ids::TAGNAME, Kind::Utf8),
        language: fields.language(ids::TAGLANGUAGE, ids::TAGLANGUAGE_IETF),
        default: fields.flag(ids::TAGDEFAULT),
        value: fields.value(ids::TAGSTRING, ids::TAGBINARY),
    }
}

// Simple tag i of tag k of the Tags payload of `size` bytes from `start` on, in live mode or in old mode.
pub fn simple_tag_at(
    recording: &[u8],
    live: bool,
    start: u64,
    size: u64,
    k: u64,
    i: u64,
    table: &mut [u64],
) -> Result<(SimpleTag, u64), Refusal>
    ensures { SimplePromise live recording.now start size k i
        table.old result table.new }
{
    let tag = Step::Nth { id: ids::TAG, k };
    let simple = Step::Nth {
        id: ids::SIMPLETAG,
        k: i,
    };
    let way = Way {
        first: tag,
        second: simple,
        third: Step::Here,
    };
    let (master, rows) = locate(recording, live, start, size, ids::TAG, way, table)?;
    let fields = Fields {
        recording,
        table,
        master,
    };
    Ok((simple_tag_in(&fields), rows as u64))
}
