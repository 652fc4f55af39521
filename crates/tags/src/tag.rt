// A tag: what it applies to and how many simple tags it has, and the question for the k-th.
ghost use Rattle.std.specs.Prelude.{◌≡◌};
ghost use Rattle.elements_rules.specs.Rows.{rows_of};
ghost use Rattle.fields.specs.Read.{read};
ghost use Rattle.locate_rules.specs.Contract.{Stands};
ghost use Rattle.tags_rules.specs.Records.{target_of, targets_of, tag_of};
ghost use Rattle.tags_rules.specs.Told.{target_values, targets_values, tag_values};
ghost use Rattle.tags_rules.specs.Promise.{TagPromise};

use children::{count_children, last_child, rows_below};
use fields::Fields;
use fields_rules::Below;
use kinds::{Kind, ids};
use locate::locate;
use locate_rules::{Step, Way};
use refusals::Refusal;
use tags_rules::{Tag, Target};

// What a tag applies to, by the rows below its Targets.
pub fn target_in(fields: &Fields) -> Target
    ensures { target_values result ≡ read target_of fields.now }
{
    Target {
        target_type_value: fields.number(ids::TARGETTYPEVALUE),
        target_type: fields.content(ids::TARGETTYPE, Kind::String),
        tracks: fields.count(ids::TAG_TRACK_UID, Kind::Uint),
        editions: fields.count(ids::TAG_EDITION_UID, Kind::Uint),
        chapters: fields.count(ids::TAG_CHAPTER_UID, Kind::Uint),
        attachments: fields.count(ids::TAG_ATTACHMENT_UID, Kind::Uint),
    }
}

// The last Targets alone counts.
pub fn targets_in(recording: &[u8], table: &[u64], rows: usize, master: Below) -> Option<Target>
    requires { Stands recording.now table.now rows master }
    ensures { targets_values result ≡ targets_of recording.now (rows_of
        table.now rows) master.parent }
{
    let (number, _) = last_child(table, master, ids::TARGETS, Kind::Master)?;
    let fields = Fields {
        recording,
        table,
        master: rows_below(table, rows, number + 1),
    };
    Some(target_in(&fields))
}

// The tag, by the rows below its master and those below its last Targets.
pub fn tag_in(recording: &[u8], table: &[u64], rows: usize, master: Below) -> Tag
    requires { Stands recording.now table.now rows master }
    ensures { tag_values result ≡ tag_of recording.now (rows_of
        table.now rows) master.parent }
{
    Tag {
        targets: targets_in(recording, table, rows, master),
        simple: count_children(table, master, ids::SIMPLETAG, Kind::Master),
    }
}

// Tag k of the Tags payload of `size` bytes from `start` on, in live mode or in old mode.
pub fn tag_at(
    recording: &[u8],
    live: bool,
    start: u64,
    size: u64,
    k: u64,
    table: &mut [u64],
) -> Result<(Tag, u64), Refusal>
    ensures { TagPromise live recording.now start size k
        table.old result table.new }
{
    let tag = Step::Nth { id: ids::TAG, k };
    let way = Way {
        first: tag,
        second: Step::Here,
        third: Step::Here,
    };
    let (master, rows) = locate(recording, live, start, size, ids::TAG, way, table)?;
    Ok((tag_in(recording, table, rows, master), rows as u64))
}
