// A member of one of the uid lists that say what a tag applies to.
ghost use Rattle.std.specs.Prelude.{◌≡◌};
ghost use Rattle.fields_rules.specs.Values.{number_in};
ghost use Rattle.fields_rules.specs.Told.{number_told};
ghost use Rattle.tags_rules.specs.Records.{member_id, member_in};
ghost use Rattle.tags_rules.specs.Promise.{UidPromise};

use children::nth_child;
use fields::{Fields, uint_in};
use kinds::{Kind, ids};
use locate::{locate, no_record};
use locate_rules::{Step, Way};
use refusals::Refusal;
use tags_rules::UidList;

// The id of a list's members.
fn member_id(list: UidList) -> u32
    ensures { result ≡ member_id list }
{
    match list {
        UidList::Track => ids::TAG_TRACK_UID,
        UidList::Edition => ids::TAG_EDITION_UID,
        UidList::Chapter => ids::TAG_CHAPTER_UID,
        UidList::Attachment => ids::TAG_ATTACHMENT_UID,
    }
}

// Member i of a uid list of the Targets `targets`; unset where there is none.
pub fn uid_in(targets: &Fields, list: UidList, i: u64) -> Option<u64>
    ensures { number_told result ≡ number_in targets.now.recording.now
        (member_in targets.now.table.now targets.now.master list i) }
{
    let (_, row) = nth_child(
        targets.table,
        targets.master,
        member_id(list),
        Kind::Uint,
        i,
    )?;
    Some(uint_in(targets.recording, row))
}

// Member i of a uid list of tag k of the Tags payload of `size` bytes from `start` on, in live mode or in old mode.
// 15: no such tag, no Targets, or no such member.
pub fn uid_at(
    recording: &[u8],
    live: bool,
    start: u64,
    size: u64,
    k: u64,
    list: UidList,
    i: u64,
    table: &mut [u64],
) -> Result<(u64, u64), Refusal>
    ensures { UidPromise live recording.now start size k list i
        table.old result table.new }
{
    let tag = Step::Nth { id: ids::TAG, k };
    let targets = Step::Last(ids::TARGETS);
    let way = Way {
        first: tag,
        second: targets,
        third: Step::Here,
    };
    let (master, rows) = locate(recording, live, start, size, ids::TAG, way, table)?;
    let fields = Fields {
        recording,
        table,
        master,
    };
    let Some(uid) = uid_in(&fields, list, i) else {
        return Err(no_record(table));
    };
    Ok((uid, rows as u64))
}
