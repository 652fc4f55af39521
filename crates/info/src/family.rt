// A family that the recording belongs to: the question for the i-th.
ghost use Rattle.std.specs.Prelude.{◌≡◌};
ghost use Rattle.fields_rules.specs.Values.{content_in};
ghost use Rattle.fields_rules.specs.Told.{content_told};
ghost use Rattle.info_rules.specs.Records.{family_in};
ghost use Rattle.info_rules.specs.Promise.{FamilyPromise};

use bodies_rules::Range;
use children::nth_child;
use fields::{Fields, range_of};
use kinds::{Kind, ids};
use locate::{locate, no_record};
use locate_rules::{Step, Way};
use refusals::Refusal;

// The uid of family i of an Info; unset where there is none. The recording itself is not looked at.
pub fn family_in(fields: &Fields, i: u64) -> Option<Range>
    ensures { content_told result ≡ content_in (family_in fields.now.table.now fields.now.master i) }
{
    let (_, row) = nth_child(
        fields.table,
        fields.master,
        ids::SEGMENTFAMILY,
        Kind::Binary,
        i,
    )?;
    Some(range_of(row))
}

// The uid of family i of the Info payload of `size` bytes from `start` on, in live mode or in old mode. 15: k is not 0,
// or there is no such family.
pub fn family_at(
    recording: &[u8],
    live: bool,
    start: u64,
    size: u64,
    k: u64,
    i: u64,
    table: &mut [u64],
) -> Result<(Range, u64), Refusal>
    ensures { FamilyPromise live recording.now start size k i
        table.old result table.new }
{
    let way = Way {
        first: Step::Only(k),
        second: Step::Here,
        third: Step::Here,
    };
    let (master, rows) = locate(recording, live, start, size, ids::INFO, way, table)?;
    let fields = Fields {
        recording,
        table,
        master,
    };
    let Some(uid) = family_in(&fields, i) else {
        return Err(no_record(table));
    };
    Ok((uid, rows as u64))
}
