// The master that a record question asks for: the payload is read into the table, and one step is taken for each level.
ghost use Rattle.std.specs.Prelude.{◌≡◌, ◌≤◌, length};
ghost use Rattle.refusals.specs.Refusals.{no_record};
ghost use Rattle.elements_rules.specs.Promise.{zeros};
ghost use Rattle.elements_rules.specs.Rows.{rows_of};
ghost use Rattle.fields_rules.specs.Contract.{Ordered};
ghost use Rattle.locate_rules.specs.Steps.{spot_of, stepped};
ghost use Rattle.locate_rules.specs.Asked.{asked};
ghost use Rattle.locate_rules.specs.Contract.{Numbered, FindMet, LocateMet};

use children::{last_child, nth_child, rows_below};
use elements::read;
use elements_rules::Row;
use fields_rules::Below;
use kinds::Kind;
use locate_rules::{Step, Way};
use refusals::{Cause, Refusal};
use rowstore::clear;

// A child as a master: its row number plus 1.
fn spot_of(child: Option<(usize, Row)>) -> Option<usize>
    requires { Numbered child }
    ensures { result ≡ spot_of child }
{
    let (number, _) = child?;
    Some(number + 1)
}

// One step on from a master.
fn enter(table: &[u64], rows: usize, parent: usize, step: Step) -> Option<usize>
    requires { Ordered table.now rows × (parent ≤ rows) }
    ensures { result ≡ stepped (rows_of table.now rows) parent step }
{
    match step {
        Step::Here | Step::Only(0) => Some(parent),
        Step::Only(_) => None,
        Step::Nth { id, k } => {
            let master = rows_below(table, rows, parent);
            spot_of(nth_child(table, master, id, Kind::Master, k))
        }
        Step::Last(id) => {
            let master = rows_below(table, rows, parent);
            spot_of(last_child(table, master, id, Kind::Master))
        }
    }
}

// From the payload that was read, a step for each level: the rows below the master that they lead to.
pub fn find(table: &[u64], rows: usize, way: Way) -> Option<Below>
    requires { Ordered table.now rows }
    ensures { FindMet table.now rows way result }
{
    let one = enter(table, rows, 0, way.first)?;
    let two = enter(table, rows, one, way.second)?;
    let parent = enter(table, rows, two, way.third)?;
    Some(rows_below(table, rows, parent))
}

// The refusal where there is no such record, 15: the table is left as zeros.
pub fn no_record(table: &mut [u64]) -> Refusal
    ensures { (result ≡ no_record) × (table.new ≡ zeros (length table.old)) }
{
    clear(table);
    Refusal {
        address: 0,
        cause: Cause::Outside,
    }
}

// Reads the payload of `size` bytes from `start` on into the table, in live mode or in old mode, and goes to the
// master. 15: there is none.
pub fn locate(
    recording: &[u8],
    live: bool,
    start: u64,
    size: u64,
    parent: u32,
    way: Way,
    table: &mut [u64],
) -> Result<(Below, usize), Refusal>
    ensures { LocateMet recording.now
        (asked live recording.now start size parent (length table.old) way)
        (length table.old) result table.new }
{
    let rows = read(recording, live, start, size, parent, table)? as usize;
    let Some(master) = find(table, rows, way) else {
        return Err(no_record(table));
    };
    Ok((master, rows))
}
