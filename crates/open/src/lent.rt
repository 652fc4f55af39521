// The five lent tables: all of them are cleared, one of them is read into.
ghost use Rattle.std.specs.Prelude.{◌≡◌};
ghost use Rattle.open_rules.specs.Tables.{sizes_of, of, zeroed, lent, SameLent};
ghost use Rattle.elements_rules.specs.Contract.{ClearFrom};
ghost use Rattle.open_rules.specs.Contract.{ReadInto};

use elements::read_again;
use header::Headed;
use open_rules::{Lent, Which};
use refusals::Refusal;
use rowstore::clear;

// Fills all five with zeros.
pub fn clear_all(tables: &mut Lent)
    ensures same { SameLent tables.new tables.old }
    ensures cleared { lent tables.new ≡ zeroed (sizes_of (lent tables.old)) }
{
    clear(tables.info);
    clear(tables.tracks);
    clear(tables.attachments);
    clear(tables.chapters);
    clear(tables.tags);
}

// The public read of a part's payload into its table, under the part's parent id. The table has zeros alone behind the
// rows that it got before.
pub fn read_part(
    recording: &[u8],
    live: bool,
    which: Which,
    part: Headed,
    rows: u64,
    tables: &mut Lent,
) -> Result<u64, Refusal>
    requires { ClearFrom rows (of (lent tables.old) which) }
    ensures same { SameLent tables.new tables.old }
    ensures reads { ReadInto live recording.now which part.payload.at part.header.size
        (lent tables.old) result (lent tables.new) }
{
    let at = part.payload.at;
    let size = part.header.size;
    let parent = which.parent();
    // A read in each arm: a reference that is one of five borrows gets no proof.
    match which {
        Which::Info => read_again(recording, live, at, size, parent, rows, tables.info),
        Which::Tracks => read_again(recording, live, at, size, parent, rows, tables.tracks),
        Which::Attachments => read_again(
            recording,
            live,
            at,
            size,
            parent,
            rows,
            tables.attachments,
        ),
        Which::Chapters => read_again(recording, live, at, size, parent, rows, tables.chapters),
        Which::Tags => read_again(recording, live, at, size, parent, rows, tables.tags),
    }
}
