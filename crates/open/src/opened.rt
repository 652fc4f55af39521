// The public call: all parts of a recording, read into five lent tables.
ghost use Rattle.std.specs.Prelude.{◌≡◌};
ghost use Rattle.open_rules.specs.Tables.{five, sizes_of, zeroed, lent, SameLent};
ghost use Rattle.open_rules.specs.Promise.{OpenPromise};
ghost use Rattle.open_rules.specs.Contract.{Ran};

use crate::lent::{clear_all, read_part};
use open_rules::{Lent, Parts, Turn};
use opening::{begin, turn};
use refusals::Refusal;
use search_rules::Part;

// The turns from the first stage on, with cleared tables.
fn run(recording: &[u8], live: bool, tables: &mut Lent) -> Result<(Parts, u64), Refusal>
    requires { lent tables.old ≡ zeroed (sizes_of (lent tables.old)) }
    ensures same { SameLent tables.new tables.old }
    ensures ran { Ran live recording.now (lent tables.old) result (lent tables.new) }
{
    let mut stage = begin(recording, live, tables)?;
    let mut known = Parts::default();
    // A `loop`: the turn that ends it tells how many heads there were.
    loop {
        match turn(recording, live, stage)? {
            Turn::Over(heads) => {
                return Ok((known, heads));
            }
            Turn::Read { which, part, next } => {
                let rows = read_part(recording, live, which, part, known.rows(which), tables)?;
                known.set(
                    which,
                    Part {
                        at: part.payload.at,
                        size: part.header.size,
                        rows,
                    },
                );
                stage = next;
            }
        }
    }
}

// The parts of a recording, each with its rows in its table, in live mode or in old mode. Before the first seek head
// they are read in file order, and the last of each stands; after it those that the heads name replace them, in the
// order Info, Tracks, Attachments, Chapters, Tags. The table of an absent part is all zeros; a refusal fills all five
// with zeros. 14: a length is broken.
pub fn open(
    recording: &[u8],
    live: bool,
    info: &mut [u64],
    tracks: &mut [u64],
    attachments: &mut [u64],
    chapters: &mut [u64],
    tags: &mut [u64],
) -> Result<(Parts, u64), Refusal>
    ensures { OpenPromise live recording.now
        (five info.old tracks.old attachments.old chapters.old
        tags.old) result
        (five info.new tracks.new attachments.new chapters.new
        tags.new) }
{
    let mut tables = Lent {
        info,
        tracks,
        attachments,
        chapters,
        tags,
    };
    clear_all(&mut tables);
    let reply = run(recording, live, &mut tables);
    if reply.is_err() {
        clear_all(&mut tables);
    }
    reply
}
