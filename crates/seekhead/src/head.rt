// One seek head: the latest positions that its entries give.
ghost use Rattle.std.specs.Prelude.{◌≡◌, [], ◌∷◌};
ghost use Rattle.seekhead_rules.specs.Table.{later as later_of, positions_from};
ghost use Rattle.walks_rules.specs.Contract.{Readable};
ghost use Rattle.seekhead_rules.specs.Contract.{inserted, entries_more, head_told};
ghost use Rattle.seekhead_rules.specs.Seeks.{segment_id};
ghost use Rattle.seekhead_rules.proofs.Members.{entries_gather};

use crate::level::{Gather, gathered};
use crate::seek::seek_body;
use crate::skim::skim_body;
use header::Headed;
use kinds::ids;
use refusals::Refusal;
use seekhead_rules::{Entries, Positions, Seek, Seektable, Wanted};

// The latest position of an id, after one more entry: the last Seek of an id wins.
fn later(old: Option<u64>, id: u32, seek: Seek) -> Option<u64>
    ensures { result ≡ later_of id old seek }
{
    if seek.id == id {
        Some(seek.position)
    } else {
        old
    }
}

// The positions of the wanted ids, after one more entry.
fn later_each(old: Positions, wanted: Wanted, seek: Seek) -> Positions
    ensures { result ≡ positions_from wanted old (seek ∷ []) }
{
    Positions {
        first: later(old.first, wanted.first, seek),
        second: later(old.second, wanted.second, seek),
        third: later(old.third, wanted.third, seek),
        fourth: later(old.fourth, wanted.fourth, seek),
        fifth: later(old.fifth, wanted.fifth, seek),
    }
}

// The table with one more entry.
fn insert(table: Seektable, wanted: Wanted, seek: Seek) -> Seektable
    ensures { result ≡ inserted wanted table (seek ∷ []) }
{
    Seektable {
        parts: later_each(table.parts, wanted, seek),
        head: later(table.head, ids::SEEKHEAD, seek),
    }
}

impl Gather for Entries {
    ghost depth = { 0 };

    ghost parent = { segment_id };

    ghost make = { entries_more };

    ghost laws = { entries_gather };

    // The table with the child of a head whose header was read: an entry if it is a Seek, else nothing more.
    fn with(self, recording: &[u8], live: bool, child: Headed) -> Result<Entries, Refusal> {
        if child.header.id == ids::SEEK {
            let seek = seek_body(recording, live, child)?;
            return Ok(Entries {
                table: insert(self.table, self.wanted, seek),
                ..self
            });
        }
        skim_body(recording, live, child, ids::SEGMENT, 0)?;
        Ok(self)
    }
}

// The positions of the wanted ids with those of a head whose header was read, and its entry for a further head.
pub fn head_body(
    recording: &[u8],
    live: bool,
    wanted: Wanted,
    parts: Positions,
    head: Headed,
) -> Result<Seektable, Refusal>
    requires { Readable recording.now head }
    ensures { result ≡ head_told live recording.now wanted parts head }
{
    let table = Seektable { parts, head: None };
    let entries = gathered(Entries { wanted, table }, recording, live, head)?;
    Ok(entries.table)
}
