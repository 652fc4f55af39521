// A chapter's first display with a set string: what the stage label shows (document 01, Records).
ghost use Rattle.std.specs.Prelude.{◌≡◌, ◌<◌};
ghost use Rattle.elements_rules.specs.Rows.{rows_of};
ghost use Rattle.fields_rules.specs.Told.{content_told};
ghost use Rattle.locate_rules.specs.Contract.{Filled, Stands};
ghost use Rattle.chapters.specs.First.{string_of, first_string};

use bodies_rules::Range;
use children::{Children, rows_below};
use fields::Fields;
use fields_rules::Below;
use kinds::{Kind, ids};

// The string of the display in row `display`.
fn string_of(recording: &[u8], table: &[u64], rows: usize, display: usize) -> Option<Range>
    requires { Filled recording.now table.now rows × (display < rows) }
    ensures { content_told result ≡ string_of recording.now (rows_of table.now rows) display }
{
    let fields = Fields {
        recording,
        table,
        master: rows_below(table, rows, display + 1),
    };
    fields.content(ids::CHAPSTRING, Kind::Utf8)
}

// The first display with a set string, of the chapter that has those rows below it.
pub fn first_string(
    recording: &[u8],
    table: &[u64],
    rows: usize,
    chapter: Below,
) -> Option<(u64, Range)>
    requires { Stands recording.now table.now rows chapter }
    ensures { result ≡ first_string recording.now (rows_of
        table.now rows) chapter.parent }
{
    let displays = Children::of(table, chapter, ids::CHAPTERDISPLAY, Kind::Master);
    for (display, (n, _)) in displays.enumerate() {
        if let Some(string) = string_of(recording, table, rows, n) {
            return Some((display as u64, string));
        }
    }
    None
}
