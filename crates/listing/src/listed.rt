// The lines of the listing.
ghost use Rattle.std.specs.Prelude.{◌≡◌, ◌+◌, ◌*◌, ◌≤◌, length};
ghost use Rattle.pages.specs.Page.{Grew, room};
ghost use Rattle.rowtext.specs.Room.{line_room};
ghost use Rattle.listing_rules.specs.Listing.{place_text, part_lines, all_parts, table_numbers};
ghost use Rattle.listing_rules.specs.Room.{part_room};
ghost use Rattle.listing_rules.specs.Promise.{ListingPromise};

use kinds::ids;
use pages::Page;
use rowstore::WIDTH;
use rowtext::row_lines;
use search::find_part;

// The most bytes of a recording that is listed.
const MOST_LISTED: usize = 65536;

// The numbers of the table that the parts are read into: 1,024 rows.
const TABLE: usize = 1024 * WIDTH;

// How many bytes the page has: room for the longest listing.
pub const PAGE: usize = 524928;

// Where a part is: its payload's address and size, and how many rows it has.
fn place_text(page: &mut Page, at: u64, size: u64, rows: u64)
    requires { page.old.held + line_room ≤ room page.old }
    ensures wrote { Grew page.old (place_text at size rows) page.new }
    ensures upper_bound { page.new.held ≤ page.old.held + 80 }
{
    page.put_decimal(b" at ", at);
    page.put_decimal(b" size ", size);
    page.put_decimal(b" rows ", rows);
    page.put(b"\n");
}

// A part's line, and its rows directly under it.
fn part_lines(page: &mut Page, recording: &[u8], live: bool, part: u32, table: &mut [u64])
    requires table_len { length table.old ≡ table_numbers }
    requires part_room_in_bounds { page.old.held + part_room ≤ room page.old }
    ensures wrote { Grew page.old (part_lines live recording.now part) page.new }
    ensures upper_bound { page.new.held ≤ page.old.held + part_room }
{
    page.put_hexadecimal(b"part ", part as u64);
    match find_part(recording, live, part, table) {
        Ok((None, _)) => page.put(b" absent\n"),
        Ok((Some(found), heads)) => {
            place_text(page, found.at, found.size, found.rows);
            row_lines(page, table, found.rows as usize);
        }
        Err(refusal) => {
            page.put_decimal(b" refused ", refusal.cause.number());
            page.put_decimal(b" ", refusal.address);
            page.put(b"\n");
        }
    }
}

// The lines of the four parts, each read into the same table.
fn all_parts(page: &mut Page, recording: &[u8], live: bool, table: &mut [u64])
    requires table_len { length table.old ≡ table_numbers }
    requires part_room_in_bounds { page.old.held + 4 * part_room ≤ room page.old }
    ensures wrote { Grew page.old (all_parts live recording.now) page.new }
    ensures upper_bound { page.new.held ≤ page.old.held + 4 * part_room }
{
    part_lines(page, recording, live, ids::TRACKS, table);
    part_lines(page, recording, live, ids::ATTACHMENTS, table);
    part_lines(page, recording, live, ids::CHAPTERS, table);
    part_lines(page, recording, live, ids::TAGS, table);
}

// Writes the listing, in live mode or in old mode, at the start of the page, and answers how many bytes it has. A
// recording of more than 65,536 bytes is refused with 14.
pub fn listing(recording: &[u8], live: bool, page: &mut [u8; PAGE]) -> usize
    ensures { ListingPromise live recording.now page.old result page.new }
{
    let mut text = Page {
        bytes: page,
        held: 0,
    };
    if MOST_LISTED < recording.len() {
        text.put(b"refused 14\n");
        return text.held;
    }
    text.put_decimal(b"recording ", recording.len() as u64);
    text.put(b"\n");
    let mut table = [0u64; TABLE];
    all_parts(&mut text, recording, live, &mut table);
    text.held
}
