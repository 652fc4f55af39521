// The address question: the one row whose header or leaf payload holds an address, and which of the two.
ghost use Rattle.std.specs.Prelude.{◌≡◌, ◌/◌, ◌≤◌, length};
ghost use Rattle.elements_rules.specs.Rows.{width, rows_of};
ghost use Rattle.elements_rules.specs.Holds.{within};
ghost use Rattle.places_rules.specs.Whose.{holder_in, whose_in};
ghost use Rattle.places_rules.specs.Promise.{whose_told, WhosePromise};

use elements::fill;
use elements_rules::Row;
use kinds::MASTER;
use places_rules::{Holder, WhoseRow};
use refusals::{Cause, Refusal};
use rowstore::{clear, is_allowed, row_at};

// Whether the address is one of `size` bytes from `start` on; start plus size may pass 2^64.
pub fn is_within(start: u64, size: u64, address: u64) -> bool
    ensures { result ≡ within start size address }
{
    start <= address && address - start < size
}

// A header is its row's own, and so is a leaf's payload; a master's payload is its children's.
fn held_by(row: Row, address: u64) -> Option<Holder>
    ensures { result ≡ holder_in row address }
{
    if address < row.address {
        return None;
    }
    let past = address - row.address;
    if past < row.header {
        return Some(Holder::Header);
    }
    if row.kind == MASTER {
        return None;
    }
    let into = past - row.header;
    if into < row.payload {
        return Some(Holder::Payload);
    }
    None
}

// The first of the table's rows that holds the address.
fn find(table: &[u64], rows: usize, address: u64) -> Result<WhoseRow, Refusal>
    requires { rows ≤ length table.now / width }
    ensures { whose_told result ≡ whose_in (rows_of table.now rows) 0 rows address }
{
    for n in 0..rows {
        match held_by(row_at(table, n), address) {
            Some(Holder::Header) => {
                return Ok(WhoseRow::Header {
                    row: n as u64,
                    rows: rows as u64,
                });
            }
            Some(Holder::Payload) => {
                return Ok(WhoseRow::Payload {
                    row: n as u64,
                    rows: rows as u64,
                });
            }
            None => {}
        }
    }
    Err(Cause::Outside.at(0))
}

// Reads the payload of `size` bytes from `start` on into the table, in live mode or in old mode, and names the row that
// holds the address. 14: a length is broken, or the start is past the end; then 15: the address is outside the payload
// that the caller named.
pub fn whose_byte(
    recording: &[u8],
    live: bool,
    start: u64,
    size: u64,
    parent: u32,
    address: u64,
    table: &mut [u64],
) -> Result<WhoseRow, Refusal>
    ensures { WhosePromise live recording.now start size parent address
        table.old result table.new }
{
    clear(table);
    if !is_allowed(recording, start, table) {
        return Err(Cause::BadArgument.at(0));
    }
    if !is_within(start, size, address) {
        return Err(Cause::Outside.at(0));
    }
    let rows = fill(recording, live, start, size, parent, table)?;
    find(table, rows as usize, address)
}
