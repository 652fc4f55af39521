// The functions that C calls, by their names in include/uzrafmed.h: each is the function of crates/viewer of the same
// name, with its promise. A crate is a library or a static library, and this one is the static library over that.
#![tactic(auto)]

ghost use Rattle.open_rules.specs.Tables.{five};
ghost use Rattle.viewer_rules.specs.Promise.{
  UzPartPromise,
  UzRangePromise,
  UzTextPromise,
  UzPlacePromise,
  UzOwnerPromise,
  UzChainPromise,
  UzOpenPromise,
};

use viewer_rules::{UzOpened, UzOwned, UzPart, UzPlace, UzRange};

#[unsafe(no_mangle)]
pub extern "C" fn uz_open(
    recording: &[u8],
    info: &mut [u64],
    tracks: &mut [u64],
    attachments: &mut [u64],
    chapters: &mut [u64],
    tags: &mut [u64],
    mode: u32,
) -> UzOpened
    ensures { UzOpenPromise mode recording.now
        (five info.old tracks.old attachments.old chapters.old
        tags.old) result
        (five info.new tracks.new attachments.new chapters.new
        tags.new) }
{
    viewer::uz_open(recording, info, tracks, attachments, chapters, tags, mode)
}

#[unsafe(no_mangle)]
pub extern "C" fn uz_find_part(recording: &[u8], part: u32, table: &mut [u64], mode: u32) -> UzPart
    ensures { UzPartPromise mode recording.now part
        table.old result table.new }
{
    viewer::uz_find_part(recording, part, table, mode)
}

#[unsafe(no_mangle)]
pub extern "C" fn uz_row_payload(recording: &[u8], table: &[u64], row: u64) -> UzRange
    ensures { UzRangePromise recording.now table.now row result }
{
    viewer::uz_row_payload(recording, table, row)
}

#[unsafe(no_mangle)]
pub extern "C" fn uz_shown_text(recording: &[u8], table: &[u64], row: u64) -> UzRange
    ensures { UzTextPromise recording.now table.now row result }
{
    viewer::uz_shown_text(recording, table, row)
}

#[unsafe(no_mangle)]
pub extern "C" fn uz_whose_byte(
    recording: &[u8],
    start: u64,
    size: u64,
    parent: u32,
    address: u64,
    table: &mut [u64],
    mode: u32,
) -> UzPlace
    ensures { UzPlacePromise mode recording.now start size parent address
        table.old result table.new }
{
    viewer::uz_whose_byte(recording, start, size, parent, address, table, mode)
}

#[unsafe(no_mangle)]
pub extern "C" fn uz_owner(
    recording: &[u8],
    start: u64,
    size: u64,
    parent: u32,
    address: u64,
    mode: u32,
) -> UzOwned
    ensures { UzOwnerPromise mode recording.now start size parent address result }
{
    viewer::uz_owner(recording, start, size, parent, address, mode)
}

#[unsafe(no_mangle)]
pub extern "C" fn uz_owner_chain(
    recording: &[u8],
    start: u64,
    size: u64,
    parent: u32,
    address: u64,
    chain: &mut [u64],
    mode: u32,
) -> UzOwned
    ensures { UzChainPromise mode recording.now start size parent address
        chain.old result chain.new }
{
    viewer::uz_owner_chain(recording, start, size, parent, address, chain, mode)
}
