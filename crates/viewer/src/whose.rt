// `uz_whose_byte`: the row that holds an address of a payload, which is read into the lent table.
ghost use Rattle.std.specs.Prelude.{◌≡◌};
ghost use Rattle.places_rules.specs.Promise.{whose_told};
ghost use Rattle.viewer_rules.specs.Faces.{place_face};
ghost use Rattle.viewer_rules.specs.Promise.{UzPlacePromise};

use crate::mode::{NO_MODE, chosen_mode};
use places::whose_byte;
use places_rules::WhoseRow;
use refusals::Refusal;
use rowstore::clear;
use viewer_rules::UzPlace;

// How the reply crosses to C.
fn place_face(reply: Result<WhoseRow, Refusal>) -> UzPlace
    ensures { result ≡ place_face (whose_told reply) }
{
    match reply {
        Ok(WhoseRow::Header { row, rows }) => UzPlace {
            row,
            rows,
            ..UzPlace::default()
        },
        Ok(WhoseRow::Payload { row, rows }) => UzPlace {
            row,
            in_payload: 1,
            rows,
            ..UzPlace::default()
        },
        Err(Refusal { address, cause }) => UzPlace {
            refused: cause.number(),
            refused_at: address,
            ..UzPlace::default()
        },
    }
}

pub fn uz_whose_byte(
    recording: &[u8],
    start: u64,
    size: u64,
    parent: u32,
    address: u64,
    table: &mut [u64],
    mode: u32,
) -> UzPlace
    ensures { UzPlacePromise mode recording.now start size parent address
        table.old result table.new }
{
    let Some(live) = chosen_mode(mode) else {
        clear(table);
        return place_face(Err(NO_MODE));
    };
    place_face(whose_byte(recording, live, start, size, parent, address, table))
}
