// `uz_find_part`: a part of a recording, found and read into rows of the lent table.
ghost use Rattle.std.specs.Prelude.{◌≡◌};
ghost use Rattle.search_rules.specs.Part.{part_told};
ghost use Rattle.viewer_rules.specs.Faces.{part_face};
ghost use Rattle.viewer_rules.specs.Promise.{UzPartPromise};

use crate::mode::{NO_MODE, chosen_mode};
use refusals::Refusal;
use rowstore::clear;
use search::find_part;
use search_rules::Part;
use viewer_rules::UzPart;

// How the reply crosses to C.
fn part_face(reply: Result<(Option<Part>, u64), Refusal>) -> UzPart
    ensures { result ≡ part_face (part_told reply) }
{
    match reply {
        Ok((Some(Part { at, size, rows }), heads)) => UzPart {
            found: 1,
            at,
            size,
            rows,
            heads,
            ..UzPart::default()
        },
        Ok((None, heads)) => UzPart {
            heads,
            ..UzPart::default()
        },
        Err(Refusal { address, cause }) => UzPart {
            refused: cause.number(),
            id: u64::from(cause.id()),
            refused_at: address,
            ..UzPart::default()
        },
    }
}

pub fn uz_find_part(recording: &[u8], part: u32, table: &mut [u64], mode: u32) -> UzPart
    ensures { UzPartPromise mode recording.now part
        table.old result table.new }
{
    let Some(live) = chosen_mode(mode) else {
        clear(table);
        return part_face(Err(NO_MODE));
    };
    part_face(find_part(recording, live, part, table))
}
