// How the reply of a call that answers a range crosses to C.
ghost use Rattle.std.specs.Prelude.{◌≡◌};
ghost use Rattle.places_rules.specs.Promise.{range_told};
ghost use Rattle.viewer_rules.specs.Faces.{range_face};

use bodies_rules::Range;
use refusals::Refusal;
use viewer_rules::UzRange;

pub fn range_face(reply: Result<Range, Refusal>) -> UzRange
    ensures { result ≡ range_face (range_told reply) }
{
    match reply {
        Ok(Range { at, length }) => UzRange {
            at,
            length,
            ..UzRange::default()
        },
        Err(refusal) => UzRange {
            refused: refusal.cause.number(),
            ..UzRange::default()
        },
    }
}
