// `uz_open`: all parts of a recording, each read into rows of a lent table of its own.
ghost use Rattle.std.specs.Prelude.{◌≡◌};
ghost use Rattle.open_rules.specs.Tables.{five};
ghost use Rattle.viewer_rules.specs.Faces.{found_face, opened_face};
ghost use Rattle.viewer_rules.specs.Promise.{UzOpenPromise};

use crate::mode::{NO_MODE, chosen_mode};
use open::open;
use open_rules::Parts;
use refusals::Refusal;
use rowstore::clear;
use search_rules::Part;
use viewer_rules::{UzFound, UzOpened};

// How one of the parts crosses to C.
fn found_face(part: Option<Part>) -> UzFound
    ensures { result ≡ found_face part }
{
    match part {
        None => UzFound::default(),
        Some(Part { at, size, rows }) => UzFound {
            found: 1,
            at,
            size,
            rows,
        },
    }
}

// How the reply crosses to C.
fn opened_face(reply: Result<(Parts, u64), Refusal>) -> UzOpened
    ensures { result ≡ opened_face reply }
{
    match reply {
        Ok((parts, heads)) => UzOpened {
            heads,
            info: found_face(parts.info),
            tracks: found_face(parts.tracks),
            attachments: found_face(parts.attachments),
            chapters: found_face(parts.chapters),
            tags: found_face(parts.tags),
            ..UzOpened::default()
        },
        Err(Refusal { address, cause }) => UzOpened {
            refused: cause.number(),
            id: u64::from(cause.id()),
            refused_at: address,
            ..UzOpened::default()
        },
    }
}

pub fn uz_open(
    recording: &[u8],
    info: &mut [u64],
    tracks: &mut [u64],
    attachments: &mut [u64],
    chapters: &mut [u64],
    tags: &mut [u64],
    mode: u32,
) -> UzOpened
    ensures { UzOpenPromise mode recording.now
        (five info.old tracks.old attachments.old chapters.old
        tags.old) result
        (five info.new tracks.new attachments.new chapters.new
        tags.new) }
{
    let Some(live) = chosen_mode(mode) else {
        clear(info);
        clear(tracks);
        clear(attachments);
        clear(chapters);
        clear(tags);
        return opened_face(Err(NO_MODE));
    };
    opened_face(open(recording, live, info, tracks, attachments, chapters, tags))
}
