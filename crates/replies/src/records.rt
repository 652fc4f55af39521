// The questions for records, track types and shown text, by their names.
use crate::ask_shown::shown;
use crate::ask_tracktype::tracktype;
use crate::ask_uid::list_at;
use crate::cells::told_of;
use answers::told::{Ending, Told};
use attachments::attachment_at;
use chapters::{chapter_at, display_at, edition_at};
use codes::Tracktype;
use elements::read;
use info::{family_at, info_at};
use media::audio_at;
use questions::asked::Asked;
use shown::text_range;
use tags::{simple_tag_at, tag_at, uid_at};
use tracks::track_at;

// What the answer tells; nothing for another name.
pub fn record(name: &[u8], asked: Asked, recording: &[u8], table: &mut [u64]) -> Told {
    let live = asked.live;
    let at = asked.at;
    let size = asked.size;
    let k = asked.k;
    let i = asked.i;
    match name {
        b"tracktype" => tracktype(Tracktype::new(k)),
        b"attachment" => told_of(attachment_at(recording, live, at, size, k, table)),
        b"edition" => told_of(edition_at(recording, live, at, size, k, table)),
        b"chapter" => told_of(chapter_at(recording, live, at, size, k, i, table)),
        b"display" => told_of(display_at(recording, live, at, size, k, i, asked.j, table)),
        b"tag" => told_of(tag_at(recording, live, at, size, k, table)),
        b"uid" => told_of(uid_at(recording, live, at, size, k, list_at(asked.j), i, table)),
        b"simple" => told_of(simple_tag_at(recording, live, at, size, k, i, table)),
        b"audio" => told_of(audio_at(recording, live, at, size, k, table)),
        b"track" => told_of(track_at(recording, live, at, size, k, table)),
        b"info" => told_of(info_at(recording, live, at, size, k, table)),
        b"family" => told_of(family_at(recording, live, at, size, k, i, table)),
        b"shown" => {
            let reply = read(recording, live, at, size, asked.parent, table);
            shown(reply, text_range(recording, table, asked.row))
        }
        _ => Told::new(Ending::Nothing),
    }
}
