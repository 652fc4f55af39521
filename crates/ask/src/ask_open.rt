// `open N N N N N BYTES`: all parts of a recording at once, each read into a table of its own.
ghost use Rattle.std.specs.Prelude.{◌≤◌, length};

use crate::rooms::Rooms;
use answers::answer::bad;
use answers::open::{put_absent, put_found, put_unopened};
use lines::out::Out;
use questions::open::{AskedOpen, asked_open};
use search_rules::Part;

// The answer to a line whose question is `open`.
pub fn open(line: &[u8], live: bool, rooms: &mut Rooms, out: &mut Out) {
    let Rooms {
        recording,
        info,
        tracks,
        attachments,
        chapters,
        tags,
    } = rooms;
    let asked = asked_open(
        line,
        live,
        recording,
        info,
        tracks,
        attachments,
        chapters,
        tags,
    );
    match asked {
        Some(asked) => put_open(
            asked,
            recording,
            info,
            tracks,
            attachments,
            chapters,
            tags,
            out,
        ),
        None => bad(out),
    }
}

// `heads H` and the parts, or the refusal. The call is lent the parts of the rooms that the words filled; the tables
// stand apart, as `open` takes them.
fn put_open(
    asked: AskedOpen,
    recording: &[u8],
    info: &mut [u64],
    tracks: &mut [u64],
    attachments: &mut [u64],
    chapters: &mut [u64],
    tags: &mut [u64],
    out: &mut Out,
)
    requires { (asked.bytes ≤ length recording.now) × (asked.info ≤ length info.old)
        × (asked.tracks ≤ length tracks.old) × (asked.attachments ≤ length attachments.old)
        × (asked.chapters ≤ length chapters.old) × (asked.tags ≤ length tags.old) }
{
    let recording = &recording[..asked.bytes];
    let info = &mut info[..asked.info];
    let tracks = &mut tracks[..asked.tracks];
    let attachments = &mut attachments[..asked.attachments];
    let chapters = &mut chapters[..asked.chapters];
    let tags = &mut tags[..asked.tags];
    let reply = open::open(
        recording,
        asked.live,
        info,
        tracks,
        attachments,
        chapters,
        tags,
    );
    match reply {
        Ok((parts, heads)) => {
            out.print(format_args!("heads {heads}"));
            put_part(" info", parts.info, info, out);
            put_part(" tracks", parts.tracks, tracks, out);
            put_part(" attachments", parts.attachments, attachments, out);
            put_part(" chapters", parts.chapters, chapters, out);
            put_part(" tags", parts.tags, tags, out);
        }
        Err(refusal) => put_unopened(refusal, info, tracks, attachments, chapters, tags, out),
    }
}

// A part behind its name.
fn put_part(name: &str, part: Option<Part>, table: &[u64], out: &mut Out) {
    out.print(name);
    match part {
        Some(part) => put_found(part.at, part.size, part.rows, table, out),
        None => put_absent(table, out),
    }
}
