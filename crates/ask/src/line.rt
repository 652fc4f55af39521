// The questions, and the answer to each.
use crate::ask_body::body;
use crate::ask_header::header;
use crate::ask_kind::kind;
use crate::ask_open::open;
use crate::ask_owner::owner;
use crate::ask_part::part;
use crate::ask_payload::payload;
use crate::ask_range::range;
use crate::ask_read::read;
use crate::ask_utf8::utf8;
use crate::ask_whose::whose;
use crate::rooms::Rooms;
use answers::answer::{bad, put_told};
use answers::told::Told;
use lines::out::Out;
use questions::asked::{Asked, asked_of, mode};
use questions::list::entry_of;
use questions::table::MOST_ASKED;
use replies::{label, record, shown_bytes};

// The questions but for `open`. The list has for each its name, its form (crates/questions/src/asked.rt has the
// letters), and the words that its answer may have.
const LIST: &[u8] = b"\
header ab id size length\n\
kind np kind master int uint string utf8 binary float date\n\
utf8 b utf8 no yes\n\
body npasdb int uint float date text bytes master\n\
range lrb at\n\
tracktype k video audio complex logo subtitle buttons control unknown\n\
label gwb label\n\
read asptb\n\
whose aspdtb row header payload\n\
owner aspdb header payload\n\
part ntb absent at size heads\n\
payload asptrb bytes\n\
attachment astkb description name mime data\n\
edition astkb uid hidden default ordered chapters\n\
chapter astkib uid start end hidden enabled segment edition displays\n\
display astkijb string language\n\
tag astkb target value type tracks editions chapters attachments simple\n\
uid astkuib uid\n\
simple astkib name language default value\n\
audio astkb rate channels depth\n\
track astkb video audio complex logo subtitle buttons control unknown number uid type enabled default forced \
hearing visual text original commentary lacing duration name language codec private codecname settings none \
rate channels depth width height dwidth dheight interlaced stereo gamma\n\
info astkb uid previous next families title duration scale date muxing writing\n\
family astkib uid\n\
shown asptrb text\n";

// The first question that may be in live mode, by its place in the list, which is written in that order: it and those
// behind it read elements.
const FIRST_LIVE: usize = 7;

// The answer to a line, and its line feed. `open` is lent every table; any other question is lent that for Info alone.
pub fn answer(line: &[u8], rooms: &mut Rooms, out: &mut Out) {
    let (live, question) = mode(line);
    if words::word(question, 0) == b"open".as_slice() {
        open(question, live, rooms, out);
    } else {
        put_answer(question, live, &mut rooms.recording, &mut rooms.info, out);
    }
    out.put(b"\n");
}

// The answer by the line of its question in the list.
fn put_answer(
    line: &[u8],
    live: bool,
    recording: &mut [u8; 65536],
    table: &mut [u64; MOST_ASKED],
    out: &mut Out,
) {
    let Some(entry) = entry_of(LIST, words::word(line, 0)) else {
        return bad(out);
    };
    let form = words::word(entry.line, 1);
    match asked_of(line, live, form, recording, table) {
        Some(asked) if !live || FIRST_LIVE <= entry.number => reply(
            entry.line,
            line,
            asked,
            // What the call is lent: the parts of the rooms that the words filled.
            &recording[..asked.bytes],
            &mut table[..asked.numbers],
            out,
        ),
        _ => bad(out),
    }
}

// The answer to a question. A label needs room of its own.
fn reply(
    entry: &[u8],
    line: &[u8],
    asked: Asked,
    recording: &[u8],
    table: &mut [u64],
    out: &mut Out,
) {
    let name = words::word(entry, 0);
    if name == b"label".as_slice() {
        return label(asked, words::word(line, 2), recording, out);
    }
    let told = told(name, asked, recording, table);
    let bytes = bytes_of(name, asked, recording, table);
    put_told(told, entry, bytes, table, out);
}

// What the answer tells, by the name of the question.
fn told(name: &[u8], asked: Asked, recording: &[u8], table: &mut [u64]) -> Told {
    match name {
        b"header" => header(asked, recording),
        b"kind" => kind(asked),
        b"utf8" => utf8(recording),
        b"body" => body(asked, recording),
        b"range" => range(asked, recording, table),
        b"read" => read(asked, recording, table),
        b"whose" => whose(asked, recording, table),
        b"owner" => owner(asked, recording),
        b"part" => part(asked, recording, table),
        b"payload" => payload(asked, recording, table),
        _ => record(name, asked, recording, table),
    }
}

// The bytes that the answer tells, where it tells bytes.
fn bytes_of<'a>(name: &[u8], asked: Asked, recording: &'a [u8], table: &[u64]) -> &'a [u8] {
    match name {
        b"payload" => payloads::row_payload(recording, table, asked.row),
        b"shown" => shown_bytes(asked, recording, table),
        _ => &recording[..0],
    }
}
