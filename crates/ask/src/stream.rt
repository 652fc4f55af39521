// Reads standard input line by line, and has each line answered.
ghost use Rattle.std.specs.Prelude.{◌≤◌, ◌<◌, length, IfSome};
ghost use Rattle.ask.specs.Bounds.{Roomy};

use crate::line::answer;
use crate::rooms::Rooms;
use lines::input;
use lines::out::Out;
use std::io::Print;

// Room for the longest line that is a question, and more. A longer line is none.
const ROOM: usize = 1_048_576;

// Answers every line, until the input ends or an answer can't be written.
pub fn answer_all(rt: HostRuntime) {
    let mut room = [0u8; ROOM];
    let mut held = 0;
    // A proved loop has to end, and nothing says that the input does. No run takes so many turns.
    for _ in 0..u64::MAX {
        match turn(rt, held, &mut room) {
            Some(left) => held = left,
            None => return,
        }
    }
}

// One read, and the answers to the lines that it finished: how many bytes of an unfinished line the room holds then,
// or `None` where nothing follows.
fn turn(rt: HostRuntime, held: usize, room: &mut [u8; ROOM]) -> Option<usize>
    requires { Roomy held }
    ensures { IfSome result Roomy }
{
    match input::read_more(rt.stdin(), room, held) {
        Ok(Some(n)) => answer_read(rt, held, held + n, room),
        Ok(None) => {
            answer_last(rt, held, room);
            None
        }
        Err(_) => {
            let _ = rt
                .stderr()
                .write_all(b"ask: standard input can't be read\n");
            None
        }
    }
}

// The input ended: a last line that has no line feed is given one.
fn answer_last(rt: HostRuntime, held: usize, room: &mut [u8; ROOM])
    requires { Roomy held }
{
    if held != 0 {
        room[held] = b'\n';
        answer_read(rt, held, held + 1, room);
    }
}

// Answers the lines that the last read finished, and keeps the unfinished one. One that fills the room is
// cut to a space: no question begins so, whatever follows.
fn answer_read(rt: HostRuntime, held: usize, filled: usize, room: &mut [u8; ROOM]) -> Option<usize>
    requires { (held ≤ filled) × (filled ≤ 1048576) }
    ensures { IfSome result Roomy }
{
    let from = answer_lines(rt, &room[..filled], held)?;
    let left = filled - from;
    if left == ROOM {
        room[0] = b' ';
        return Some(1);
    }
    input::keep(room, from, left);
    Some(left)
}

// Answers the finished lines of what was read, and tells where the unfinished one begins; `None` where an answer can't
// be written. The first `old` bytes hold no line feed.
fn answer_lines(rt: HostRuntime, read: &[u8], old: usize) -> Option<usize>
    requires { old ≤ length read.now }
    ensures { IfSome result (λ from. from ≤ length read.now) }
{
    let mut rooms = Rooms::new();
    let mut out = Out::new(rt.stdout());
    let mut from = 0;
    let mut seen = old;
    // A `while`: a split would search the bytes before `old` again at each read.
    while let Some(end) = words::find(read, seen, b'\n') {
        answer(&read[from..end], &mut rooms, &mut out);
        from = end + 1;
        seen = from;
    }
    if out.flush().is_err() {
        let _ = rt
            .stderr()
            .write_all(b"ask: standard output can't be written\n");
        return None;
    }
    Some(from)
}
