// Lists the recording on standard input: its four parts and their rows (document 01, 'Program `rows`'; document 02,
// C-18).
#![tactic(auto)]

ghost use Rattle.std.specs.Prelude.{◌≤◌, length, IfOk};

use lines::input::read_more;
use listing::{PAGE, listing};
use std::env::{Env, FillError};
use std::io;
use std::io::{Print, Stdin, Stdout};

// One byte more than a recording that is listed may have, so that a longer one is seen to be longer.
const ROOM: usize = 65537;

// Reads until the room is full or the input ends, and tells how many bytes came.
fn read_recording(from: Stdin, room: &mut [u8]) -> io::Result<usize>
    ensures { IfOk result (λ held. held ≤ length room.new) }
{
    let mut held: usize = 0;
    // A `while`: how much a read brings is not known before it.
    while held < room.len() {
        let Some(n) = read_more(from, room, held)? else {
            break;
        };
        held += n;
    }
    Ok(held)
}

// Writes the listing to standard output by way of the page.
fn list(to: Stdout, recording: &[u8], live: bool, page: &mut [u8; PAGE]) -> io::Result<()> {
    let n = listing(recording, live, page);
    to.write_all(&page[..n])
}

// Reads and lists. What can't be read is not listed. That, and a failed write, is told on standard error: a program
// can't set its exit status.
fn read_and_list(rt: HostRuntime, live: bool) {
    let mut room = [0u8; ROOM];
    let Ok(held) = read_recording(rt.stdin(), &mut room) else {
        return tell(rt, b"rows: standard input can't be read\n");
    };
    let mut page = [0u8; PAGE];
    if list(rt.stdout(), &room[..held], live, &mut page).is_err() {
        tell(rt, b"rows: standard output can't be written\n");
    }
}

// A line on standard error.
fn tell(rt: HostRuntime, line: &[u8]) {
    let _ = rt.stderr().write_all(line);
}

// Whether the program has an argument of that number. The room has place for no more than its first byte.
fn is_there(rt: HostRuntime, number: usize) -> bool {
    let mut word = [0u8; 1];
    !matches!(rt.arg(number, &mut word), Err(FillError::NotPresent))
}

// Whether the listing is in live mode, with the one argument `--live`, or document 01's, without one; `None` for any
// other arguments.
fn asked(rt: HostRuntime) -> Option<bool> {
    if !is_there(rt, 1) {
        return Some(false);
    }
    if is_there(rt, 2) {
        return None;
    }
    let mut word = [0u8; 6];
    match rt.arg(1, &mut word) {
        Ok(6) if word == *b"--live" => Some(true),
        _ => None,
    }
}

fn main(rt: HostRuntime) {
    match asked(rt) {
        Some(live) => read_and_list(rt, live),
        None => tell(rt, b"rows: the one argument that is known is --live\n"),
    }
}
