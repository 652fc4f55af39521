// Standard input, read piece by piece into room that is lent.
ghost use Rattle.std.specs.Prelude.{◌≡◌, ◌+◌, ◌≤◌, length, take, drop};
ghost use Rattle.lines.specs.Bounds.{Behind};

use std::io;
use std::io::{Read, Stdin};

// What one read brought behind the bytes held: how many bytes, or `None` at the end of the input.
pub fn read_more(from: Stdin, room: &mut [u8], held: usize) -> io::Result<Option<usize>>
    requires { held ≤ length room.old }
    ensures { Behind held (length room.old) result }
{
    let mut input = from;
    let n = input.read(&mut room[held..])?;
    if n == 0 {
        return Ok(None);
    }
    Ok(Some(n))
}

// Moves the n bytes from `from` on to the start of the room.
pub fn keep(room: &mut [u8], from: usize, n: usize)
    requires { from + n ≤ length room.old }
    ensures { take n room.new ≡ take n (drop from room.old) }
{
    if from == 0 {
        return;
    }
    room.copy_within(from..from + n, 0);
}
