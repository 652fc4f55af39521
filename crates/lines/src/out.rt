// Gathers what a program writes to standard output, and hands it on in large pieces.
ghost use Rattle.std.specs.Prelude.{◌≡◌, ◌≤◌, ◌<◌, true, [], ◌∷◌, ◌++◌, None, Some, IfSome, OnOk, ◌⊎◌};
ghost use Rattle.std.specs.Fmt.{digit_glyph};
ghost use Rattle.lines.specs.Gathered.{Gathers, Keeps, StaysFailed, Takes, TakesOrFails, two_digits, in_hex};

use std::fmt::{Display, Write};
use std::io::{Print, Stdout};
use std::marker::Model;
use std::{fmt, io};

// How many bytes are gathered before they are handed on.
const ROOM: usize = 65536;

// Standard output, and what is gathered for it. Once a write has failed, nothing more is gathered or written.
#[derive(Drop)]
pub struct Out {
    to: Stdout,
    room: [u8; ROOM],
    // How many bytes are gathered, or why a write failed.
    held: io::Result<usize>,
}

impl Model for Out {
    ghost use Rattle.std.specs.Prelude.{ℕ, List, Option, ◌≤◌, IfOk};

    ghost Value = { Option (List ℕ) };

    ghost use Rattle.lines.specs.Gathered.{gathered};

    ghost view = { gathered };

    ghost invariant = { λ o. IfOk o.held (λ n. n ≤ 65536) };
}

impl Out {
    pub fn new(to: Stdout) -> Out
        ensures { result ≡ Some [] }
    {
        Out {
            to,
            room: [0; ROOM],
            held: Ok(0),
        }
    }

    // Bytes as they are.
    pub fn put(&mut self, bytes: &[u8])
        ensures gathers { Gathers self.old bytes.now self.new }
        ensures kept { Keeps self.old bytes.now self.new }
        ensures failed { StaysFailed self.old self.new }
    {
        for byte in bytes {
            self.put_one(*byte);
        }
    }

    // A value as it is displayed. One that cannot be displayed is told at the end, as a failed write.
    pub fn print<D: Display + Drop>(&mut self, value: D)
        ensures text { IfSome (D.output value) (λ text. TakesOrFails self.old text self.new) }
        ensures failed { StaysFailed self.old self.new }
    {
        if self.held.is_err() {
            return;
        }
        if self.write(value).is_err() {
            self.held = Err(io::ErrorKind::Other.into());
        }
    }

    // Bytes in hexadecimal digits, two for each, or `-` for none, behind their label.
    pub fn put_bytes(&mut self, label: &[u8], bytes: &[u8])
        ensures text { TakesOrFails self.old (label.now ++ in_hex bytes.now) self.new }
        ensures failed { StaysFailed self.old self.new }
    {
        self.put(label);
        if bytes.is_empty() {
            self.put(b"-");
        }
        for byte in bytes {
            self.put(&two_digits(*byte));
        }
    }

    // A full room is written away first.
    fn put_one(&mut self, byte: u8)
        ensures gathers { Gathers self.old (byte ∷ []) self.new }
        ensures kept { Keeps self.old (byte ∷ []) self.new }
        ensures failed { StaysFailed self.old self.new }
    {
        if let Ok(ROOM) = self.held {
            self.write_away();
        }
        if let Ok(held) = &mut self.held {
            self.room[*held] = byte;
            *held += 1;
        }
    }

    fn write_away(&mut self)
        ensures done { self.new ≡ Some [] ⊎ self.new ≡ None }
        ensures failed { StaysFailed self.old self.new }
    {
        if let Ok(held) = self.held {
            self.held = self.to.write_all(&self.room[..held]).map(|()| 0);
        }
    }

    // Writes away what is held. An error says that a write failed, this one or one before it.
    pub fn flush(&mut self) -> io::Result<()>
        ensures { OnOk result (self.new ≡ Some []) }
    {
        self.write_away();
        self.held.map(|_| ())
    }
}

// A byte in two hexadecimal digits: a format for each byte would take longer than all else of an answer.
fn two_digits(byte: u8) -> [u8; 2]
    ensures { result ≡ two_digits byte }
{
    [digit(byte / 16), digit(byte % 16)]
}

// A hexadecimal digit, as a capital letter from ten on.
fn digit(value: u8) -> u8
    requires { value < 16 }
    ensures { result ≡ digit_glyph true value }
{
    if value < 10 {
        b'0' + value
    } else {
        b'A' - 10 + value
    }
}

// Text is gathered like any bytes: a write that fails is told at the end.
impl fmt::Write for Out {
    ghost write_str_gives = { Takes };

    fn write_str(&mut self, s: &str) -> fmt::Result {
        self.put(s.as_bytes());
        Ok(())
    }
}
