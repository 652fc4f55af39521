// A place in a recording, and what can be read there. Each read takes the place by value and answers
// the value with the next place.
ghost use Rattle.std.specs.Prelude.{◌≡◌, ◌+◌, ◌*◌, ◌%◌, ◌^◌, ◌≤◌, ◌<◌, length, take, drop};
ghost use Rattle.header.specs.Vint.{big_endian, bits, width_of};
ghost use Rattle.header.specs.Reads.{width_at, number_at, vint_at, header_at, octets_of, marked, cause_of};
ghost use Rattle.header.specs.Reads.{NumberFits, VintFits};

use refusals::{Cause, Refusal};

// A place: how many bytes stand before it. It may lie past the recording's end.
#[derive(Clone, Copy)]
pub struct Cursor {
    pub at: u64,
}

// A header: the payload's size, the id with its marker, and how many bytes the header has. Size and length stand apart,
// since a processor waits where two numbers are written one by one and read as one (bench/README.md).
#[derive(Clone, Copy)]
pub struct Header {
    pub size: u64,
    pub id: u32,
    pub length: u64,
}

// An element whose header was read: where its header is, where its payload begins, and the header.
#[derive(Clone, Copy)]
pub struct Headed {
    pub place: Cursor,
    pub payload: Cursor,
    pub header: Header,
}

// A variable-size integer: its octets, all their bits as one number, and the place behind it.
#[derive(Clone, Copy)]
pub struct Vint {
    pub octets: u64,
    pub value: u64,
    pub next: Cursor,
}

// Why there is no variable-size integer.
#[derive(Clone, Copy)]
pub enum VintFault {
    // The recording ends before its marker or before its last octet.
    Ends,
    // It has more octets than it may.
    Long,
}

impl VintFault {
    // The cause of a refusal, where `more` is that of more octets than there may be.
    fn cause(self, more: Cause) -> Cause
        ensures { result ≡ cause_of more self }
    {
        match self {
            VintFault::Ends => Cause::PastEnd,
            VintFault::Long => more,
        }
    }
}

// The low 7 bits for each octet: a variable-size integer's data, without its marker.
fn vint_data(octets: u64, value: u64) -> u64
    requires { octets ≤ 8 }
    ensures { result ≡ value % 2 ^ (7 * octets) }
{
    value % (1u64 << (7 * octets))
}

// Whether any bit of the octets is a one.
fn is_marked(octets: &[u8]) -> bool
    ensures { result ≡ marked (width_of (bits octets.now)) }
{
    octets.iter().any(|octet| *octet != 0)
}

// The n bytes from `at` on as one big-endian number.
pub fn big_endian(recording: &[u8], at: usize, n: usize) -> u64
    requires { (n ≤ 8) × (at + n ≤ length recording.now) }
    ensures { (result ≡ big_endian (take n (drop at recording.now))) × (result < 2 ^ (8 * n)) }
{
    let mut value: u64 = 0;
    for octet in &recording[at..at + n] {
        value = value * 256 + u64::from(*octet);
    }
    value
}

impl Cursor {
    // How many octets the variable-size integer here has, where it has no more than 8.
    fn octets(self, recording: &[u8]) -> Result<u64, VintFault>
        ensures { result ≡ octets_of (width_at recording.now self.at) }
    {
        let length = recording.len() as u64;
        if length <= self.at {
            return Err(VintFault::Ends);
        }
        let at = self.at as usize;
        let first = recording[at];
        if first != 0 {
            return Ok(u64::from(first.leading_zeros()) + 1);
        }
        if is_marked(&recording[at + 1..]) {
            return Err(VintFault::Long);
        }
        Err(VintFault::Ends)
    }

    // The big-endian number of the next n bytes.
    pub fn number(self, recording: &[u8], n: u64) -> Option<(u64, Cursor)>
        requires { n ≤ 8 }
        ensures { (result ≡ number_at recording.now self.at n) × NumberFits n result }
    {
        let at = self.at;
        let left = (recording.len() as u64).checked_sub(at)?;
        if left < n {
            return None;
        }
        let value = big_endian(recording, at as usize, n as usize);
        Some((value, Cursor { at: at + n }))
    }

    // The variable-size integer here, of at most `most` octets.
    fn vint(self, recording: &[u8], most: u64) -> Result<Vint, VintFault>
        requires { most ≤ 8 }
        ensures { (result ≡ vint_at recording.now self.at most) × VintFits most result }
    {
        let octets = self.octets(recording)?;
        if most < octets {
            return Err(VintFault::Long);
        }
        let (value, next) = self.number(recording, octets).ok_or(VintFault::Ends)?;
        Ok(Vint {
            octets,
            value,
            next,
        })
    }

    // The header here: its id, then its size.
    pub fn header(self, recording: &[u8]) -> Result<Headed, Refusal>
        ensures { result ≡ header_at recording.now self.at }
    {
        let at = self.at;
        let id = self
            .vint(recording, 4)
            .map_err(|fault| fault.cause(Cause::InvalidId).at(at))?;
        let size = id
            .next
            .vint(recording, 8)
            .map_err(|fault| fault.cause(Cause::InvalidSize).at(at))?;
        let header = Header {
            id: id.value as u32,
            size: vint_data(size.octets, size.value),
            length: id.octets + size.octets,
        };
        Ok(Headed {
            place: self,
            payload: size.next,
            header,
        })
    }
}
