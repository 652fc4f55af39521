// A Seek: an entry of a seek head.
ghost use Rattle.std.specs.Prelude.{◌≡◌, min};
ghost use Rattle.bodies_rules.specs.Bodies.{body as body_is};
ghost use Rattle.seekhead_rules.specs.Seeks.{seek_id, with_members, last_four, noted as noted_of};
ghost use Rattle.walks_rules.specs.Contract.{Readable};
ghost use Rattle.seekhead_rules.specs.Contract.{Whole, seek_told};
ghost use Rattle.seekhead_rules.proofs.Members.{members_gather};

use crate::level::{Gather, gathered};
use crate::skim::skim_body;
use bodies_rules::{Body, Value};
use header::{Headed, big_endian};
use kinds::ids;
use refusals::Refusal;
use seekhead_rules::Seek;

// The last four bytes of an element's payload as a number; all of them where there are fewer.
fn last_four(recording: &[u8], element: Headed) -> u32
    requires { Whole recording.now element }
    ensures { result ≡ last_four recording.now element.payload.at element.header.size }
{
    let size = element.header.size;
    let n = size.min(4);
    let first = element.payload.at + (size - n);
    big_endian(recording, first as usize, n as usize) as u32
}

// A Seek with one more of its members, by what it holds: the last SeekID and the last SeekPosition win.
fn noted(recording: &[u8], seek: Seek, member: Headed, body: Body) -> Seek
    requires { Whole recording.now member }
    ensures { result ≡ noted_of recording.now member (body_is body) seek }
{
    match body {
        Body::Value(Value::Bytes(_)) if member.header.id == ids::SEEKID => Seek {
            id: last_four(recording, member),
            ..seek
        },
        Body::Value(Value::Unsigned(position)) if member.header.id == ids::SEEKPOSITION => {
            Seek { position, ..seek }
        }
        _ => seek,
    }
}

impl Gather for Seek {
    ghost depth = { 1 };

    ghost parent = { seek_id };

    ghost make = { with_members };

    ghost laws = { members_gather };

    // A Seek with the member whose header was read.
    fn with(self, recording: &[u8], live: bool, member: Headed) -> Result<Seek, Refusal> {
        let body = skim_body(recording, live, member, ids::SEEK, 1)?;
        Ok(noted(recording, self, member, body))
    }
}

// A Seek whose header was read, with its members.
pub fn seek_body(recording: &[u8], live: bool, element: Headed) -> Result<Seek, Refusal>
    requires { Readable recording.now element }
    ensures { result ≡ seek_told live recording.now element }
{
    gathered(Seek { id: 0, position: 0 }, recording, live, element)
}
