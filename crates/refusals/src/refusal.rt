// A refusal, and its cause with document 01's number.
ghost use Rattle.std.specs.Prelude.{◌≡◌};
ghost use Rattle.refusals.specs.Promise.{NumberPromise, IdPromise};
ghost use Rattle.refusals.specs.Refusals.{because};

// One case for each number of document 01's list, as document 02 (C-18) extends it, and two for 3.
#[derive(Clone, Copy)]
pub enum Cause {
    // 1: a byte needed lies beyond the recording.
    PastEnd,
    // 2: an id of more than four bytes.
    InvalidId,
    // 3: a size of more than eight bytes.
    InvalidSize,
    // 3: an element larger than what its master had left, or a child of the segment that is passed over and is larger
    // than what was left of it.
    Overrun,
    // 4: an integer body, signed or not, of more than eight bytes.
    InvalidUint,
    // 5: a float body of other than four or eight bytes.
    InvalidFloat,
    // 6: a date body of other than eight bytes.
    InvalidDate,
    // 7: a text that is not UTF-8.
    NotUtf8,
    // 8: the segment's start plus the position of an entry for that id exceeds 2^64-1.
    InvalidSeekHead(u32),
    // 9: the sought address holds a header with another id.
    StaleEntry,
    // 10: a seek head is reached at an address already read as one.
    HeadAgain,
    // 11: a 65th seek head would be read.
    TooManyHeads,
    // 12: a row at depth 16 would be needed.
    TooDeep,
    // 13: the table has no free row.
    NoFreeRow,
    // 14: a length, a place, a part or a row that the caller gave is out of bounds.
    BadArgument,
    // 15: the address is outside the payload, or there is no k-th record or list member.
    Outside,
    // 17: in live mode, an unknown size on an element that has to have a known one.
    UnknownSize,
}

// What a call answers when it refuses: why, and the address of the header that was being read. Where that header itself
// was bad it is where it began; for 8 it is the last head that was read, for 10 and 11 the head that was not. 14 and 15
// tell of what the caller gave, and have 0.
#[derive(Clone, Copy)]
pub struct Refusal {
    pub address: u64,
    pub cause: Cause,
}

impl Cause {
    // The refusal for this cause, of what stands at an address.
    pub fn at(self, address: u64) -> Refusal
        ensures { result ≡ because self address }
    {
        Refusal {
            address,
            cause: self,
        }
    }

    // Document 01's number. The promises name these two calls, so they are no `From`.
    pub fn number(self) -> u64
        ensures { NumberPromise self result }
    {
        match self {
            Cause::PastEnd => 1,
            Cause::InvalidId => 2,
            Cause::InvalidSize | Cause::Overrun => 3,
            Cause::InvalidUint => 4,
            Cause::InvalidFloat => 5,
            Cause::InvalidDate => 6,
            Cause::NotUtf8 => 7,
            Cause::InvalidSeekHead(_) => 8,
            Cause::StaleEntry => 9,
            Cause::HeadAgain => 10,
            Cause::TooManyHeads => 11,
            Cause::TooDeep => 12,
            Cause::NoFreeRow => 13,
            Cause::BadArgument => 14,
            Cause::Outside => 15,
            Cause::UnknownSize => 17,
        }
    }

    // The id that 8 carries; 0 for any other.
    pub fn id(self) -> u32
        ensures { IdPromise self result }
    {
        match self {
            Cause::InvalidSeekHead(id) => id,
            _ => 0,
        }
    }
}
