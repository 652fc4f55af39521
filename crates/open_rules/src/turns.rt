// Where `open` stands between two parts that it reads, and what it does next.
use crate::parts::Which;
use header::Headed;
use seekhead_rules::Positions;

// What the seek heads tell: where the segment starts, the latest position of each part, how many heads were read, and
// the address of the last one.
#[derive(Clone, Copy)]
pub struct Seeking {
    pub start: u64,
    pub links: Positions,
    pub heads: u64,
    pub last: u64,
}

// Before the first seek head: at an address among the segment's children, or at a child that was read. After the heads:
// those parts are left to seek.
#[derive(Clone, Copy)]
pub enum Stage {
    From {
        segment: Headed,
        at: u64,
    },
    Behind {
        segment: Headed,
        child: Headed,
    },
    Sought {
        seeking: Seeking,
        left: &'static [Which],
    },
}

// The part that is read next, and where `open` stands then; or all were read, and there were so many heads.
#[derive(Clone, Copy)]
pub enum Turn {
    Read {
        which: Which,
        part: Headed,
        next: Stage,
    },
    Over(u64),
}
