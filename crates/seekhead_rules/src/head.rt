// The ids that are wanted, the table of their positions, and what the reader of a head gives.

// A set of wanted ids, of up to five: a search for a part wants one. 0 stands where no id is wanted. Fields and no array:
// the crates above take each by its name, for which an index would say less.
#[derive(Clone, Copy)]
pub struct Wanted {
    pub first: u32,
    pub second: u32,
    pub third: u32,
    pub fourth: u32,
    pub fifth: u32,
}

// The latest position of each wanted id.
#[derive(Clone, Copy)]
pub struct Positions {
    pub first: Option<u64>,
    pub second: Option<u64>,
    pub third: Option<u64>,
    pub fourth: Option<u64>,
    pub fifth: Option<u64>,
}

// The positions of the wanted ids over all heads so far, and that of a further seek head by this head's own entries.
#[derive(Clone, Copy)]
pub struct Seektable {
    pub parts: Positions,
    pub head: Option<u64>,
}

// The ids that are wanted, and the table of a head's entries so far.
#[derive(Clone, Copy)]
pub struct Entries {
    pub wanted: Wanted,
    pub table: Seektable,
}
