// A row, and how elements are read.

// An element in the table. Its fields are numbers of 64 bits, since C reads the table as such (include/uzrafmed.h).
#[derive(Clone, Copy)]
pub struct Row {
    pub id: u64,
    // The parent's row number plus 1; 0 for none.
    pub parent: u64,
    // Where the header begins.
    pub address: u64,
    // How many bytes the header has, and then the payload.
    pub header: u64,
    pub payload: u64,
    // 1 to 8 in document 01's order; 1 is a master.
    pub kind: u64,
    pub depth: u64,
    // The first row behind this one that is no descendant of it; the row count where there is none.
    pub after: u64,
}

// How elements are read, two free choices: with rows, or without; and in live mode, which knows unknown sizes, or in old mode, which
// takes every size as the number that it is (document 02, C-18).
#[derive(Clone, Copy)]
pub struct Mode {
    pub keep: bool,
    pub live: bool,
}
