// What `find_part` tells of a part.

// Where a part's payload is, its size, and how many rows it has.
#[derive(Clone, Copy)]
pub struct Part {
    pub at: u64,
    pub size: u64,
    pub rows: u64,
}
