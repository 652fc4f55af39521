// What the readers of elements take and give.

// What stands above elements: their parent's id, its row number plus 1 (0 for none, as in a row), and their own depth.
#[derive(Clone, Copy)]
pub struct Above {
    pub id: u32,
    pub row: usize,
    pub depth: u64,
}
