// What the reader of the chain gives.
use seekhead_rules::Positions;

// The latest positions of the wanted ids over all heads, how many heads were read, and the address of the last one.
#[derive(Clone, Copy)]
pub struct HeadsRead {
    pub parts: Positions,
    pub heads: u64,
    pub last: u64,
}
