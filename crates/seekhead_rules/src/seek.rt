// An entry of a seek head.

// An id, and its position counted from the segment's start. Without its members they are 0. The position comes first,
// beside a refusal's address: where two cases overlap otherwise, a processor waits (bench/README.md).
#[derive(Clone, Copy)]
pub struct Seek {
    pub position: u64,
    pub id: u32,
}
