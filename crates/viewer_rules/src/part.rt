// The answer of `uz_find_part`.

// `uz_part` of include/uzrafmed.h.
#[repr(C)]
#[derive(Clone, Copy, Default)]
pub struct UzPart {
    // 0, or the number of the refusal; then every other number is 0, but the id for 8 and the refusal's address.
    pub refused: u64,
    pub id: u64,
    // Where it broke.
    pub refused_at: u64,
    // 1, or 0 for an absent part.
    pub found: u64,
    // The payload's address and size, and how many rows it has.
    pub at: u64,
    pub size: u64,
    pub rows: u64,
    // How many seek heads were read.
    pub heads: u64,
}
