// The answer of `uz_whose_byte`.

// `uz_place` of include/uzrafmed.h.
#[repr(C)]
#[derive(Clone, Copy, Default)]
pub struct UzPlace {
    // 0, or the number of the refusal; then the others are 0, but the refusal's address.
    pub refused: u64,
    // Where it broke.
    pub refused_at: u64,
    // The row's number, and 1 if its leaf payload holds the address, 0 if its header does.
    pub row: u64,
    pub in_payload: u64,
    // How many rows the payload has.
    pub rows: u64,
}
