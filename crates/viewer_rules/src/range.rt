// The answer of `uz_row_payload` and `uz_shown_text`.

// `uz_range` of include/uzrafmed.h.
#[repr(C)]
#[derive(Clone, Copy, Default)]
pub struct UzRange {
    // 0, or the number of the refusal; then the others are 0.
    pub refused: u64,
    // The address of the first byte, and how many there are.
    pub at: u64,
    pub length: u64,
}
