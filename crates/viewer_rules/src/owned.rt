// The answer of `uz_owner` and `uz_owner_chain`.

// `uz_owned` of include/uzrafmed.h.
#[repr(C)]
#[derive(Clone, Copy, Default)]
pub struct UzOwned {
    // 0, or the number of the refusal; then the others are 0, but the refusal's address.
    pub refused: u64,
    // Where it broke.
    pub refused_at: u64,
    // The address of the element's header, and 1 if its payload holds the byte, 0 if its header does.
    pub at: u64,
    pub in_payload: u64,
    // How many masters stand around it.
    pub depth: u64,
}
