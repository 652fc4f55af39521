// What a walk goes over.

// Elements up to an end that is known; or what an element of that id and of unknown size holds,
// up to where it ends, and at the latest up to an end that is known.
#[derive(Clone, Copy)]
pub enum Stretch {
    Sized(u64),
    Endless { id: u32, end: u64 },
}
