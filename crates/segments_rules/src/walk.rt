// What a walk over the children of the segment looks for, and what it meets.
use header::Headed;

// The parts that a walk looks for: one by its id, or every part of the recording. To look for every part is no missing
// id, so this is no Option.
#[derive(Clone, Copy)]
pub enum Aim {
    One(u32),
    Every,
}

// A child that is met: a seek head, or a part that is looked for.
#[derive(Clone, Copy)]
pub enum Met {
    Head(Headed),
    Part(Headed),
}
