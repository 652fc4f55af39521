// The way to a record, and where it leads.
use fields_rules::Below;
use refusals::Refusal;

// How to go on from a master.
#[derive(Clone, Copy)]
pub enum Step {
    Here,
    // Here, but only for index 0.
    Only(u64),
    // To the k-th direct child of this id.
    Nth { id: u32, k: u64 },
    // To the last direct child of this id.
    Last(u32),
}

// A step for each level, from the payload that was read.
#[derive(Clone, Copy)]
pub struct Way {
    pub first: Step,
    pub second: Step,
    pub third: Step,
}
