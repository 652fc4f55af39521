// A tag, and what it applies to.
use bodies_rules::Range;

// What a tag applies to: the target number as it stands, and how many uids each list has.
#[derive(Clone, Copy)]
pub struct Target {
    pub target_type_value: Option<u64>,
    pub target_type: Option<Range>,
    pub tracks: u64,
    pub editions: u64,
    pub chapters: u64,
    pub attachments: u64,
}

#[derive(Clone, Copy)]
pub struct Tag {
    pub targets: Option<Target>,
    // How many simple tags it has.
    pub simple: u64,
}
