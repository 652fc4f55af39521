// `tag START SIZE NUMBERS K BYTES`: a tag.
use crate::cells::Cells;
use answers::told::Told;
use tags_rules::{Tag, Target};

// What the tag applies to, or `target no`; then `simple COUNT`.
impl Cells for Tag {
    fn cells(self, told: Told) -> Told {
        let told = match self.targets {
            None => told.with(0, false),
            Some(target) => with_target(told, target),
        };
        told.with(7, self.simple)
    }
}

// `target yes value N type RANGE tracks C editions C chapters C attachments C`
fn with_target(told: Told, target: Target) -> Told {
    told.with(0, true)
        .with(1, target.target_type_value)
        .with(2, target.target_type)
        .with(3, target.tracks)
        .with(4, target.editions)
        .with(5, target.chapters)
        .with(6, target.attachments)
}
