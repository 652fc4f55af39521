// `simple START SIZE NUMBERS K I BYTES`: a simple tag of a tag.
use crate::cells::Cells;
use answers::told::Told;
use tags_rules::SimpleTag;

// `name RANGE`, the language, `default F`, and the value.
impl Cells for SimpleTag {
    fn cells(self, told: Told) -> Told {
        told.with(0, self.name)
            .with(1, self.language)
            .with(2, self.default)
            .with(3, self.value)
    }
}
