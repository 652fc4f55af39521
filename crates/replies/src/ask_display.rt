// `display START SIZE NUMBERS K I J BYTES`: what a chapter is shown as.
use crate::cells::Cells;
use answers::told::Told;
use chapters::ChapterDisplay;

// `string RANGE`, and the language.
impl Cells for ChapterDisplay {
    fn cells(self, told: Told) -> Told {
        told.with(0, self.string).with(1, self.language)
    }
}
