// `edition START SIZE NUMBERS K BYTES`: an edition of chapters.
use crate::cells::Cells;
use answers::told::Told;
use chapters::ChapterEdition;

// `uid N hidden F default F ordered F chapters COUNT`
impl Cells for ChapterEdition {
    fn cells(self, told: Told) -> Told {
        told.with(0, self.uid)
            .with(1, self.hidden)
            .with(2, self.default)
            .with(3, self.ordered)
            .with(4, self.chapters)
    }
}
