// `chapter START SIZE NUMBERS K I BYTES`: a chapter of an edition.
use crate::cells::Cells;
use answers::told::Told;
use chapters::Chapter;

// `uid N start N end N hidden F enabled F segment RANGE edition N displays COUNT`
impl Cells for Chapter {
    fn cells(self, told: Told) -> Told {
        told.with(0, self.uid)
            .with(1, self.time_start)
            .with(2, self.time_end)
            .with(3, self.hidden)
            .with(4, self.enabled)
            .with(5, self.segment_uid)
            .with(6, self.segment_edition_uid)
            .with(7, self.displays)
    }
}
