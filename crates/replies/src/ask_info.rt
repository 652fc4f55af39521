// `info START SIZE NUMBERS K BYTES`: what there is to know of a recording as a whole.
use crate::cells::Cells;
use answers::told::Told;
use info_rules::Info;

// `uid RANGE previous RANGE next RANGE families COUNT title RANGE`, `duration F scale N date N`, and the apps.
impl Cells for Info {
    fn cells(self, told: Told) -> Told {
        told.with(0, self.uid)
            .with(1, self.prev_uid)
            .with(2, self.next_uid)
            .with(3, self.families)
            .with(4, self.title)
            .with(5, self.duration)
            .with(6, self.timestamp_scale)
            .with(7, self.date_utc)
            .with(8, self.muxing_app)
            .with(9, self.writing_app)
    }
}
