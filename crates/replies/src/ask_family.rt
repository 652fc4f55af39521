// `family START SIZE NUMBERS K I BYTES`: a family that a recording belongs to.
use crate::cells::Cells;
use answers::told::Told;
use bodies_rules::Range;

// `uid RANGE`
impl Cells for Range {
    fn cells(self, told: Told) -> Told {
        told.with(0, self)
    }
}
