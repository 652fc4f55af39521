// A record as the cells of an answer.
use answers::told::{Ending, Told};
use refusals::Refusal;

pub trait Cells {
    // The record's cells behind those that are told.
    fn cells(self, told: Told) -> Told;
}

// A record and how many rows its table has, or why it can't be read.
pub fn told_of<R: Cells>(reply: Result<(R, u64), Refusal>) -> Told {
    match reply {
        Ok((record, rows)) => record.cells(Told::new(Ending::Rest(rows))),
        Err(refusal) => Told::new(Ending::Unread(refusal)),
    }
}
