// `range N,N,.. ROW BYTES`: where the payload of a row of the table given lies.
use answers::told::{Ending, Told};
use questions::asked::Asked;

// `at RANGE`
pub fn range(asked: Asked, recording: &[u8], table: &[u64]) -> Told {
    match payloads::payload_range(recording, table, asked.row) {
        Ok(range) => Told::new(Ending::Nothing).with(0, range),
        Err(refusal) => Told::new(Ending::Refused(refusal)),
    }
}
