// `read START SIZE PARENT NUMBERS BYTES`: a payload's elements, read into a table.
use answers::told::{Ending, Told};
use questions::asked::Asked;

// TABLE
pub fn read(asked: Asked, recording: &[u8], table: &mut [u64]) -> Told {
    let reply = elements::read(
        recording,
        asked.live,
        asked.at,
        asked.size,
        asked.parent,
        table,
    );
    match reply {
        Ok(rows) => Told::new(Ending::Rows(rows)),
        Err(refusal) => Told::new(Ending::Unread(refusal)),
    }
}
