// `payload START SIZE PARENT NUMBERS ROW BYTES`: the payload of a row, after the read of its table.
use answers::told::{Ending, Told, Value};
use questions::asked::Asked;

// The refusal of the read, or `bytes HEX`
pub fn payload(asked: Asked, recording: &[u8], table: &mut [u64]) -> Told {
    let read = elements::read(
        recording,
        asked.live,
        asked.at,
        asked.size,
        asked.parent,
        table,
    );
    match (read, payloads::payload_range(recording, table, asked.row)) {
        (Err(refusal), _) => Told::new(Ending::Unread(refusal)),
        (Ok(_), Err(refusal)) => Told::new(Ending::Refused(refusal)),
        (Ok(_), Ok(_)) => Told::new(Ending::Nothing).with(0, Value::Bytes),
    }
}
