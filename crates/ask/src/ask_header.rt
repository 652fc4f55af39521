// `header AT BYTES`: the header at a place of a recording.
use answers::told::{Ending, Told, Value};
use questions::asked::Asked;

// `id ID size N length N`
pub fn header(asked: Asked, recording: &[u8]) -> Told {
    match header::header_at(recording, asked.at) {
        Ok(header) => Told::new(Ending::Nothing)
            .with(0, Value::Id(header.id))
            .with(1, header.size)
            .with(2, header.length),
        Err(refusal) => Told::new(Ending::Refused(refusal)),
    }
}
