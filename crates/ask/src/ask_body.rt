// `body ID PARENT AT SIZE ADDRESS BYTES`: the body of an id under a parent id, at a place of a recording.
use answers::told::{Ending, Told};
use bodies_rules::{Body, Value};
use questions::asked::Asked;

pub fn body(asked: Asked, recording: &[u8]) -> Told {
    let reply = bodies::body_at(
        recording,
        asked.id,
        asked.parent,
        asked.at,
        asked.size,
        asked.address,
    );
    match reply {
        Ok(body) => body_told(body),
        Err(refusal) => Told::new(Ending::Refused(refusal)),
    }
}

// The case of a body, and its value.
fn body_told(body: Body) -> Told {
    let none = Told::new(Ending::Nothing);
    match body {
        Body::Value(Value::Integer(value)) => none.with(0, value),
        Body::Value(Value::Unsigned(value)) => none.with(1, value),
        Body::Value(Value::Float(value)) => none.with(2, value),
        Body::Value(Value::Date(value)) => none.with(3, value),
        Body::Value(Value::Text(range)) => none.with(4, range),
        Body::Value(Value::Bytes(range)) => none.with(5, range),
        Body::Master => none.word(6),
    }
}
