// `kind ID PARENT`: the kind of an id under a parent id.
use answers::told::{Ending, Told};
use kinds::Kind;
use questions::asked::Asked;

// `kind K`
pub fn kind(asked: Asked) -> Told {
    let kind = kind_decision::kind_of(asked.id, asked.parent);
    Told::new(Ending::Nothing).word(0).word(kind_index(kind))
}

// The place of the kind's name among the words of the answer.
fn kind_index(kind: Kind) -> u64 {
    match kind {
        Kind::Master => 1,
        Kind::Int => 2,
        Kind::Uint => 3,
        Kind::String => 4,
        Kind::Utf8 => 5,
        Kind::Binary => 6,
        Kind::Float => 7,
        Kind::Date => 8,
    }
}
