// `tracktype N`: the type of a track by its number.
use answers::told::{Ending, Told};
use codes::Tracktype;

// The type by its name.
pub fn tracktype(tracktype: Tracktype) -> Told {
    Told::new(Ending::Nothing).word(type_index(tracktype))
}

// The place of the type's name among the words of the answer.
pub fn type_index(tracktype: Tracktype) -> u64 {
    match tracktype {
        Tracktype::Video => 0,
        Tracktype::Audio => 1,
        Tracktype::Complex => 2,
        Tracktype::Logo => 3,
        Tracktype::Subtitle => 4,
        Tracktype::Buttons => 5,
        Tracktype::Control => 6,
        Tracktype::Unknown => 7,
    }
}
