// What a field holds, by its kind; or that it is unset.
use bodies_rules::Range;

#[derive(Clone, Copy)]
pub enum Language {
    Iso(Range),
    Ietf(Range),
}

// The value of a simple tag.
#[derive(Clone, Copy)]
pub enum TagValue {
    Text(Range),
    Binary(Range),
}
