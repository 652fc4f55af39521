// What a body is: a value by its kind, or a master.

// A part of the recording: the address of its first byte, and how many bytes it has.
#[derive(Clone, Copy)]
pub struct Range {
    pub at: u64,
    pub length: u64,
}

// A value by its case.
#[derive(Clone, Copy)]
pub enum Value {
    Integer(i64),
    Unsigned(u64),
    Float(f64),
    // Nanoseconds from 2001-01-01.
    Date(i64),
    Text(Range),
    Bytes(Range),
}

// A value, or it is a master: that is a body too, so this is no Option.
#[derive(Clone, Copy)]
pub enum Body {
    Value(Value),
    Master,
}
