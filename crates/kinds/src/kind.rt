// The eight kinds of an element, and their numbers (document 01, Kinds).
ghost use Rattle.std.specs.Prelude.{◌≡◌};
ghost use Rattle.kinds.specs.Kinds.{number_of};

// The number of the kind whose body holds elements, for the rows, which C reads as numbers.
pub const MASTER: u64 = 1;

// What the body of an element holds.
#[derive(Clone, Copy, PartialEq, Eq)]
pub enum Kind {
    Master,
    Int,
    Uint,
    String,
    Utf8,
    Binary,
    Float,
    Date,
}

impl Kind {
    // The kind's number. The documents name this call, so it is no `From`.
    pub fn number(self) -> u64
        ensures { result ≡ number_of self }
    {
        match self {
            Kind::Master => 1,
            Kind::Int => 2,
            Kind::Uint => 3,
            Kind::String => 4,
            Kind::Utf8 => 5,
            Kind::Binary => 6,
            Kind::Float => 7,
            Kind::Date => 8,
        }
    }
}
