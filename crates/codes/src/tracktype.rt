// The type of a track by its number.
ghost use Rattle.codes.specs.Promise.{TracktypePromise};

#[derive(Clone, Copy)]
pub enum Tracktype {
    Video,
    Audio,
    Complex,
    Logo,
    Subtitle,
    Buttons,
    Control,
    Unknown,
}

impl Tracktype {
    // The type with this number; any other number is Unknown. The promises name this call, so it is no `From`.
    #[tactic(auto, unfolding(crate::specs::Tracktypes::type_in))]
    pub fn new(number: u64) -> Tracktype
        ensures { TracktypePromise number result }
    {
        match number {
            1 => Tracktype::Video,
            2 => Tracktype::Audio,
            3 => Tracktype::Complex,
            16 => Tracktype::Logo,
            17 => Tracktype::Subtitle,
            18 => Tracktype::Buttons,
            32 => Tracktype::Control,
            _ => Tracktype::Unknown,
        }
    }
}
