// How a video track is shown in stereo: the modes 0 to 14 by name, and their numbers.
ghost use Rattle.codes.specs.Promise.{StereoModePromise};

// The eye that is shown first.
#[derive(Clone, Copy)]
pub enum EyeOrder {
    LeftFirst,
    RightFirst,
}

#[derive(Clone, Copy)]
pub enum StereoColors {
    CyanRed,
    GreenMagenta,
}

#[derive(Clone, Copy)]
pub enum StereoMode {
    Mono,
    SideBySide(EyeOrder),
    TopBottom(EyeOrder),
    Checkboard(EyeOrder),
    RowInterleaved(EyeOrder),
    ColumnInterleaved(EyeOrder),
    Anaglyph(StereoColors),
    Interlaced(EyeOrder),
}

impl StereoMode {
    // The mode's number, as it stands in the recording. The promises name this call, so it is no `From`.
    pub fn number(self) -> u64
        ensures { StereoModePromise self result }
    {
        match self {
            StereoMode::Mono => 0,
            StereoMode::SideBySide(EyeOrder::LeftFirst) => 1,
            StereoMode::TopBottom(EyeOrder::RightFirst) => 2,
            StereoMode::TopBottom(EyeOrder::LeftFirst) => 3,
            StereoMode::Checkboard(EyeOrder::RightFirst) => 4,
            StereoMode::Checkboard(EyeOrder::LeftFirst) => 5,
            StereoMode::RowInterleaved(EyeOrder::RightFirst) => 6,
            StereoMode::RowInterleaved(EyeOrder::LeftFirst) => 7,
            StereoMode::ColumnInterleaved(EyeOrder::RightFirst) => 8,
            StereoMode::ColumnInterleaved(EyeOrder::LeftFirst) => 9,
            StereoMode::Anaglyph(StereoColors::CyanRed) => 10,
            StereoMode::SideBySide(EyeOrder::RightFirst) => 11,
            StereoMode::Anaglyph(StereoColors::GreenMagenta) => 12,
            StereoMode::Interlaced(EyeOrder::LeftFirst) => 13,
            StereoMode::Interlaced(EyeOrder::RightFirst) => 14,
        }
    }
}
