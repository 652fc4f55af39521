// The stereo mode of a video track by the number that its field holds.
ghost use Rattle.std.specs.Prelude.{◌≡◌};
ghost use Rattle.media_rules.specs.Said.{said};
ghost use Rattle.media_rules.specs.Video.{stereo};
ghost use Rattle.media_rules.specs.Told.{stereo_told};

use codes::{EyeOrder, StereoColors, StereoMode};

// The mode with this number; any other number is unset.
fn mode_of(number: u64) -> Option<StereoMode>
    ensures { stereo_told result ≡ stereo number }
{
    match number {
        0 => Some(StereoMode::Mono),
        1 => Some(StereoMode::SideBySide(EyeOrder::LeftFirst)),
        2 => Some(StereoMode::TopBottom(EyeOrder::RightFirst)),
        3 => Some(StereoMode::TopBottom(EyeOrder::LeftFirst)),
        4 => Some(StereoMode::Checkboard(EyeOrder::RightFirst)),
        5 => Some(StereoMode::Checkboard(EyeOrder::LeftFirst)),
        6 => Some(StereoMode::RowInterleaved(EyeOrder::RightFirst)),
        7 => Some(StereoMode::RowInterleaved(EyeOrder::LeftFirst)),
        8 => Some(StereoMode::ColumnInterleaved(EyeOrder::RightFirst)),
        9 => Some(StereoMode::ColumnInterleaved(EyeOrder::LeftFirst)),
        10 => Some(StereoMode::Anaglyph(StereoColors::CyanRed)),
        11 => Some(StereoMode::SideBySide(EyeOrder::RightFirst)),
        12 => Some(StereoMode::Anaglyph(StereoColors::GreenMagenta)),
        13 => Some(StereoMode::Interlaced(EyeOrder::LeftFirst)),
        14 => Some(StereoMode::Interlaced(EyeOrder::RightFirst)),
        _ => None,
    }
}

// What a number that may be unset says of the mode.
pub fn stereo_of(number: Option<u64>) -> Option<StereoMode>
    ensures { stereo_told result ≡ said stereo number }
{
    mode_of(number?)
}
