// The settings of a video track: its fields.
ghost use Rattle.std.specs.Prelude.{◌≡◌};
ghost use Rattle.fields.specs.Read.{read};
ghost use Rattle.fields_rules.specs.Told.{flag_told};
ghost use Rattle.media_rules.specs.Said.{said};
ghost use Rattle.media_rules.specs.Video.{interlaced};
ghost use Rattle.media_rules.specs.Records.{video_of};
ghost use Rattle.media_rules.specs.Told.{video_values};

use crate::stereo::stereo_of;
use fields::Fields;
use kinds::ids;
use media_rules::Video;

// 1 is yes and 2 is no; any other number is unset.
fn interlaced_of(number: Option<u64>) -> Option<bool>
    ensures { flag_told result ≡ said interlaced number }
{
    match number? {
        1 => Some(true),
        2 => Some(false),
        _ => None,
    }
}

// The video settings, by the rows below their master.
pub fn video_in(fields: &Fields) -> Video
    ensures { video_values result ≡ read video_of fields.now }
{
    Video {
        pixel_width: fields.number(ids::PIXELWIDTH),
        pixel_height: fields.number(ids::PIXELHEIGHT),
        display_width: fields.number(ids::DISPLAYWIDTH),
        display_height: fields.number(ids::DISPLAYHEIGHT),
        interlaced: interlaced_of(fields.number(ids::INTERLACED)),
        stereo: stereo_of(fields.number(ids::STEREOMODE)),
        gamma: fields.real(ids::GAMMA),
    }
}
