// Numbers that stand for a name (document 01, Records; document 02, C-11): the type of a track, and a stereo mode.
//
// The public calls are `Tracktype::new` and `StereoMode::number`.
#![tactic(auto)]

mod stereo;
mod tracktype;

pub use stereo::{EyeOrder, StereoColors, StereoMode};
pub use tracktype::Tracktype;
