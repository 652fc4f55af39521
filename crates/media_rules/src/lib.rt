// What the settings of a track are (document 01, Records; document 02, C-11), audio and video.
#![tactic(auto)]

mod audio;
mod video;

pub use audio::Audio;
pub use video::Video;
