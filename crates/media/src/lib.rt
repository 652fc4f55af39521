// The settings of a track (document 01, Records; document 02, C-11), audio and video.
//
// The question takes the place of an E1 payload, reads it into a lent table and builds the record asked for.
// The builders are for the crates above, which ask many records of one read.
#![tactic(auto)]

mod audio;
mod stereo;
mod video;

pub use audio::{audio_at, audio_in};
pub use video::video_in;
