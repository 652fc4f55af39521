// The settings of a video track.
use codes::StereoMode;

// By value; the gamma is a 64-bit float.
#[derive(Clone, Copy)]
pub struct Video {
    pub pixel_width: Option<u64>,
    pub pixel_height: Option<u64>,
    pub display_width: Option<u64>,
    pub display_height: Option<u64>,
    pub interlaced: Option<bool>,
    pub stereo: Option<StereoMode>,
    pub gamma: Option<f64>,
}
