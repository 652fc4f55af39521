// The settings of an audio track.

// By value; the sample rate in Hz is a 64-bit float.
#[derive(Clone, Copy)]
pub struct Audio {
    pub sample_rate: Option<f64>,
    pub channels: Option<u64>,
    pub bit_depth: Option<u64>,
}
