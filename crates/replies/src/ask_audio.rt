// `audio START SIZE NUMBERS K BYTES`: the settings of an audio track.
use crate::cells::Cells;
use answers::told::Told;
use media_rules::Audio;

// `rate F channels N depth N`
impl Cells for Audio {
    fn cells(self, told: Told) -> Told {
        with_audio(told, 0, 1, 2, self)
    }
}

// The settings behind these words.
pub fn with_audio(told: Told, rate: u64, channels: u64, depth: u64, audio: Audio) -> Told {
    told.with(rate, audio.sample_rate)
        .with(channels, audio.channels)
        .with(depth, audio.bit_depth)
}
