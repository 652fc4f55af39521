// `track START SIZE NUMBERS K BYTES`: a track, and its settings.
use crate::ask_audio::with_audio;
use crate::ask_tracktype::type_index;
use crate::cells::Cells;
use answers::told::{Told, Value};
use codes::Tracktype;
use media_rules::Video;
use tracks_rules::{Settings, Track};

// `number N uid N type T`, the flags, `duration N`, the texts, and the settings.
impl Cells for Track {
    fn cells(self, told: Told) -> Told {
        let told = told.with(8, self.number).with(9, self.uid);
        let told = with_flags(with_type(told, self.tracktype), self);
        let told = told
            .with(20, self.default_duration)
            .with(21, self.name)
            .with(22, self.language)
            .with(23, self.codec_id)
            .with(24, self.codec_private)
            .with(25, self.codec_name);
        with_settings(told.word(26), self.settings)
    }
}

// `enabled F default F forced F hearing F visual F text F original F commentary F lacing F`
fn with_flags(told: Told, track: Track) -> Told {
    told.with(11, track.enabled)
        .with(12, track.default)
        .with(13, track.forced)
        .with(14, track.hearing_impaired)
        .with(15, track.visual_impaired)
        .with(16, track.text_descriptions)
        .with(17, track.original)
        .with(18, track.commentary)
        .with(19, track.lacing)
}

// `type T`; the types are the first words.
fn with_type(told: Told, tracktype: Option<Tracktype>) -> Told {
    match tracktype {
        None => told.with(10, Value::Unset),
        Some(tracktype) => told.word(10).word(type_index(tracktype)),
    }
}

// Behind `settings`: `none`, `audio ..` or `video ..`
fn with_settings(told: Told, settings: Option<Settings>) -> Told {
    match settings {
        None => told.word(27),
        Some(Settings::Audio(audio)) => with_audio(told.word(1), 28, 29, 30, audio),
        Some(Settings::Video(video)) => with_video(told.word(0), video),
    }
}

// `width N height N dwidth N dheight N interlaced F stereo N gamma F`
fn with_video(told: Told, video: Video) -> Told {
    told.with(31, video.pixel_width)
        .with(32, video.pixel_height)
        .with(33, video.display_width)
        .with(34, video.display_height)
        .with(35, video.interlaced)
        .with(36, video.stereo.map(|mode| mode.number()))
        .with(37, video.gamma)
}
