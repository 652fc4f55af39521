// A track.
use crate::settings::Settings;
use bodies_rules::Range;
use codes::Tracktype;
use fields_rules::Language;

#[derive(Clone, Copy)]
pub struct Track {
    pub number: Option<u64>,
    pub uid: Option<u64>,
    pub tracktype: Option<Tracktype>,
    pub enabled: Option<bool>,
    pub default: Option<bool>,
    pub forced: Option<bool>,
    // The five flags 55AB to 55AF stay unset (document 02, C-11); their rows are in the table.
    pub hearing_impaired: Option<bool>,
    pub visual_impaired: Option<bool>,
    pub text_descriptions: Option<bool>,
    pub original: Option<bool>,
    pub commentary: Option<bool>,
    // The crate calls it `interlaced`.
    pub lacing: Option<bool>,
    // In nanoseconds, of a frame.
    pub default_duration: Option<u64>,
    pub name: Option<Range>,
    pub language: Option<Language>,
    pub codec_id: Option<Range>,
    pub codec_private: Option<Range>,
    pub codec_name: Option<Range>,
    pub settings: Option<Settings>,
}
