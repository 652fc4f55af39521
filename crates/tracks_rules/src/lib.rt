// What the record of a track is (document 01, Records; document 02, C-11): its fields, and its settings.
#![tactic(auto)]

mod settings;
mod track;

pub use settings::{Deciding, Settings};
pub use track::Track;
