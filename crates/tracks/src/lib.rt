// The entries of Tracks (document 02, C-11): which track is which, and its settings.
//
// The question takes the place of a Tracks payload, reads it into a lent table and builds the record asked for.
// The builders are for the crates above, which ask many records of one read.
#![tactic(auto)]

mod settings;
mod track;
mod typed;

pub use settings::settings_in;
pub use track::{track_at, track_in};
