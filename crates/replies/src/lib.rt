// The answers of the program `ask` to the questions for records, track types, shown text and labels.
#![tactic(auto)]

mod ask_attachment;
mod ask_audio;
mod ask_chapter;
mod ask_display;
mod ask_edition;
mod ask_family;
mod ask_info;
mod ask_label;
mod ask_shown;
mod ask_simple;
mod ask_tag;
mod ask_track;
mod ask_tracktype;
mod ask_uid;
mod cells;
mod records;

pub use ask_label::label;
pub use ask_shown::shown_bytes;
pub use records::record;
