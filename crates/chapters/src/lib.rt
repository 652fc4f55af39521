// The records of Chapters (document 01, Records): editions, their chapters, and what a chapter is shown as.
//
// A record question takes the place of a part's payload, reads it into a lent table and builds the record asked for.
// The builders are for the crates above, which ask many records of one read.
#![tactic(auto)]

mod chapter;
mod display;
mod edition;
mod first;

pub use chapter::{Chapter, chapter_at, chapter_in};
pub use display::{ChapterDisplay, display_at, display_in};
pub use edition::{ChapterEdition, edition_at, edition_in};
pub use first::first_string;
