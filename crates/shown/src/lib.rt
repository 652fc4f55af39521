// Shown text (document 02, C-13): of a row, by the public calls `text_range` and `shown_text`, and of any text, by
// `shown_part`.
#![tactic(auto)]

mod part;
mod text;

pub use part::shown_part;
pub use text::{shown_text, text_range};
