// The C face: all parts of a recording at once, the search for one, a row's payload range and shown text, and the
// address question, with a table and without, for the kit's viewer in C.
//
// A slice crosses as a pointer and a count, an answer as a struct of numbers. include/uzrafmed.h is the C side. How a
// reply crosses is told by a function and no `From`, since the reply and the struct are other crates' types.
#![tactic(auto)]

mod mode;
mod opened;
mod owned;
mod part;
mod payload;
mod range;
mod text;
mod whose;

pub use opened::uz_open;
pub use owned::{uz_owner, uz_owner_chain};
pub use part::uz_find_part;
pub use payload::uz_row_payload;
pub use text::uz_shown_text;
pub use whose::uz_whose_byte;
