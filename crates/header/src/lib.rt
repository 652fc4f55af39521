// The header of an element: an id and a size (document 01, Headers; RFC 8794, sections 4 to 6).
//
// `header_at` is the public call. The crates above read on from place to place by `Cursor`.
#![tactic(auto)]

mod cursor;
mod reply;

pub use cursor::{Cursor, Headed, Header, big_endian};
pub use reply::{MOST_BYTES, header_at, is_place};
