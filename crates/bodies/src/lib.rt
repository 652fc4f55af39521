// The reader of typed bodies (document 01, Bodies; RFC 8794, section 7).
//
// `body_at` is the public call. The crates above hand an element whose header was read to
// `read_body`.
#![tactic(auto)]

mod range;
mod reply;
mod typed;

pub use reply::body_at;
pub use typed::read_body;
