// Elements into rows of a lent table (document 01, Element table).
//
// `read` is the public call. The crates above that answer from the rows fill a cleared table by `fill`; others
// read elements without rows by `element_header` and `master_body`.
#![tactic(auto)]

mod element;
mod reply;
mod step;

pub use element::{DEPTHS, master_body};
pub use reply::{fill, read, read_again};
pub use step::element_header;
