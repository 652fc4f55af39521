// What `open` tells of a whole recording (document 02, C-14): its five parts, the promise of the call, and its
// theorems.
#![tactic(auto)]

mod lent;
mod parts;
mod turns;

pub use lent::Lent;
pub use parts::{Parts, Which};
pub use turns::{Seeking, Stage, Turn};
