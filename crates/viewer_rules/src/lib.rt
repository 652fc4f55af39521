// What the C face tells: the structs that cross, and what their numbers are of the calls' replies.
#![tactic(auto)]

mod opened;
mod owned;
mod part;
mod range;
mod whose;

pub use opened::{UzFound, UzOpened};
pub use owned::UzOwned;
pub use part::UzPart;
pub use range::UzRange;
pub use whose::UzPlace;
