// The walk to a part (document 01, Seek tables and the search): past what stands before the segment, over the segment's
// children, and by its seek heads.
//
// The crate of the search reads the part that `look_up` finds. `open` goes on from each child that it meets.
#![tactic(auto)]

mod meeting;
mod segment;
mod walk;

pub use meeting::{meet, past_child};
pub use segment::segment_of;
pub use walk::{look_up, stretch_of};
