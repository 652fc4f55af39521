// The payload of a row (document 01, Element table): its range, and the very part of the recording.
//
// The public calls are `payload_range` and `row_payload`.
#![tactic(auto)]

mod payload;

pub use payload::{payload_range, row_payload};
