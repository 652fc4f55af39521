// What a typed body is (document 01, Bodies; RFC 8794, section 7): its types, definitions and theorems.
#![tactic(auto)]

mod body;

pub use body::{Body, Range, Value};
