// The label of a boot stage (document 01, Records; document 02, C-13), by the public call `stage_label`.
#![tactic(auto)]

mod label;

pub use label::stage_label;
