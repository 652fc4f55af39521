// Why a call refuses (document 01, Numbers that bound a call): the causes, their numbers, and the id that 8 carries.
#![tactic(auto)]

mod refusal;

pub use refusal::{Cause, Refusal};
