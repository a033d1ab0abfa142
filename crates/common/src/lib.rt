// Small functions that every layer uses, and the refusals of all calls.
#![tactic(auto)]

pub mod copy;
pub mod refusal;
