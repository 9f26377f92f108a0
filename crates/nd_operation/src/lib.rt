//! What expressions work out: operators and functions of values, reductions, files, and why each is refused.
#![tactic(auto)]

pub mod operators;
pub mod refusals;
