//! Universal functions: of two scalars, as loops over runs of numbers, and element by element over arrays.
#![tactic(auto)]

pub mod elementwise;
pub mod loops;
pub mod scalar;
