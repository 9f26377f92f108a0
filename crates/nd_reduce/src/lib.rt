//! Reductions: folds of runs of numbers, and folds along an axis of an array.
#![tactic(auto)]

pub mod axes;
pub mod folds;
