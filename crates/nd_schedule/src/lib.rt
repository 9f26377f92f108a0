//! The schedule: after an edit, which cells of a notebook run, and whose records are kept, by what the edit changed.
#![tactic(auto)]

pub mod cells;
pub mod schedule;
