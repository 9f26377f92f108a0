//! The parser: from a cell's text to its statements, or the first fault with its line and column.
#![tactic(auto)]

pub mod calls;
pub mod cells;
pub mod reader;
pub mod rules;
