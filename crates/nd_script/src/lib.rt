//! Scripts: lines of a stream, words of a line, pieces of an answer.
#![tactic(auto)]

pub mod lines;
pub mod words;
