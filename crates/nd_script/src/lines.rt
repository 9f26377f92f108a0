//! The lines of a script, cut from what a reader gives: [`run_lines`] answers each before the next
//! is read.
mod answer_writer;
mod answerer;
mod input;
mod output;
mod run_fault;
mod runner;
mod script;

pub use answer_writer::{AnswerWrite, AnswerWriter};
pub use answerer::Answerer;
pub use input::{CountedRead, ScriptReader};
pub use output::{CountedWrite, ScriptWriter};
pub use run_fault::RunFault;
pub use runner::run_lines;
