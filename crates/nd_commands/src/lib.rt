//! Scripts of a notebook: [`run`] carries commands out one by one, and answers each. [`status_by`] is a
//! program without its `main`.
#![tactic(auto)]

mod answer;
mod answerer;
mod carry;
mod elements;
mod fault;
mod line;
mod program;
mod runner;
mod source;
mod value;

pub use answer::{push_edit_fault, push_edit_refusal, push_query_refusal, push_refusal};
pub use carry::set_input;
pub use fault::push_cell_fault;
pub use line::answer_line;
pub use nd_script::lines::{CountedRead, CountedWrite, RunFault, ScriptReader, ScriptWriter};
pub use program::{Scripting, read_bytes, status_by, status_of};
pub use runner::{room_for_sources, run, run_script, run_turns};
pub use source::{OpenText, Opening};
pub use value::{push_layout, push_shown};
