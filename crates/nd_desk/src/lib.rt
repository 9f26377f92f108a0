//! Scripts with words for front ends: [`run_desk`] carries out the commands of a script and more.
//! [`status`] is the program without its `main`.
#![tactic(auto)]

ghost use Rattle.nd_desk.specs.Laws.{WordsWereBad};

mod answer;
mod answerer;
mod carry;
mod file;
mod form;
mod gather;
mod index;
mod line;
mod part;
mod program;
mod raw;
mod reads;
mod runner;
mod word;

pub use program::status;
pub use runner::run_desk;

/// No command of a script is another one here: each word for front ends is a bad command elsewhere, and
/// so is the line that ends edits.
pub fn words_were_bad()
    ensures { WordsWereBad }
{}
