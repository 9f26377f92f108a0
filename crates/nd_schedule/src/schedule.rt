//! The scheduler of a notebook, over what runs cells.
mod draft;
mod ending;
mod gathering;
mod matching;
mod merging;
mod moving;
mod notebook;
mod noting;
mod queries;
mod ran;
mod replacing;
mod runner;
mod shifting;
mod snapshots;
mod stopping;
mod sweep;
mod taking;
mod trying;

pub use draft::Draft;
pub use notebook::Schedule;
pub use runner::CellRunner;
