//! Sessions: names with their values, the blocks that arrays are views of, and what the running
//! cell has read and done. [`Session`] is the live one, [`Version`] a snapshot.
ghost use Rattle.nd_session.specs.Session.State.{State};
ghost use Rattle.nd_session.specs.Session.Listed.{IsListed};

mod change;
mod changes;
mod found;
mod order;
mod reads;
mod redo;
mod session;
mod version;

pub use crate::inputs::{
    CellRule, Input, Inputs, has_input, is_input_name, with_input, without_input,
};
pub use change::{Change, KeyFilter};
pub use changes::Changes;
pub use nd_heap::{Array, Base, BlockWriter, OutOfMemory, Value};
pub use nd_trace::{Event, Trace};
pub use order::NameOrder;
pub use reads::Reads;
pub use session::Session;
pub use version::Version;

/// A law: what a session has read and written is what its trace lists.
pub fn reads_are_listed()
    ensures { (s : State) → IsListed s }
{}
