//! The notebook under edits: the answers of [`Notebook`] are those of running all its cells in
//! order from nothing.
#![tactic(auto)]

mod edit;
mod kernel;
mod notebook;
mod query;
mod reading;
mod shared_change;
mod together;
mod trying;
mod world;

pub use edit::{Edit, EditFault};
pub use nd_cell::{
    CellFault, CellResult, FormatFault, IndexFault, Meter, NpyFault, ParseKind, ReduceFault,
    Refusal, ShapeFault, StmtError, StmtFault, UfuncFault, ViewFault,
};
pub use nd_session::session::{CellRule, Input, OutOfMemory, is_input_name};
pub use nd_types::{Elem, ElemType, Field, Kind, RecType};
pub use notebook::Notebook;
pub use query::{BoundValue, QueryFault, Shown, ShownElements};
pub use reading::{BlockRead, CellReads, NameRead};
pub use together::{OwnedEdit, RefusedEdit};
pub use trying::TriedCell;
