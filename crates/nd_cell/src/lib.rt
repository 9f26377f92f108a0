//! Cells: [`run_cell`] runs one over a session, and gives a [`Record`] by which it is replayed.
#![tactic(auto)]

mod record;
mod result;
mod run;

pub use nd_eval::{
    FormatFault, IndexFault, NpyFault, ReduceFault, ShapeFault, StmtError, StmtFault, UfuncFault,
    ViewFault,
};
pub use nd_meter::Meter;
pub use nd_parse::cells::ParseKind;
pub use nd_session::session::CellRule;
pub use record::Record;
pub use result::{CellFault, CellResult, Refusal};
pub use run::run_cell;
