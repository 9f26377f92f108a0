//! Refusals: [`StmtFault`] says why a statement is refused, [`Stop`] why an evaluation stops.
mod fault;
mod stop;

pub use fault::{
    FormatFault, IndexFault, NpyFault, ReduceFault, ShapeFault, StmtError, StmtFault, UfuncFault,
    ViewFault,
};
pub use stop::Stop;
