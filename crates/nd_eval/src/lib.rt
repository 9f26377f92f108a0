//! Statements, evaluated over a session: [`run_stmt`] is the only way in.
#![tactic(auto)]

mod augment;
mod choosing;
mod effect;
mod eval;
mod evaluator;
mod exec;
mod files;
mod folds;
mod loading;
mod operation;
mod reducing;
mod storing;
mod subscripts;
mod views;

pub use exec::{Output, run_stmt};
pub use nd_operation::refusals::{
    FormatFault, IndexFault, NpyFault, ReduceFault, ShapeFault, StmtError, StmtFault, UfuncFault,
    ViewFault,
};
