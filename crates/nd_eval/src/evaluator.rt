//! `Evaluator`: expressions and statements of the running cell, over its session and the inputs.

use nd_session::session::{Inputs, Session};

/// The evaluation of a statement: the session that it reads and changes, and the inputs.
///
/// In `y = x[1:] + 1` the name `x` and the bytes of `x[1:]` are noted as read, and the sum is a new
/// block. The name `y` is bound by the effect, behind the evaluation.
#[derive(Drop)]
pub(crate) struct Evaluator<'s> {
    pub(crate) session: &'s mut Session,
    pub(crate) inputs: &'s Inputs,
}
