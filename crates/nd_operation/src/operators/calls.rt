//! `make_of_one`: the result of a call or an operator of one operand.

ghost use Rattle.nd_operation.specs.Operators.Contents.{operand_of};
ghost use Rattle.nd_operation.specs.Operators.New.{MakesNew, made_of_one};

use crate::operators::conversion::{astype, convert, copy_array, new_array};
use crate::operators::operand::{New, Operand};
use crate::operators::operators::{call_single, make_single};
use crate::refusals::Stop;
use nd_syntax::trees::DType;
use nd_types::Kind;
use nd_ufunc::scalar::Single;
use std::alloc::Global;

/// A call, or an operator, of one operand.
#[derive(Clone, Copy)]
pub enum UnaryCall<'c> {
    Operator(Single),
    /// A function of NumPy.
    Ufunc(Single),
    /// `np.array`, with the dtype that is written
    ArrayOf(&'c Option<DType>),
    /// `np.int8` and the like.
    Convert(Kind),
    /// `.copy()`
    Copy,
    /// `.astype(t)`
    AsType(&'c DType),
}

/// Returns the result of a call or an operator of one operand.
pub fn make_of_one(alloc: Global, call: UnaryCall<'_>, operand: &Operand<'_>) -> Result<New, Stop>
    ensures { MakesNew result (made_of_one call.entry (operand_of operand.now)) }
{
    match call {
        UnaryCall::Operator(op) => make_single(alloc, op, operand),
        UnaryCall::Ufunc(op) => call_single(alloc, op, operand),
        UnaryCall::ArrayOf(dtype) => new_array(alloc, dtype, operand),
        UnaryCall::Convert(kind) => convert(alloc, kind, operand),
        UnaryCall::Copy => copy_array(alloc, operand),
        UnaryCall::AsType(dtype) => astype(alloc, dtype, operand),
    }
}
