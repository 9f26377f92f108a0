//! `reduce_elements` and `reduce_scalar`: reductions of arrays and of NumPy scalars.

ghost use Rattle.std.specs.Prelude.{◌≡◌};
ghost use Rattle.nd_model.specs.Making.Elementwise.{numbers_made};
ghost use Rattle.nd_model.specs.Making.Operand.{Plain, Scalar};
ghost use Rattle.nd_model.specs.Making.Operators as operators;
ghost use Rattle.nd_model.specs.Making.Reductions.{accumulated_numbers, reduced_numbers};
ghost use Rattle.nd_types.specs.Kinds.{kind_of};
ghost use Rattle.nd_syntax.specs.Trees.Calls.{reduction_of};
ghost use Rattle.nd_operation.specs.Operators.Contents.{elements_operand, num_of};
ghost use Rattle.nd_operation.specs.Refusals.Ends.{Says};
ghost use Rattle.nd_operation.specs.Operators.New.{MakesNew};
ghost use Rattle.nd_eval.specs.Reducing.Stops.{fold_stop, scalar_number};

use nd_operation::operators::{BorrowedArray, New, new_numbers};
use nd_operation::refusals::{ReduceFault as Refusal, StmtError, StmtFault, Stop};
use nd_reduce::axes::{AxisFault, accumulate, reduce, reduce_number};
use nd_syntax::trees::Reduction;
use nd_types::{Kind, Num, fits};
use std::alloc::Global;

/// The refusal of a reduction, as a statement's.
fn stop_of(fault: AxisFault) -> Stop
    ensures { result ≡ fold_stop fault }
{
    match fault {
        AxisFault::Memory(memory) => Stop::Memory(memory),
        AxisFault::NotNumbers => Stop::Refused(StmtFault::Reduce(Refusal::NotNumbers)),
        AxisFault::NoAxis => Stop::Refused(StmtFault::Reduce(Refusal::NoAxis)),
        AxisFault::EmptyReduce => Stop::Refused(StmtFault::Reduce(Refusal::EmptyReduce)),
        AxisFault::View(fault) => Stop::Refused(StmtFault::View(fault)),
    }
}

/// Returns the NumPy scalar that a number counts as: a Python integer is an `int64`, if it fits.
pub(crate) fn scalar_of(number: Num) -> Result<(Kind, i128), StmtFault>
    ensures { Says scalar_number result (operators.numpy_number (num_of number)) }
{
    match number {
        Num::Int(int) => {
            if !fits(Kind::I64, int) {
                return Err(StmtFault::Stmt(StmtError::NeedsType));
            }
            Ok((Kind::I64, int))
        }
        Num::Bool(truth) => Ok((Kind::Bool, i128::from(truth))),
        Num::Scalar(kind, int) => Ok((kind, int)),
    }
}

/// Returns the reduction of a NumPy scalar.
pub(crate) fn reduce_scalar(
    reduction: Reduction,
    _keepdims: bool,
    kind: Kind,
    number: i128,
    axis: Option<i128>,
) -> Result<New, Stop>
    ensures { MakesNew result (numbers_made (reduced_numbers (reduction_of reduction) axis
        _keepdims (Plain (Scalar (kind_of kind) number)))) }
{
    match reduce_number(reduction, axis, kind, number) {
        Ok(number) => Ok(New::Number(number)),
        Err(fault) => Err(stop_of(fault)),
    }
}

/// Returns the reduction of elements along an axis, or of all of them.
pub(crate) fn reduce_elements(
    alloc: Global,
    reduction: Reduction,
    keepdims: bool,
    elements: &BorrowedArray<'_>,
    axis: Option<i128>,
) -> Result<New, Stop>
    ensures { MakesNew result (numbers_made (reduced_numbers (reduction_of reduction) axis
        keepdims (elements_operand elements.now))) }
{
    elements.soundness();
    match reduce(
        alloc,
        reduction,
        axis,
        keepdims,
        elements.view,
        elements.block,
    ) {
        Ok((view, block)) => {
            // proof: the shape is within the limits of arrays, by the clause of shape().
            let _shape = view.shape();
            Ok(new_numbers(view, block))
        }
        Err(fault) => Err(stop_of(fault)),
    }
}

/// Returns the accumulation of elements along an axis, or of all of them.
pub(crate) fn accumulate_elements(
    alloc: Global,
    reduction: Reduction,
    elements: &BorrowedArray<'_>,
    axis: Option<i128>,
) -> Result<New, Stop>
    ensures { MakesNew result (numbers_made (accumulated_numbers (reduction_of reduction) axis
        (elements_operand elements.now))) }
{
    elements.soundness();
    match accumulate(alloc, reduction, axis, elements.view, elements.block) {
        Ok((view, block)) => {
            // proof: the shape is within the limits of arrays, by the clause of shape().
            let _shape = view.shape();
            Ok(new_numbers(view, block))
        }
        Err(fault) => Err(stop_of(fault)),
    }
}
