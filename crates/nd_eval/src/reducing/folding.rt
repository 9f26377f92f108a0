//! `make_fold`: the result of a reduction or accumulation, by its call.

ghost use Rattle.std.specs.Prelude.{◌≡◌, Some};
ghost use Rattle.nd_model.specs.Cells.Meaning.{along};
ghost use Rattle.nd_model.specs.Making.Reductions as reductions;
ghost use Rattle.nd_syntax.specs.Trees.Calls.{accumulation_of, reduction_of, ufunc_of};
ghost use Rattle.nd_operation.specs.Operators.Contents.{operand_of};
ghost use Rattle.nd_operation.specs.Refusals.Ends.{Says};
ghost use Rattle.nd_operation.specs.Operators.New.{MakesNew};
ghost use Rattle.nd_eval.specs.Reducing.Folds.{made_of_fold};

use crate::reducing::numbers::{accumulate_elements, reduce_elements, reduce_scalar, scalar_of};
use nd_operation::operators::{New, Operand, bad_argument, not_an_array};
use nd_operation::refusals::{ReduceFault, StmtFault, Stop};
use nd_syntax::trees::{Accumulation, Reduction, Ufunc};
use nd_types::{ElemType, Num};
use std::alloc::Global;

/// A reduction or accumulation, as a statement calls it.
#[derive(Clone, Copy)]
pub(crate) enum Folding {
    /// `x.sum()` and the like, and whether `keepdims` is true.
    Reduce(Reduction, bool),
    /// `x.cumsum()`, `x.cumprod()`
    Accumulate(Accumulation),
    /// `np.add.reduce(x)` and the like, and whether `keepdims` is true.
    ReduceCall(Ufunc, bool),
    /// `np.add.accumulate(x)` and the like.
    AccumulateCall(Ufunc),
}

/// The axis that is written, a Python integer.
fn axis_number(axis: &Operand<'_>) -> Result<i128, StmtFault>
    ensures { Says (λ z. z) result (reductions.axis_number (operand_of axis.now)) }
{
    match axis {
        Operand::Number(Num::Int(number)) => Ok(*number),
        _ => Err(bad_argument()),
    }
}

/// The reduction of a universal function.
fn ufunc_reduction(ufunc: Ufunc) -> Reduction
    ensures { reduction_of result ≡ reductions.ufunc_reduction (ufunc_of ufunc) }
{
    match ufunc {
        Ufunc::Add => Reduction::Sum,
        Ufunc::Multiply => Reduction::Prod,
        Ufunc::Minimum => Reduction::Min,
        Ufunc::Maximum => Reduction::Max,
    }
}

/// The reduction of an accumulation.
fn accumulation_reduction(accumulation: Accumulation) -> Reduction
    ensures { reduction_of result
        ≡ reductions.accumulation_reduction (accumulation_of accumulation) }
{
    match accumulation {
        Accumulation::CumSum => Reduction::Sum,
        Accumulation::CumProd => Reduction::Prod,
    }
}

/// `x.sum(..)` and the like, of an array or a NumPy scalar.
fn reduce_array(
    alloc: Global,
    reduction: Reduction,
    keepdims: bool,
    operand: &Operand<'_>,
    axis: Option<i128>,
) -> Result<New, Stop>
    ensures { MakesNew result (reductions.reduce_array (reduction_of reduction) keepdims
        (operand_of operand.now) axis) }
{
    match operand {
        Operand::Number(Num::Scalar(kind, number)) => {
            reduce_scalar(reduction, keepdims, *kind, *number, axis)
        }
        Operand::Elements(elements) if !elements.is_row => {
            reduce_elements(alloc, reduction, keepdims, elements, axis)
        }
        _ => Err(Stop::Refused(not_an_array())),
    }
}

/// `x.cumsum(..)`, `x.cumprod(..)`, of an array.
fn accumulate_array(
    alloc: Global,
    accumulation: Accumulation,
    operand: &Operand<'_>,
    axis: Option<i128>,
) -> Result<New, Stop>
    ensures { MakesNew result (reductions.accumulate_array (accumulation_of accumulation)
        (operand_of operand.now) axis) }
{
    match operand {
        Operand::Elements(elements) if !elements.is_row => {
            accumulate_elements(alloc, accumulation_reduction(accumulation), elements, axis)
        }
        _ => Err(Stop::Refused(not_an_array())),
    }
}

/// `np.add.reduce(x, ..)` and the like, for which Python's numbers count as NumPy's.
fn reduce_call(
    alloc: Global,
    ufunc: Ufunc,
    keepdims: bool,
    operand: &Operand<'_>,
    axis: Option<i128>,
) -> Result<New, Stop>
    ensures { MakesNew result (reductions.reduce_call (ufunc_of ufunc) keepdims
        (operand_of operand.now) axis) }
{
    let reduction = ufunc_reduction(ufunc);
    match operand {
        Operand::Number(number) => {
            let (kind, number) = scalar_of(*number)?;
            reduce_scalar(reduction, keepdims, kind, number, axis)
        }
        Operand::Elements(elements) => {
            reduce_elements(alloc, reduction, keepdims, elements, axis)
        }
    }
}

/// `np.add.accumulate(x, ..)` and the like. A value without axes cannot be accumulated.
fn accumulate_call(
    alloc: Global,
    ufunc: Ufunc,
    operand: &Operand<'_>,
    axis: Option<i128>,
) -> Result<New, Stop>
    ensures { MakesNew result (reductions.accumulate_call (ufunc_of ufunc)
        (operand_of operand.now) axis) }
{
    let Operand::Elements(elements) = operand else {
        if let Operand::Number(number) = operand {
            scalar_of(*number)?;
        }
        return Err(Stop::Refused(StmtFault::Reduce(ReduceFault::NoAxis)));
    };
    if let ElemType::Rec(_) = elements.view.elem() {
        return Err(Stop::Refused(StmtFault::Reduce(ReduceFault::NotNumbers)));
    }
    if elements.view.shape().is_empty() {
        return Err(Stop::Refused(StmtFault::Reduce(ReduceFault::NoAxis)));
    }
    accumulate_elements(alloc, ufunc_reduction(ufunc), elements, axis)
}

/// Returns the reduction or accumulation of an operand, along this axis or of all numbers. The sum
/// of `[[0 1 2] [3 4 5]]` along axis 0 is `[3 5 7]`, and of all numbers 15.
///
/// Refused in this order: `NotAnArray` or `NeedsType`, `NotNumbers`, `NoAxis`, `EmptyReduce`, the
/// limits of arrays. `NotAnArray` is for a method of no array, and of no NumPy scalar where it
/// reduces. `NeedsType` is for a Python integer outside `int64`.
pub(crate) fn make_fold(
    alloc: Global,
    folding: Folding,
    operand: &Operand<'_>,
    axis: Option<i128>,
) -> Result<New, Stop>
    ensures { MakesNew result (made_of_fold folding (operand_of operand.now) axis) }
{
    match folding {
        Folding::Reduce(reduction, keepdims) => {
            reduce_array(alloc, reduction, keepdims, operand, axis)
        }
        Folding::Accumulate(accumulation) => accumulate_array(alloc, accumulation, operand, axis),
        Folding::ReduceCall(ufunc, keepdims) => reduce_call(alloc, ufunc, keepdims, operand, axis),
        Folding::AccumulateCall(ufunc) => accumulate_call(alloc, ufunc, operand, axis),
    }
}

/// Returns the reduction or accumulation of an operand along the axis that another operand says. An
/// axis that is no Python integer is refused first (`BadArgument`).
pub(crate) fn make_fold_along(
    alloc: Global,
    folding: Folding,
    operand: &Operand<'_>,
    axis: &Operand<'_>,
) -> Result<New, Stop>
    ensures { MakesNew result
        (along (made_of_fold folding) (operand_of operand.now) (operand_of axis.now)) }
{
    let axis = axis_number(axis)?;
    make_fold(alloc, folding, operand, Some(axis))
}
