//! `make_range`: the array of a range of integers (`np.arange`).

ghost use Rattle.std.specs.Prelude.{◌≡◌, [], ◌∷◌, is_some, option_map, Ok};
ghost use Rattle.nd_model.specs.Making.Creation as creation;
ghost use Rattle.nd_model.specs.Arrays.Element.{size_of};
ghost use Rattle.nd_model.specs.Arrays.Strides.{IsInLimits};
ghost use Rattle.nd_syntax.specs.Trees.Calls.{dtype_of};
ghost use Rattle.nd_convert.specs.Creation.Ranges.{range_from};
ghost use Rattle.nd_operation.specs.Operators.Contents.{unused_of};
ghost use Rattle.nd_operation.specs.Refusals.Ends.{Makes, Says};
ghost use Rattle.nd_operation.specs.Operators.New.{MakesNew, bound_or, bounds_of, clip, range_made};

use crate::operators::arguments::integer_of;
use crate::operators::creation::check_limits;
use crate::operators::operand::New;
use crate::refusals::{IndexFault, StmtFault, Stop, UfuncFault};
use nd_convert::creation::{Range, range, range_count, range_misfit};
use nd_heap::Value;
use nd_syntax::dtypes::element_type;
use nd_syntax::trees::DType;
use nd_types::{Elem, ElemType, Kind};
use nd_view::View;
use std::alloc::Global;

/// The integer that a bound is, or `otherwise` where it is left out.
fn integer_or(bound: &Option<Value>, otherwise: i128) -> Result<i128, StmtFault>
    ensures { Says (λ z. z) result (bound_or bound.now otherwise) }
{
    match bound {
        Some(value) => integer_of(value),
        None => Ok(otherwise),
    }
}

/// The dtype, unless it is of Booleans.
fn range_element(elem: Elem) -> Result<Elem, StmtFault>
    ensures { Says (λ e. e) result (creation.range_element elem) }
{
    match elem.kind() {
        Kind::Bool => Err(StmtFault::Ufunc(UfuncFault::BoolOp)),
        _ => Ok(elem),
    }
}

/// The dtype of a range: `int64` where none is written. Structures and Booleans are refused.
fn element_of_range(alloc: Global, dtype: &Option<DType>) -> Result<Elem, Stop>
    ensures { Makes (λ e. e) result (creation.element_of_range (option_map dtype_of dtype.now)) }
{
    let Some(dtype) = dtype else {
        return Ok(Elem::little(Kind::I64));
    };
    match element_type(alloc, dtype)? {
        ElemType::One(elem) => Ok(range_element(elem)?),
        ElemType::Rec(_) => Err(Stop::Refused(StmtFault::Ufunc(UfuncFault::NotNumbers))),
    }
}

/// A count in 64 bits. A greater one, which exceeds the limits of arrays, counts as the greatest of
/// 64 bits.
fn clip_count(count: u128) -> u64
    ensures { result ≡ clip count }
{
    if count > u128::from(u64::MAX) {
        return u64::MAX;
    }
    count as u64
}

/// A new array of the numbers of a range.
fn new_range(alloc: Global, elem: Elem, bounds: Range, count: u64) -> Result<New, Stop>
    requires limits { IsInLimits (size_of elem.kind) (count ∷ []) }
    requires count { count ≡ creation.range_count (range_from bounds) }
    ensures { MakesNew result (Ok (range_made elem (range_from bounds))) }
{
    let view = View::contiguous(alloc, ElemType::One(elem), &[count])?;
    let block = range(alloc, elem, bounds.start, bounds.step, view.count())?;
    Ok(New::Array(view, block))
}

/// The array of a range. Refused for a step of 0, for too many numbers, and for the first number
/// that its kind does not hold.
fn range_array(alloc: Global, elem: Elem, bounds: Range) -> Result<New, Stop>
    ensures { MakesNew result (creation.range_array elem (range_from bounds)) }
{
    if bounds.step == 0 {
        return Err(Stop::Refused(StmtFault::Index(IndexFault::ZeroStep)));
    }
    let count = clip_count(range_count(bounds));
    check_limits(elem.size(), &[count])?;
    if let Some(int) = range_misfit(elem.kind(), bounds, count as usize) {
        return Err(Stop::Refused(StmtFault::Ufunc(UfuncFault::IntOutOfRange(int))));
    }
    new_range(alloc, elem, bounds, count)
}

/// Returns `np.arange`. A start that is left out is 0, a step 1. The bounds are values that are not
/// noted as used.
///
/// ```text
/// np.arange(3)           [0 1 2]
/// np.arange(5, 11, 2)    [5 7 9]
/// np.arange(3, 0, -1)    [3 2 1]
/// ```
pub fn make_range(
    alloc: Global,
    start: &Option<Value>,
    stop: &Value,
    step: &Option<Value>,
    dtype: &Option<DType>,
) -> Result<New, Stop>
    ensures { MakesNew result (creation.arange (is_some start.now) (is_some step.now)
        (option_map dtype_of dtype.now) (bounds_of start.now stop.now step.now)) }
{
    let start = integer_or(start, 0)?;
    let stop = integer_of(stop)?;
    let step = integer_or(step, 1)?;
    let elem = element_of_range(alloc, dtype)?;
    range_array(alloc, elem, Range { start, stop, step })
}
