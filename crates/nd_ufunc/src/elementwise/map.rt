//! `map2` and `map1`: NumPy's universal functions of two operands and of one.
ghost use Rattle.std.specs.Prelude.{◌≡◌, ◌≢◌, ℕ, ◌^◌, ◌≤◌, pos, List, replicate, None, Result, Ok, true, IfOk};
ghost use Rattle.nd_model.specs.Arrays.Broadcast as broadcasting;
ghost use Rattle.nd_model.specs.Arrays.Element as element;
ghost use Rattle.nd_model.specs.Arrays.Strides.{IsInLimits};
ghost use Rattle.nd_model.specs.Arrays.Tuple.{elements_of};
ghost use Rattle.nd_model.specs.Making.Elementwise as elementwise;
ghost use Rattle.nd_model.specs.Making.Elementwise.{little, operand_sort, single_number};
ghost use Rattle.nd_model.specs.Making.Operand as operand;
ghost use Rattle.nd_model.specs.Making.Operators as operators;
ghost use Rattle.nd_model.specs.Grammar.Syntax as syntax;
ghost use Rattle.nd_model.specs.Arrays.View.{One, contiguous};
ghost use Rattle.nd_model.specs.Cells.Fault.{Fault};
ghost use Rattle.nd_types.specs.Kinds.{kind_of};
ghost use Rattle.nd_ufunc.specs.Scalar.Ufuncs.{single_of, ufunc_of};
ghost use Rattle.nd_ufunc.specs.Elementwise.Arguments.{LiesInBlock, argument_of, numbers_beside};
ghost use Rattle.nd_ufunc.specs.Elementwise.Faults.{Makes};
ghost use Rattle.nd_ufunc.specs.Elementwise.Made.{array_of, bytes_unless_below, with_view};
ghost use Rattle.nd_ufunc.specs.Elementwise.Stretched.{HasCount, IsHeld, stretched_numbers};
ghost use Rattle.nd_ufunc.specs.Loops.Results.{result_bytes};

use crate::elementwise::argument::{Argument, argument_sort, binary_kind, shape_of, single_kind};
use crate::elementwise::fault::MapFault;
use crate::elementwise::powers::has_power_below;
use crate::elementwise::results::{binary_results, single_results};
use crate::elementwise::stretched::{Stretched, stretch};
use crate::scalar::{BinaryUfunc, Single, UfuncFault};
use nd_block::RawBlock;
use nd_shape::broadcast;
use nd_types::{Elem, ElemType, Kind};
use nd_view::{Shape, View, limit_fault};
use std::alloc::{AllocError, Global};

// The shape to which both shapes broadcast.
fn common_shape(alloc: Global, left: &[u64], right: &[u64]) -> Result<Shape, MapFault>
    ensures { Makes (λ v. v.items) result
        (elementwise.common_shape (broadcasting.broadcast left.now right.now)) }
{
    match broadcast(alloc, left, right)? {
        Some(shape) => Ok(shape),
        None => Err(MapFault::Ufunc(UfuncFault::ShapeMismatch)),
    }
}

// The view of a new contiguous array of numbers, within the limits of arrays.
fn new_view(alloc: Global, kind: Kind, shape: &[u64]) -> Result<View, MapFault>
    ensures { Makes (λ v. v) result (broadcasting.in_limits (One (little (kind_of kind))) shape.now
        (Ok (contiguous (One (little (kind_of kind))) shape.now))) }
{
    if let Some(fault) = limit_fault(kind.size(), shape) {
        return Err(MapFault::View(fault));
    }
    let view = View::contiguous(alloc, ElemType::One(Elem::little(kind)), shape)?;
    Ok(view)
}

// The block with the results for `count` numbers of both operands. A negative exponent is refused.
fn binary_block(
    alloc: Global,
    ufunc: BinaryUfunc,
    kind: Kind,
    left: &Stretched<'_>,
    right: &Stretched<'_>,
    count: usize,
) -> Result<RawBlock, MapFault>
    requires ufunc { ufunc_of ufunc ≢ operators.Operator syntax.Divide }
    requires left { IsHeld left.now }
    requires left_count { HasCount left.now count }
    requires right { IsHeld right.now }
    requires right_count { HasCount right.now count }
    requires count { count ≤ 2 ^ 24 }
    ensures { Makes (λ b. b) result (bytes_unless_below (ufunc_of ufunc) (kind_of kind)
        (stretched_numbers left.now count) (stretched_numbers right.now count)) }
{
    if has_power_below(ufunc, right, count) {
        return Err(MapFault::Ufunc(UfuncFault::NegativePower));
    }
    let block = binary_results(alloc, ufunc, kind, left, right, count)?;
    Ok(block)
}

// The block with the results for both operands, broadcast to this shape of `count` elements, which
// is known to be possible. A negative exponent is refused.
fn block_beside(
    alloc: Global,
    ufunc: BinaryUfunc,
    kind: Kind,
    left: Argument<'_>,
    right: Argument<'_>,
    shape: &[u64],
    count: usize,
) -> Result<RawBlock, MapFault>
    requires ufunc { ufunc_of ufunc ≢ operators.Operator syntax.Divide }
    requires left { LiesInBlock left }
    requires right { LiesInBlock right }
    requires left_numbers { operand_sort (argument_of left) ≢ None }
    requires right_numbers { operand_sort (argument_of right) ≢ None }
    requires limits { (k : element.Kind) → IsInLimits (element.size_of k) shape.now }
    requires left_fits { broadcasting.broadcasts_to (operand.shape_of (argument_of left)) shape.now
        ≡ true }
    requires right_fits { broadcasting.broadcasts_to (operand.shape_of (argument_of right))
        shape.now ≡ true }
    requires elements { count ≡ elements_of shape.now }
    requires count { count ≤ 2 ^ 24 }
    ensures { Makes (λ b. b) result (bytes_unless_below (ufunc_of ufunc) (kind_of kind)
        (numbers_beside (argument_of left.entry) shape.now)
        (numbers_beside (argument_of right.entry) shape.now)) }
{
    let left = stretch(alloc, left, shape)?;
    let right = stretch(alloc, right, shape)?;
    binary_block(alloc, ufunc, kind, &left, &right, count)
}

// A view with its block, where that was made.
fn with_block(view: View, block: Result<RawBlock, MapFault>) -> Result<(View, RawBlock), MapFault>
    ensures { (made : Result (List ℕ) Fault) → Makes (λ b. b) block made
        → Makes (λ m. m) result (with_view view made) }
{
    match block {
        Ok(block) => Ok((view, block)),
        Err(fault) => Err(fault),
    }
}

/// Returns the results of a function of two operands, broadcast, as a new contiguous little-endian
/// array in the kind that NEP 50 gives.
///
/// Operands of shapes (3, 1) and (4,) give results of shape (3, 4) (NumPy user guide,
/// "Broadcasting").
///
/// Refused in this order: operands that the function does not take, shapes that do not broadcast
/// (`ShapeMismatch`), the limits of arrays, a negative exponent (`NegativePower`).
///
/// `FloorDivide` of the `int64` elements `[7 -7]` and the number 2 gives `[3 -4]`.
pub fn map2(
    alloc: Global,
    ufunc: BinaryUfunc,
    left: Argument<'_>,
    right: Argument<'_>,
) -> Result<(View, RawBlock), MapFault>
    requires left { LiesInBlock left }
    requires right { LiesInBlock right }
    ensures { Makes (λ made. made) result (array_of (elementwise.binary_numbers (ufunc_of ufunc)
        (argument_of left.entry) (argument_of right.entry))) }
{
    let kind = binary_kind(ufunc, argument_sort(left), argument_sort(right))?;
    let shape = common_shape(alloc, shape_of(left), shape_of(right))?;
    let view = new_view(alloc, kind, shape.as_slice())?;
    let count = view.count();
    let block = block_beside(alloc, ufunc, kind, left, right, shape.as_slice(), count);
    with_block(view, block)
}

// The block with the results for an operand, broadcast to this shape of `count` elements, which is
// known to be possible.
fn single_block(
    alloc: Global,
    op: Single,
    kind: Kind,
    argument: Argument<'_>,
    shape: &[u64],
    count: usize,
) -> Result<RawBlock, AllocError>
    requires lies { LiesInBlock argument }
    requires numbers { operand_sort (argument_of argument) ≢ None }
    requires limits { (k : element.Kind) → IsInLimits (element.size_of k) shape.now }
    requires fits { broadcasting.broadcasts_to (operand.shape_of (argument_of argument)) shape.now
        ≡ true }
    requires elements { count ≡ elements_of shape.now }
    requires count { count ≤ 2 ^ 24 }
    ensures { IfOk result (λ b. b ≡ result_bytes (little (kind_of kind))
        (λ x y. single_number (single_of op) (kind_of kind) x)
        (numbers_beside (argument_of argument.entry) shape.now) (replicate count (pos 0))) }
{
    let numbers = stretch(alloc, argument, shape)?;
    single_results(alloc, op, kind, &numbers, &Stretched::Number(0), count)
}

/// Returns the results of a function of one operand as a new contiguous little-endian array of the
/// operand's kind and shape.
///
/// Refused in this order: operands that the function does not take, the limits of arrays.
///
/// `Negative` of the `uint8` elements `[0 1]` gives `[0 255]`.
pub fn map1(alloc: Global, op: Single, argument: Argument<'_>) -> Result<(View, RawBlock), MapFault>
    requires { LiesInBlock argument }
    ensures { Makes (λ made. made) result
        (array_of (elementwise.single_numbers (single_of op) (argument_of argument.entry))) }
{
    let kind = single_kind(op, argument_sort(argument))?;
    let shape = shape_of(argument);
    let view = new_view(alloc, kind, shape)?;
    let block = single_block(alloc, op, kind, argument, shape, view.count())?;
    Ok((view, block))
}
