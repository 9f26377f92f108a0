//! `map_two` and `map_one`: universal functions of operands, of which some is an array. They give a
//! new array, or a NumPy scalar for shape ().

ghost use Rattle.std.specs.Prelude.{◌≡◌, IfOk};
ghost use Rattle.nd_model.specs.Making.Augmenting as augmenting;
ghost use Rattle.nd_model.specs.Making.Augmenting.{operand_of_made};
ghost use Rattle.nd_model.specs.Making.Elementwise as elementwise;
ghost use Rattle.nd_model.specs.Making.Elementwise.{Numbers, numbers_made};
ghost use Rattle.nd_model.specs.Making.Operand.{made_of};
ghost use Rattle.nd_model.specs.Cells.Operation.{give};
ghost use Rattle.nd_syntax.specs.Trees.Syntax.{binary_op};
ghost use Rattle.nd_types.specs.Kinds.{kind_of};
ghost use Rattle.nd_ufunc.specs.Scalar.Ufuncs.{single_of, ufunc_of};
ghost use Rattle.nd_ufunc.specs.Elementwise.Arguments.{LiesInBlock, argument_of};
ghost use Rattle.nd_operation.specs.Operators.Contents.{operand_of};
ghost use Rattle.nd_operation.specs.Refusals.Ends.{Makes};
ghost use Rattle.nd_operation.specs.Operators.Elementwise.{IsArrayOf, as_array};
ghost use Rattle.nd_operation.specs.Operators.New.{MakesNew, NewLies, StandsFor, given, operand_of_new};
ghost use Rattle.nd_operation.specs.Refusals.Stops.{map_stop};
ghost use Rattle.nd_ufunc.specs.declared.elementwise.fault.MapFault.{MapFault};

use crate::operators::operand::{New, Operand};
use crate::refusals::Stop;
use nd_block::RawBlock;
use nd_syntax::trees::BinaryOp;
use nd_types::{ElemType, Kind, Num};
use nd_ufunc::elementwise::{Argument, in_place_kind, map1, map2};
use nd_ufunc::scalar::{BinaryUfunc, Single};
use nd_view::View;
use std::alloc::Global;

/// An operand as an argument of a universal function, for which a row is an array of shape ().
fn argument_of<'v>(operand: &Operand<'v>) -> Argument<'v>
    ensures value { argument_of result ≡ as_array (operand_of operand.now) }
    ensures held { LiesInBlock result }
{
    match operand {
        Operand::Number(number) => Argument::Number(*number),
        Operand::Elements(elements) => {
            elements.soundness();
            Argument::Elements(elements.view, elements.block)
        }
    }
}

/// Returns a new array of numbers as a result: a number where its shape is ().
pub fn new_numbers(view: View, block: RawBlock) -> New
    requires { (n : Numbers) × IsArrayOf n view block }
    ensures gives { (n : Numbers) → IsArrayOf n view block
        → give (made_of n.kind n.shape n.number) ≡ given result }
    ensures operand { (n : Numbers) → IsArrayOf n view block
        → operand_of_made (made_of n.kind n.shape n.number) ≡ operand_of_new result }
    ensures lies { NewLies result }
{
    if view.shape().is_empty() {
        let ElemType::One(elem) = view.elem() else {
            unreachable!();
        };
        let number = block.load(0, *elem);
        return New::Number(Num::Scalar(elem.kind(), number));
    }
    New::Array(view, block)
}

/// Returns the result of a function of two operands, of which one is no number.
pub(crate) fn map_two(
    alloc: Global,
    ufunc: BinaryUfunc,
    left: &Operand<'_>,
    right: &Operand<'_>,
) -> Result<New, Stop>
    ensures new { MakesNew result (numbers_made (elementwise.binary_numbers (ufunc_of ufunc)
        (operand_of left.now) (operand_of right.now))) }
    ensures operand { StandsFor result (numbers_made (elementwise.binary_numbers
        (ufunc_of ufunc) (operand_of left.now) (operand_of right.now))) }
    ensures lies { IfOk result NewLies }
{
    let (view, block) = map2(alloc, ufunc, argument_of(left), argument_of(right))?;
    Ok(new_numbers(view, block))
}

/// Returns the result of a function of one operand that is no number.
pub(crate) fn map_one(alloc: Global, op: Single, operand: &Operand<'_>) -> Result<New, Stop>
    ensures { MakesNew result
        (numbers_made (elementwise.single_numbers (single_of op) (operand_of operand.now))) }
{
    let (view, block) = map1(alloc, op, argument_of(operand))?;
    Ok(new_numbers(view, block))
}

/// Returns the kind of the operation `target op= operand`.
///
/// Refused in this order: `NotNumbers`, `FloatResult` or `BoolOp`, `IntOutOfRange`, `KindCast`,
/// `ReadOnly`, `ShapeMismatch`, `NegativePower`.
///
/// For a `uint8` array `x += 1` is of `uint8`; `x += np.int8(1)` is refused, since no `int16` is
/// stored as an unsigned number (`KindCast`).
pub fn kind_in_place(
    alloc: Global,
    op: BinaryOp,
    target: &View,
    operand: &Operand<'_>,
) -> Result<Kind, Stop>
    ensures { Makes kind_of result (augmenting.in_place_kind (binary_op op) target.now
        (operand_of operand.now)) }
{
    let kind = in_place_kind(alloc, op, target, argument_of(operand))?;
    Ok(kind)
}
