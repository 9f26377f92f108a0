//! `stretch_view` and `stretch_element`: `np.broadcast_to` of arrays and of elements.

ghost use Rattle.std.specs.Prelude.{◌≡◌, map, true};
ghost use Rattle.nd_model.specs.Making.Operand as operand;
ghost use Rattle.nd_model.specs.Indexing.ShapeChoices as model;
ghost use Rattle.nd_model.specs.Indexing.Stretching as stretching;
ghost use Rattle.nd_heap.specs.declared.value.Value.TheVariants as value;
ghost use Rattle.nd_operation.specs.Operators.Contents.{elements_operand, num_of, operand_of, unused_of};
ghost use Rattle.nd_operation.specs.Refusals.Ends.{Makes};
ghost use Rattle.nd_eval.specs.Choosing.Shapes.{IsAlone, MakesStretched};

use nd_convert::conversion::copy_elements;
use nd_convert::creation::full;
use nd_heap::{Array, Value};
use nd_operation::operators::{
    BorrowedArray, New, Operand, array_kind, bad_argument, check_limits, lengths_of, whole_number,
};
use nd_operation::refusals::Stop;
use nd_shape::broadcast_to;
use nd_types::{Elem, ElemType, Num};
use nd_view::View;
use std::alloc::Global;

/// The view, broadcast to a shape.
fn stretch(alloc: Global, view: &View, shape: &[u64]) -> Result<View, Stop>
    ensures { Makes (λ v. v) result (stretching.broadcast_to shape.now view.now) }
{
    match broadcast_to(alloc, view, shape)? {
        Ok(found) => Ok(found),
        Err(fault) => Err(Stop::from(fault)),
    }
}

/// Returns the view that `np.broadcast_to` gives of an array: of shape (3,) and stride 8, one of
/// shape (2, 3) with strides (0, 8).
///
/// Refused in this order: `BadArgument` for a length that is no Python integer or negative, the
/// limits of arrays, `ShapeMismatch`.
pub(crate) fn stretch_view(alloc: Global, array: &Array, shape: &[Value]) -> Result<View, Stop>
    ensures { Makes (λ v. operand.AView v) result (model.stretch_to
        (unused_of (value.Array array.now)) (map unused_of shape.now)) }
{
    let shape = lengths_of(alloc, shape)?;
    stretch(alloc, &array.view, &shape)
}

/// A new array of one number, broadcast to a shape.
fn stretch_number(alloc: Global, number: Num, shape: &[u64]) -> Result<New, Stop>
    ensures { MakesStretched result
        (model.stretch_operand (operand.Plain (num_of number)) shape.now) }
{
    let elem = Elem::little(array_kind(number)?);
    check_limits(elem.size(), shape)?;
    let element = View::contiguous(alloc, ElemType::One(elem), &[])?;
    match full(alloc, &element, elem, whole_number(number)) {
        Ok(block) => match stretch(alloc, &element, shape) {
            Ok(view) => {
                drop(element);
                Ok(New::Array(view, block))
            }
            Err(stop) => {
                drop(element);
                drop(block);
                Err(stop)
            }
        },
        Err(refused) => {
            drop(element);
            Err(Stop::Memory(refused.into()))
        }
    }
}

/// A new array of one structure, broadcast to a shape.
fn stretch_row(alloc: Global, row: &BorrowedArray<'_>, shape: &[u64]) -> Result<New, Stop>
    requires { row.now.is_row ≡ true }
    ensures { MakesStretched result (model.stretch_operand (elements_operand row.now) shape.now) }
{
    if !row.view.shape().is_empty() {
        return Err(Stop::from(bad_argument()));
    }
    check_limits(row.view.elem().size(), shape)?;
    row.soundness();
    let element = View::contiguous(alloc, row.view.elem().try_clone()?, &[])?;
    match copy_elements(alloc, row.view, row.block) {
        Ok(block) => match stretch(alloc, &element, shape) {
            Ok(view) => {
                drop(element);
                Ok(New::Array(view, block))
            }
            Err(stop) => {
                drop(element);
                drop(block);
                Err(stop)
            }
        },
        Err(refused) => {
            drop(element);
            Err(Stop::Memory(refused.into()))
        }
    }
}

/// Returns the view that `np.broadcast_to` gives over a new array of one number or row.
///
/// Refused in this order: `BadArgument` for a length that is no Python integer or negative,
/// `NeedsType` for a number outside `int64`, the limits of arrays.
pub(crate) fn stretch_element(
    alloc: Global,
    operand: &Operand<'_>,
    shape: &[Value],
) -> Result<New, Stop>
    requires { IsAlone operand.now }
    ensures { MakesStretched result
        (model.stretch_to (operand_of operand.now) (map unused_of shape.now)) }
{
    let shape = lengths_of(alloc, shape)?;
    match operand {
        Operand::Number(number) => stretch_number(alloc, *number, &shape),
        Operand::Elements(row) => stretch_row(alloc, row, &shape),
    }
}
