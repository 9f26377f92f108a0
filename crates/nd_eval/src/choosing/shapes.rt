//! `transpose`, `reshape` and `view_as`: other axes, shapes and dtypes of arrays, as NumPy's
//! methods give them. None reads a byte.

ghost use Rattle.std.specs.Prelude.{◌≡◌, ◌≤◌, ◌^◌, ◌≤ℤ◌, pos, length, map, IfOk};
ghost use Rattle.std.specs.List.{All};
ghost use Rattle.nd_model.specs.Making.Creation as creation;
ghost use Rattle.nd_model.specs.Making.Operand.{AView};
ghost use Rattle.nd_model.specs.Indexing.Reshaping as reshaping;
ghost use Rattle.nd_model.specs.Indexing.ShapeChoices as model;
ghost use Rattle.nd_types.specs.Types.{type_of};
ghost use Rattle.nd_syntax.specs.Trees.Calls.{dtype_of};
ghost use Rattle.nd_shape.specs.NewShapes.{reshaped_of};
ghost use Rattle.nd_heap.specs.Values.{geo_of};
ghost use Rattle.nd_heap.specs.declared.value.Value.TheVariants as value;
ghost use Rattle.nd_operation.specs.Operators.Contents.{unused_of};
ghost use Rattle.nd_operation.specs.Refusals.Ends.{Makes, Says};
ghost use Rattle.nd_eval.specs.Choosing.Shapes.{HasAsMany, choice_of};

use crate::choosing::arrays::array_of;
use nd_heap::{Array, Value};
use nd_operation::operators::{integers_of, not_numbers};
use nd_operation::refusals::{StmtFault, Stop, ViewFault};
use nd_shape::{Reshaped, reverse_axes};
use nd_syntax::dtypes::element_type;
use nd_syntax::trees::DType;
use nd_types::{Elem, ElemType};
use nd_view::View;
use std::alloc::Global;

/// The view with the axes in this order, or reversed where none is given.
fn order_axes(alloc: Global, view: &View, axes: &[i128]) -> Result<View, Stop>
    ensures { Makes (λ v. AView v) result (model.ordered axes.now view.now) }
{
    if axes.is_empty() {
        return Ok(reverse_axes(alloc, view)?);
    }
    match nd_shape::transpose(alloc, view, axes)? {
        Ok(found) => Ok(found),
        Err(fault) => Err(Stop::from(fault)),
    }
}

/// Returns the view of `.transpose(..)`, and without axes that of `.T`: of shape (2, 3) with strides
/// (24, 8), one of shape (3, 2) with strides (8, 24).
///
/// Refused in this order: `BadArgument` for an axis that is no Python integer, `NotAnArray`,
/// `BadAxes`.
pub(crate) fn transpose(alloc: Global, target: &Value, axes: &[Value]) -> Result<View, Stop>
    ensures { Makes (λ v. AView v) result
        (model.transpose_array (unused_of target.now) (map unused_of axes.now)) }
{
    let axes = integers_of(alloc, axes)?;
    match array_of(target) {
        Ok(array) => {
            let found = order_axes(alloc, &array.view, &axes);
            drop(axes);
            found
        }
        Err(fault) => {
            drop(axes);
            Err(Stop::Refused(fault))
        }
    }
}

/// Whether a length is longer than each axis of an array may be.
fn has_long_axis(lengths: &[i128]) -> bool
    ensures { result ≡ model.has_long_axis lengths.now }
{
    for length in lengths {
        if *length > 1 << 32 {
            return true;
        }
    }
    false
}

/// Refuses lengths that no array has, whatever its dtype.
fn check_lengths(lengths: &[i128]) -> Result<(), StmtFault>
    ensures refusal { Says (λ _. lengths.now) result (model.bounded_lengths lengths.now) }
    ensures axes { IfOk result (λ _. length lengths.now ≤ 32) }
    ensures long { IfOk result (λ _. All (λ z. z ≤ℤ pos (2 ^ 32)) lengths.now) }
{
    if lengths.len() > 32 {
        return Err(StmtFault::View(ViewFault::TooManyAxes));
    }
    if has_long_axis(lengths) {
        return Err(StmtFault::View(ViewFault::TooManyElements));
    }
    Ok(())
}

/// The elements of a view in C order in another shape.
fn reshape_view(alloc: Global, view: &View, lengths: &[i128]) -> Result<Reshaped, Stop>
    requires axes { length lengths.now ≤ 32 }
    requires long { All (λ z. z ≤ℤ pos (2 ^ 32)) lengths.now }
    ensures shape { Makes (λ r. reshaped_of r) result (reshaping.reshape lengths.now view.now) }
    ensures count { IfOk result (HasAsMany view.now) }
{
    match nd_shape::reshape(alloc, view, lengths)? {
        Ok(found) => Ok(found),
        Err(fault) => Err(Stop::from(fault)),
    }
}

/// Returns the array that a value is, and what `.reshape(..)` gives of it: a view where strides
/// allow it, else the shape of a copy.
///
/// A contiguous array of shape (2, 3) has a view of shape (3, 2) as its `.reshape(3, -1)`, and its
/// transpose the shape of a copy as its `.reshape(6)`.
///
/// Refused in this order: `BadArgument` for a length that is no Python integer, `TooManyAxes`,
/// `TooManyElements` for a length over 2^32, `NotAnArray`, `TwoUnknown`, `SizeMismatch`.
pub(crate) fn reshape<'v>(
    alloc: Global,
    target: &'v Value,
    lengths: &[Value],
) -> Result<(&'v Array, Reshaped), Stop>
    ensures choice { Makes (λ r. choice_of (geo_of r.0.now) r.1) result
        (model.reshape_array (unused_of target.now) (map unused_of lengths.now)) }
    ensures array { IfOk result (λ r. target.now ≡ value.Array r.0.now) }
    ensures count { IfOk result (λ r. HasAsMany (geo_of r.0.now) r.1) }
{
    let lengths = integers_of(alloc, lengths)?;
    check_lengths(&lengths)?;
    let array = array_of(target)?;
    let found = reshape_view(alloc, &array.view, &lengths)?;
    Ok((array, found))
}

/// The dtype of numbers that a dtype is. Structures are refused.
fn number_element(elem: &ElemType) -> Result<Elem, StmtFault>
    ensures { Says (λ e. e) result (creation.number_element (type_of elem.now)) }
{
    match elem {
        ElemType::One(elem) => Ok(*elem),
        ElemType::Rec(_) => Err(not_numbers()),
    }
}

/// Returns the view of the same bytes that `.view(t)` gives: four contiguous `int16`s are two
/// `int32`s, or eight `uint8`s.
///
/// Refused in this order: `BadType`, `NotAnArray`, `NotNumbers` for structures on either side,
/// `ItemSizes`, the limits of arrays.
pub(crate) fn view_as(alloc: Global, target: &Value, dtype: &DType) -> Result<View, Stop>
    ensures { Makes (λ v. AView v) result
        (model.recast_array (dtype_of dtype.now) (unused_of target.now)) }
{
    let elem = element_type(alloc, dtype)?;
    let array = array_of(target)?;
    number_element(array.view.elem())?;
    let elem = number_element(&elem)?;
    match nd_shape::view_as(alloc, &array.view, elem)? {
        Ok(found) => Ok(found),
        Err(fault) => Err(Stop::from(fault)),
    }
}
