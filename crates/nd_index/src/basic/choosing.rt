//! `select`: the view that a basic index selects of another one.
ghost use Rattle.std.specs.Prelude.{◌≡◌, ◌^◌, ◌≤◌, ◌<ℤ◌, ◌≤ℤ◌, pos, length, false, IfOk};
ghost use Rattle.std.specs.List.{list_any};
ghost use Rattle.nd_model.specs.Arrays.Broadcast.{in_limits};
ghost use Rattle.nd_model.specs.Indexing.Selecting.{axes_in, picks_of, picked_shape, picked_view, select};
ghost use Rattle.nd_model.specs.Indexing.Selecting as model;
ghost use Rattle.nd_index.specs.Basic.Faults.{given};
ghost use Rattle.nd_index.specs.Basic.FullIndexes.{items_in};
ghost use Rattle.nd_index.specs.Basic.Items.{items_of, kept_in};

use crate::basic::fault::SelectFault;
use crate::basic::full_index::{FullIndex, fill};
use crate::basic::item::{BasicItem, count_items, has_zero_step};
use crate::basic::layout::{lay_out, outside_fault};
use nd_view::{View, ViewFault, limit_fault};
use std::alloc::{AllocError, Global};

// The byte offset that a number is, and 0 where it is none.
fn place_of(number: i128) -> u64
    ensures { (pos 0 ≤ℤ number) → (number <ℤ pos (2 ^ 64)) → pos result ≡ number }
{
    if number < 0 || number > i128::from(u64::MAX) {
        return 0;
    }
    number as u64
}

// The view that an index selects, which has `axes` axes.
fn pick(
    alloc: Global,
    view: &View,
    index: &FullIndex<'_>,
    axes: usize,
) -> Result<Result<View, SelectFault>, AllocError>
    requires whole { axes_in (items_in index.now) ≡ length view.now.shape }
    requires missing { index.now.missing ≤ 32 }
    requires steps { list_any model.has_zero_step (items_in index.now) ≡ false }
    requires inside { model.first_outside (items_in index.now) 0 view.now.shape ≡ None }
    requires axes { axes ≡ kept_in (items_in index.now) }
    ensures { IfOk result (λ r. given r ≡ (let qs = picks_of (items_in index.now) view.now.shape in
        in_limits view.now.element (picked_shape qs) (Ok (picked_view view.now qs)))) }
{
    if axes > 32 {
        return Ok(Err(SelectFault::View(ViewFault::TooManyAxes)));
    }
    let layout = lay_out(
        alloc,
        index,
        view.shape(),
        view.held_strides(),
        view.offset(),
    )?;
    let lengths = layout.lengths.as_slice();
    if let Some(fault) = limit_fault(view.elem().size(), lengths) {
        return Ok(Err(SelectFault::View(fault)));
    }
    let view = View::from_strides(
        alloc,
        view.elem().try_clone()?,
        lengths,
        layout.strides.as_slice(),
        place_of(layout.offset),
        view.writable(),
    )?;
    Ok(Ok(view))
}

/// Returns the view that the items select; integers alone select a view without axes. Of shape
/// (5,), `[1::2]` selects a view of shape (2,) with twice the stride.
///
/// Refused in this order: `TwoEllipses`; `TooManyIndices`; from left to right `ZeroStep`; from left
/// to right `OutOfBounds`, also of an empty array; `TooManyAxes`; `TooManyElements`.
pub fn select(
    alloc: Global,
    view: &View,
    items: &[BasicItem],
) -> Result<Result<View, SelectFault>, AllocError>
    ensures { IfOk result (λ r. given r ≡ select (items_of items.now) view.now) }
{
    let shape = view.shape();
    let counts = count_items(items);
    if counts.ellipses > 1 {
        return Ok(Err(SelectFault::TwoEllipses));
    }
    if counts.axes > shape.len() {
        return Ok(Err(SelectFault::TooManyIndices));
    }
    if has_zero_step(items) {
        return Ok(Err(SelectFault::ZeroStep));
    }
    let index = fill(items, shape.len() - counts.axes);
    if let Some(fault) = outside_fault(&index, shape) {
        return Ok(Err(fault));
    }
    pick(alloc, view, &index, counts.kept + index.missing)
}
