//! `view_as`: the same bytes as numbers of another kind or byte order.
ghost use Rattle.std.specs.Prelude.{◌≡◌, ◌/◌, ◌*◌, ◌≤◌, ◌<◌, ◌^◌, pos, length, true, false, IsTrue, ◌↔◌, IfOk, MatchOption};
ghost use Rattle.nd_model.specs.Making.Creation.{is_number_type};
ghost use Rattle.nd_model.specs.Arrays.Element.{size_of};
ghost use Rattle.nd_model.specs.Indexing.Recasting as model;
ghost use Rattle.nd_model.specs.Indexing.Recasting.{can_recast, has_whole_rows, row_bytes, with_last};
ghost use Rattle.nd_shape.specs.Faults.{given};
ghost use Rattle.nd_shape.specs.Recasts.{with_last_step};

use crate::fault::ShapeFault;
use crate::layout::Layout;
use nd_types::{Elem, ElemType};
use nd_view::{View, limit_fault};
use std::alloc::{AllocError, Global};

fn is_step(stride: i128, size: u64) -> bool
    ensures { IsTrue result ↔ (stride ≡ pos size) }
{
    stride == i128::from(size)
}

// Whether the elements are numbers, not structures.
fn holds_numbers(view: &View) -> bool
    ensures { result ≡ is_number_type view.now.element }
{
    matches!(view.elem(), ElemType::One(_))
}

// Whether the last axis is contiguous.
fn has_whole_rows(view: &View) -> bool
    requires { 0 < length view.now.shape }
    ensures { result ≡ has_whole_rows view.now }
{
    let shape = view.shape();
    let strides = view.held_strides();
    let last = shape.len() - 1;
    if shape[last] <= 1 {
        return true;
    }
    if view.count() == 0 {
        return true;
    }
    is_step(strides[last], view.elem().size())
}

// The length of the last axis in elements of the new dtype, or `None` where the view cannot be seen
// so.
fn recast_length(view: &View, elem: Elem) -> Option<u64>
    ensures { MatchOption result (can_recast elem view.now ≡ false) (λ n.
        (can_recast elem view.now ≡ true) × (n ≡ row_bytes view.now / size_of elem.kind)) }
{
    let shape = view.shape();
    if shape.is_empty() || !has_whole_rows(view) {
        return None;
    }
    let bytes = shape[shape.len() - 1] * view.elem().size();
    let size = elem.size();
    if bytes % size == 0 {
        Some(bytes / size)
    } else {
        None
    }
}

// The axes, the last one with this length and stride.
fn recast_axes(
    alloc: Global,
    shape: &[u64],
    strides: &[i128],
    last: u64,
    size: u64,
) -> Result<Layout, AllocError>
    requires each { length strides.now ≡ length shape.now }
    requires some { 0 < length shape.now }
    ensures lengths { IfOk result (λ v. v.lengths.items ≡ with_last shape.now last) }
    ensures strides { IfOk result (λ v. v.strides.items ≡ with_last_step strides.now (pos size)) }
{
    let mut layout = Layout::new(alloc);
    for axis in 0..shape.len() - 1 {
        layout.push(shape[axis], strides[axis])?;
    }
    layout.push(last, i128::from(size))?;
    Ok(layout)
}

/// Returns the view of the same bytes as numbers of another dtype (`ndarray.view`). One of the same
/// itemsize always works; another one changes the length of the last axis, which must be
/// contiguous.
///
/// 4 numbers of `int32` are 2 of `int64` or 16 of `int8`. Refused in this order: `ItemSizes` where
/// the last axis does not allow it, or for structures; the limits of arrays.
pub fn view_as(
    alloc: Global,
    view: &View,
    elem: Elem,
) -> Result<Result<View, ShapeFault>, AllocError>
    ensures { IfOk result (λ r. given r ≡ model.view_as elem view.now) }
{
    let size = elem.size();
    if view.elem().size() == size {
        let same = View::from_strides(
            alloc,
            ElemType::One(elem),
            view.shape(),
            view.held_strides(),
            view.offset(),
            view.writable(),
        )?;
        return Ok(Ok(same));
    }
    if !holds_numbers(view) {
        return Ok(Err(ShapeFault::ItemSizes));
    }
    let Some(last) = recast_length(view, elem) else {
        return Ok(Err(ShapeFault::ItemSizes));
    };
    let layout = recast_axes(alloc, view.shape(), view.held_strides(), last, size)?;
    if let Some(fault) = limit_fault(size, layout.lengths.as_slice()) {
        return Ok(Err(ShapeFault::View(fault)));
    }
    let recast = View::from_strides(
        alloc,
        ElemType::One(elem),
        layout.lengths.as_slice(),
        layout.strides.as_slice(),
        view.offset(),
        view.writable(),
    )?;
    Ok(Ok(recast))
}
