//! `transpose` and `reverse_axes`: views with the axes in another order.
ghost use Rattle.std.specs.Prelude.{◌≡◌, ◌≤◌, length, true, IfOk};
ghost use Rattle.nd_model.specs.Indexing.Selecting.{counted_from, is_within};
ghost use Rattle.nd_model.specs.Cells.Session.{is_in};
ghost use Rattle.nd_model.specs.Indexing.Transposing as model;
ghost use Rattle.nd_model.specs.Indexing.Transposing.{axes_of, count_down, is_order, reversed_view};
ghost use Rattle.nd_shape.specs.Faults.{given};
ghost use Rattle.nd_shape.specs.Layouts.{lengths_on, strides_on};

use crate::fault::ShapeFault;
use crate::layout::Layout;
use nd_view::View;
use std::alloc::{AllocError, Global};

// The axis that a number means, or one past all axes. A negative number counts from the end.
fn axis_of(axes: usize, number: i128) -> u128
    requires { axes ≤ 32 }
    ensures { result ≡ counted_from axes number }
{
    if number < 0 {
        (number + axes as i128).unsigned_abs()
    } else {
        number.unsigned_abs()
    }
}

fn is_axis(axes: usize, number: i128) -> bool
    requires { axes ≤ 32 }
    ensures { result ≡ is_within axes number }
{
    let count = axes as i128;
    -count <= number && number < count
}

// Whether one of the numbers means the axis.
fn has_axis(axes: usize, order: &[i128], axis: usize) -> bool
    requires { axes ≤ 32 }
    ensures { result ≡ is_in axis (axes_of axes order.now) }
{
    for number in order {
        if axis_of(axes, *number) == axis as u128 {
            return true;
        }
    }
    false
}

// Whether the numbers mean the axes, each once.
fn is_order(axes: usize, order: &[i128]) -> bool
    requires { axes ≤ 32 }
    ensures { result ≡ is_order axes order.now }
{
    if order.len() != axes {
        return false;
    }
    for number in order {
        if !is_axis(axes, *number) {
            return false;
        }
    }
    for axis in 0..axes {
        if !has_axis(axes, order, axis) {
            return false;
        }
    }
    true
}

// The axes in this order.
fn order_axes(
    alloc: Global,
    shape: &[u64],
    strides: &[i128],
    order: &[i128],
) -> Result<Layout, AllocError>
    requires most { length shape.now ≤ 32 }
    requires each { length strides.now ≡ length shape.now }
    requires order { is_order (length shape.now) order.now ≡ true }
    ensures lengths { IfOk result (λ v. v.lengths.items ≡ lengths_on shape.now
        (axes_of (length shape.now) order.now)) }
    ensures strides { IfOk result (λ v. v.strides.items ≡ strides_on strides.now
        (axes_of (length shape.now) order.now)) }
{
    let mut layout = Layout::new(alloc);
    for number in order {
        let axis = axis_of(shape.len(), *number) as usize;
        layout.push(shape[axis], strides[axis])?;
    }
    Ok(layout)
}

// The axes, reversed.
fn turn_axes(alloc: Global, shape: &[u64], strides: &[i128]) -> Result<Layout, AllocError>
    requires each { length strides.now ≡ length shape.now }
    ensures lengths { IfOk result (λ v. v.lengths.items ≡ lengths_on shape.now
        (count_down (length shape.now))) }
    ensures strides { IfOk result (λ v. v.strides.items ≡ strides_on strides.now
        (count_down (length shape.now))) }
{
    let mut layout = Layout::new(alloc);
    let mut axis = shape.len();
    while axis > 0 {
        axis -= 1;
        layout.push(shape[axis], strides[axis])?;
    }
    Ok(layout)
}

/// Returns the view whose axis `k` is axis `axes[k]` of this one (`ndarray.transpose`). Negative
/// numbers count from the end. `BadAxes` where they are not the view's axes, each once.
///
/// Shape (2, 3, 4) with the axes (2, 0, 1) gives (4, 2, 3).
pub fn transpose(
    alloc: Global,
    view: &View,
    axes: &[i128],
) -> Result<Result<View, ShapeFault>, AllocError>
    ensures { IfOk result (λ r. given r ≡ model.transpose axes.now view.now) }
{
    let shape = view.shape();
    if !is_order(shape.len(), axes) {
        return Ok(Err(ShapeFault::BadAxes));
    }
    let layout = order_axes(alloc, shape, view.held_strides(), axes)?;
    let transposed = View::from_strides(
        alloc,
        view.elem().try_clone()?,
        layout.lengths.as_slice(),
        layout.strides.as_slice(),
        view.offset(),
        view.writable(),
    )?;
    Ok(Ok(transposed))
}

/// Returns the view with its axes reversed (`ndarray.T`): shape (2, 3) with strides (24, 8) gives
/// (3, 2) with (8, 24).
pub fn reverse_axes(alloc: Global, view: &View) -> Result<View, AllocError>
    ensures { IfOk result (λ v. v ≡ reversed_view view.now) }
{
    let layout = turn_axes(alloc, view.shape(), view.held_strides())?;
    let reversed = View::from_strides(
        alloc,
        view.elem().try_clone()?,
        layout.lengths.as_slice(),
        layout.strides.as_slice(),
        view.offset(),
        view.writable(),
    )?;
    Ok(reversed)
}
