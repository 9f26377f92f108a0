//! `broadcast_to` and `broadcast`: views that are broadcast, and the common shape of two.
ghost use Rattle.std.specs.Prelude.{◌≡◌, ◌+◌, ◌-◌, ◌≤◌, ◌<◌, if◌then◌else◌, length, reverse, slice_index_or, nat_lt, true, IfOk};
ghost use Rattle.std.specs.Option.{option_map};
ghost use Rattle.nd_model.specs.Arrays.Broadcast as broadcasting;
ghost use Rattle.nd_model.specs.Indexing.Stretching as model;
ghost use Rattle.nd_shape.specs.Faults.{given};
ghost use Rattle.nd_shape.specs.Stretches as stretches;
ghost use Rattle.nd_shape.specs.Stretches.{joined_shape, stretched_strides};

use crate::fault::ShapeFault;
use nd_view::{Shape, View, limit_fault};
use smallvec::SmallVec;
use std::alloc::{AllocError, Global};

/// Returns whether a shape broadcasts to another (NumPy user guide, "Broadcasting"). Aligned at the
/// last axis, each length is equal or 1, and missing axes count as 1.
///
/// (3, 1) broadcasts to (2, 3, 4), and (3,) does not broadcast to (3, 4).
pub fn broadcasts_to(shape: &[u64], to: &[u64]) -> bool
    ensures { result ≡ broadcasting.broadcasts_to shape.now to.now }
{
    if shape.len() > to.len() {
        return false;
    }
    let more = to.len() - shape.len();
    for (axis, length) in shape.iter().enumerate() {
        if *length != to[more + axis] && *length != 1 {
            return false;
        }
    }
    true
}

// The stride of an axis of this length in a broadcast: 0 where the length is 1.
fn own_stride(length: u64, stride: i128) -> i128
    ensures { result ≡ stretches.own_stride length stride }
{
    if length == 1 { 0 } else { stride }
}

// The strides of a broadcast: 0 on new axes and on axes of length 1.
fn stretch_strides(
    alloc: Global,
    shape: &[u64],
    strides: &[i128],
    more: usize,
) -> Result<SmallVec<i128, 32>, AllocError>
    requires { length strides.now ≡ length shape.now }
    ensures { IfOk result (λ v. v.items ≡ stretched_strides more shape.now strides.now) }
{
    let mut stretched = SmallVec::from_elem(alloc, 0, more)?;
    for (axis, length) in shape.iter().enumerate() {
        stretched.push(own_stride(*length, strides[axis]))?;
    }
    Ok(stretched)
}

/// Returns the view in another shape, as NumPy's `broadcast_to`: read-only, with stride 0 on each
/// axis that is new or had length 1.
///
/// Shape (3, 1) broadcasts to (2, 3, 4). Refused in this order: the limits of arrays,
/// `ShapeMismatch`.
pub fn broadcast_to(
    alloc: Global,
    view: &View,
    shape: &[u64],
) -> Result<Result<View, ShapeFault>, AllocError>
    ensures { IfOk result (λ r. given r ≡ model.broadcast_to shape.now view.now) }
{
    if let Some(fault) = limit_fault(view.elem().size(), shape) {
        return Ok(Err(ShapeFault::View(fault)));
    }
    let own = view.shape();
    if !broadcasts_to(own, shape) {
        return Ok(Err(ShapeFault::ShapeMismatch));
    }
    let strides = stretch_strides(alloc, own, view.held_strides(), shape.len() - own.len())?;
    let stretched = View::from_strides(
        alloc,
        view.elem().try_clone()?,
        shape,
        strides.as_slice(),
        view.offset(),
        false,
    )?;
    Ok(Ok(stretched))
}

// The length of an axis, counted from the last one, and 1 where there is none.
fn length_from_last(shape: &[u64], at: usize) -> u64
    ensures { result ≡ slice_index_or (reverse shape.now) at 1 }
{
    if at < shape.len() {
        shape[shape.len() - 1 - at]
    } else {
        1
    }
}

fn is_common(left: u64, right: u64) -> bool
    ensures { result ≡ stretches.is_common left right }
{
    left == right || left == 1 || right == 1
}

// The number of axes of the longer shape.
fn most_axes(left: &[u64], right: &[u64]) -> usize
    ensures value { result ≡ (if nat_lt (length left.now) (length right.now) then length right.now
        else length left.now) }
{
    if left.len() < right.len() {
        right.len()
    } else {
        left.len()
    }
}

// Whether the shapes have a common one.
fn are_common(left: &[u64], right: &[u64]) -> bool
    ensures { result ≡ stretches.are_common (reverse left.now) (reverse right.now) }
{
    for at in 0..most_axes(left, right) {
        if !is_common(length_from_last(left, at), length_from_last(right, at)) {
            return false;
        }
    }
    true
}

// The greater of two lengths that are equal, or of which one is 1.
fn joined_length(left: u64, right: u64) -> u64
    ensures { result ≡ stretches.joined_length left right }
{
    if left == 1 { right } else { left }
}

/// Returns the shape to which both shapes broadcast, or `None` where there is none (NumPy user
/// guide, "Broadcasting"). For (3, 1) and (4,) this is (3, 4).
pub fn broadcast(alloc: Global, left: &[u64], right: &[u64]) -> Result<Option<Shape>, AllocError>
    ensures { IfOk result (λ found. option_map (λ v. v.items) found
        ≡ broadcasting.broadcast left.now right.now) }
{
    if !are_common(left, right) {
        return Ok(None);
    }
    let mut shape = SmallVec::new(alloc);
    let mut at = most_axes(left, right);
    while at > 0 {
        at -= 1;
        shape.push(joined_length(length_from_last(left, at), length_from_last(right, at)))?;
    }
    Ok(Some(shape))
}
