//! `axis_in` and `lanes_of`: the axis of a reduction, and the view that has this axis last.
ghost use Rattle.std.specs.Prelude.{◌≡◌, ℕ, ◌+◌, ◌*◌, ◌<◌, ◌≤◌, ◌==◌, ⊤, false, length, drop, IfOk, MatchOption, Some, None};
ghost use Rattle.nd_model.specs.Making.Reductions as reductions;
ghost use Rattle.nd_model.specs.Arrays.Tuple.{elements_of};
ghost use Rattle.nd_model.specs.Arrays.View.{rearranged_view};
ghost use Rattle.nd_reduce.specs.Axes.Faults.{Makes};
ghost use Rattle.nd_reduce.specs.Axes.LastAxis.{lanes_of, put_last, to_end};
ghost use Rattle.nd_reduce.specs.Axes.Axes.{HasAxis, IsRowWidth, lane_length};

use crate::axes::fault::AxisFault;
use nd_view::{Shape, View};
use smallvec::SmallVec;
use std::alloc::{AllocError, Global};

// The least width of a row whose numbers are taken together.
const LEAST_WIDTH: usize = 16;

// The axis of a number, which counts from the end where it is negative.
fn axis_at(axes: usize, number: i128) -> Result<Option<usize>, AxisFault>
    requires some { 0 < axes }
    requires few { axes ≤ 32 }
    ensures axis { Makes (λ a. a) result (reductions.axis_in axes (Some number)) }
    ensures inside { IfOk result (λ a. HasAxis a axes) }
{
    let count = axes as i128;
    if number < -count || number >= count {
        return Err(AxisFault::NoAxis);
    }
    let axis = if number < 0 { number + count } else { number };
    Ok(Some(axis as usize))
}

/// Returns the axis of a reduction, or `None` for all elements. A value without axes takes 0 and -1
/// for all of it (NumPy reference, `numpy.sum`).
pub(crate) fn axis_in(axes: usize, axis: Option<i128>) -> Result<Option<usize>, AxisFault>
    requires { axes ≤ 32 }
    ensures axis { Makes (λ a. a) result (reductions.axis_in axes axis) }
    ensures inside { IfOk result (λ a. HasAxis a axes) }
{
    let Some(number) = axis else {
        return Ok(None);
    };
    if axes > 0 {
        return axis_at(axes, number);
    }
    if number == 0 || number == -1 {
        return Ok(None);
    }
    Err(AxisFault::NoAxis)
}

/// Returns whether an axis other than this one has length 0, so that there are no lanes.
pub(crate) fn has_no_lanes(shape: &[u64], axis: Option<usize>) -> bool
    requires { HasAxis axis (length shape.now) }
    ensures { result ≡ (elements_of (reductions.reduced_shape axis false shape.now) == 0) }
{
    match axis {
        None => false,
        Some(axis) => shape[..axis].contains(&0) || shape[axis + 1..].contains(&0),
    }
}

// The shape of a reduction of all elements: no axes, or all of length 1 with `keepdims`.
fn single_shape(alloc: Global, shape: &[u64], keepdims: bool) -> Result<Shape, AllocError>
    ensures { IfOk result (λ v. v.items ≡ reductions.reduced_shape None keepdims shape.now) }
{
    if keepdims {
        let ones = SmallVec::from_elem(alloc, 1, shape.len())?;
        return Ok(ones);
    }
    Ok(SmallVec::new(alloc))
}

/// Returns the shape of the results: the axis is left out, or has length 1 with `keepdims`.
pub(crate) fn reduced_shape(
    alloc: Global,
    shape: &[u64],
    axis: Option<usize>,
    keepdims: bool,
) -> Result<Shape, AllocError>
    requires { HasAxis axis (length shape.now) }
    ensures { IfOk result
        (λ v. v.items ≡ reductions.reduced_shape axis keepdims shape.now) }
{
    let Some(axis) = axis else {
        return single_shape(alloc, shape, keepdims);
    };
    let mut lengths = SmallVec::from_slice(alloc, &shape[..axis])?;
    if keepdims {
        lengths.push(1)?;
    }
    lengths.extend_from_slice(&shape[axis + 1..])?;
    Ok(lengths)
}

// The lengths with that of the axis moved to the end.
fn lengths_to_end(alloc: Global, lengths: &[u64], axis: usize) -> Result<Shape, AllocError>
    requires { axis < length lengths.now }
    ensures { IfOk result (λ v. v.items ≡ to_end axis lengths.now) }
{
    let mut moved = SmallVec::from_slice(alloc, &lengths[..axis])?;
    moved.extend_from_slice(&lengths[axis + 1..])?;
    moved.push(lengths[axis])?;
    Ok(moved)
}

// The strides with that of the axis moved to the end.
fn strides_to_end(
    alloc: Global,
    strides: &[i128],
    axis: usize,
) -> Result<SmallVec<i128, 8>, AllocError>
    requires { axis < length strides.now }
    ensures { IfOk result (λ v. v.items ≡ to_end axis strides.now) }
{
    let mut moved = SmallVec::from_slice(alloc, &strides[..axis])?;
    moved.extend_from_slice(&strides[axis + 1..])?;
    moved.push(strides[axis])?;
    Ok(moved)
}

/// Returns the view with the axis moved to the end, as `np.moveaxis(x, axis, -1)`: its elements in
/// C order are lane after lane.
pub(crate) fn lanes_of(alloc: Global, view: &View, axis: Option<usize>) -> Result<View, AllocError>
    requires { HasAxis axis (length view.now.shape) }
    ensures { IfOk result (λ v. v ≡ lanes_of view.now axis) }
{
    let Some(axis) = axis else {
        return view.try_clone();
    };
    let lengths = lengths_to_end(alloc, view.shape(), axis)?;
    let strides = strides_to_end(alloc, view.held_strides(), axis)?;
    let lanes = View::from_strides(
        alloc,
        view.elem().try_clone()?,
        lengths.as_slice(),
        strides.as_slice(),
        view.offset(),
        view.writable(),
    )?;
    Ok(lanes)
}

// The strides with the last one moved to the axis.
fn strides_from_end(
    alloc: Global,
    strides: &[i128],
    axis: usize,
) -> Result<SmallVec<i128, 8>, AllocError>
    requires { axis < length strides.now }
    ensures { IfOk result (λ v. v.items ≡ put_last axis strides.now) }
{
    let last = strides.len() - 1;
    let mut moved = SmallVec::from_slice(alloc, &strides[..last])?;
    moved.insert(axis, strides[last])?;
    Ok(moved)
}

/// Returns the view of this shape with the last axis moved to `axis`, as
/// `np.moveaxis(x, -1, axis)`.
pub(crate) fn put_axis(
    alloc: Global,
    view: &View,
    shape: &[u64],
    axis: usize,
) -> Result<View, AllocError>
    requires axis { axis < length shape.now }
    requires lengths { view.now.shape ≡ to_end axis shape.now }
    ensures { IfOk result (λ v. v ≡ rearranged_view view.now shape.now (to_end axis)) }
{
    let strides = strides_from_end(alloc, view.held_strides(), axis)?;
    let put = View::from_strides(
        alloc,
        view.elem().try_clone()?,
        shape,
        strides.as_slice(),
        view.offset(),
        view.writable(),
    )?;
    Ok(put)
}

/// Returns how many elements each result is of.
pub(crate) fn lane_length(view: &View, axis: Option<usize>) -> usize
    requires { HasAxis axis (length view.now.shape) }
    ensures { result ≡ lane_length axis view.now.shape }
{
    match axis {
        None => view.count(),
        Some(axis) => view.shape()[axis] as usize,
    }
}

/// Returns the number of lanes of `count` elements each, and 0 where `count` is 0.
pub(crate) fn lane_count(elements: usize, count: usize) -> usize
    requires { (m : ℕ) × (elements ≡ m * count) }
    ensures { elements ≡ result * count }
{
    if count == 0 {
        return 0;
    }
    elements / count
}

// The number of elements along the axes behind this one, or `None` above 64 bits.
fn elements_behind(shape: &[u64], axis: usize) -> Option<usize>
    requires { axis < length shape.now }
    ensures { MatchOption result ⊤ (λ n. n ≡ elements_of (drop (axis + 1) shape.now)) }
{
    let behind = &shape[axis + 1..];
    let mut count: u64 = 1;
    for length in behind {
        count = count.checked_mul(*length)?;
    }
    Some(count as usize)
}

// Whether the stride of the last axis is at most that of this one, so that rows are read in the
// order of memory.
fn has_near_rows(strides: &[i128], axis: usize) -> bool {
    match (strides.get(axis), strides.last()) {
        (Some(own), Some(last)) => last.unsigned_abs() <= own.unsigned_abs(),
        _ => false,
    }
}

/// Returns the width of a row, in which each number is of another lane. `None` where it is narrow,
/// or rows are not near in memory.
pub(crate) fn row_width(view: &View, axis: Option<usize>) -> Option<usize>
    requires { HasAxis axis (length view.now.shape) }
    ensures { MatchOption result ⊤ (λ n. (0 < n) × IsRowWidth axis view.now.shape n) }
{
    let axis = axis?;
    if !has_near_rows(view.strides(), axis) {
        return None;
    }
    let width = elements_behind(view.shape(), axis)?;
    if width < LEAST_WIDTH {
        return None;
    }
    Some(width)
}
