//! `limit_fault`: the limits of arrays, and the strides of contiguous ones.
ghost use Rattle.std.specs.Prelude.{◌≡◌, ◌*◌, ◌^◌, ◌<◌, ◌≤◌, nat_lt, pos, slice_index_or, false, IfOk, MatchOption};
ghost use Rattle.std.specs.List.{list_any};
ghost use Rattle.std.specs.Option.{option_map};
ghost use Rattle.nd_model.specs.Arrays.Strides as model;
ghost use Rattle.nd_model.specs.Arrays.Tuple.{elements_of};
ghost use Rattle.nd_view.specs.Faults.{view_fault_of};
ghost use Rattle.nd_view.specs.Strides.{strides_of};

use crate::fault::ViewFault;
use smallvec::SmallVec;
use std::alloc::{AllocError, Global};

/// The most axes of an array.
pub(crate) const MOST_AXES: usize = 32;

// The longest axis; the most elements, and the most bytes, of an array.
const LONGEST_AXIS: u64 = 1 << 32;

const MOST_ELEMENTS: u64 = 1 << 24;

const MOST_BYTES: u64 = 1 << 27;

/// Returns the number of elements of a shape: 12 for (3, 4), 1 for a shape without axes, 0 where an
/// axis has no element.
pub fn element_count(shape: &[u64]) -> u64
    requires { elements_of shape.now ≤ 2 ^ 24 }
    ensures { result ≡ elements_of shape.now }
{
    if shape.contains(&0) {
        return 0;
    }
    let mut count = 1;
    for length in shape {
        count *= *length;
    }
    count
}

// The length of an axis, 1 where there is no such axis.
pub(crate) fn length_of(shape: &[u64], axis: usize) -> u64
    ensures { result ≡ slice_index_or shape.now axis 1 }
{
    match shape.get(axis) {
        Some(length) => *length,
        None => 1,
    }
}

/// Returns the stride of an axis in bytes, 0 where there is no such axis.
pub fn stride_of(strides: &[i128], axis: usize) -> i128
    ensures { result ≡ slice_index_or strides.now axis (pos 0) }
{
    match strides.get(axis) {
        Some(stride) => *stride,
        None => 0,
    }
}

// Whether an axis is too long.
fn has_long_axis(shape: &[u64]) -> bool
    ensures { result ≡ list_any (nat_lt (2 ^ 32)) shape.now }
{
    for length in shape {
        if *length > LONGEST_AXIS {
            return true;
        }
    }
    false
}

// The number of elements, `None` above the limit.
fn elements_within(shape: &[u64]) -> Option<u64>
    requires { list_any (nat_lt (2 ^ 32)) shape.now ≡ false }
    ensures { MatchOption result (2 ^ 24 < elements_of shape.now) (λ n. (n ≡ elements_of shape.now)
        × (n ≤ 2 ^ 24)) }
{
    if shape.contains(&0) {
        return Some(0);
    }
    let mut count = 1;
    for length in shape {
        count *= *length;
        if count > MOST_ELEMENTS {
            return None;
        }
    }
    Some(count)
}

// Whether an array of itemsize `size` exceeds the limits of lengths, elements or bytes.
fn is_too_large(size: u64, shape: &[u64]) -> bool
    requires { size ≤ 65536 }
    ensures { result ≡ model.is_too_large size shape.now }
{
    if has_long_axis(shape) {
        return true;
    }
    match elements_within(shape) {
        Some(count) => count * size > MOST_BYTES,
        None => true,
    }
}

/// Returns why no array of itemsize `size`, in bytes, has this shape, or `None` where one may.
///
/// `TooManyAxes` is for more than 32 axes. `TooManyElements` is for an axis of more than 2^32, for
/// more than 2^24 elements or for more than 2^27 bytes. Shape (4096, 4096) of `int64` is just
/// within the limits.
pub fn limit_fault(size: u64, shape: &[u64]) -> Option<ViewFault>
    requires { size ≤ 65536 }
    ensures { option_map view_fault_of result ≡ model.limit_fault size shape.now }
{
    if shape.len() > MOST_AXES {
        return Some(ViewFault::TooManyAxes);
    }
    if is_too_large(size, shape) {
        return Some(ViewFault::TooManyElements);
    }
    None
}

// The strides of a contiguous array of itemsize `size`.
pub(crate) fn steps(
    alloc: Global,
    size: u64,
    shape: &[u64],
) -> Result<SmallVec<i128, 8>, AllocError>
    requires elements { elements_of shape.now ≤ 2 ^ 24 }
    requires bytes { elements_of shape.now * size ≤ 2 ^ 27 }
    ensures { IfOk result (λ v. v.items ≡ strides_of size shape.now) }
{
    let mut strides = SmallVec::new(alloc);
    let mut step = element_count(shape) * size;
    for length in shape {
        step = step.checked_div(*length).unwrap_or(0);
        strides.push(if *length <= 1 { 0 } else { i128::from(step) })?;
    }
    Ok(strides)
}
