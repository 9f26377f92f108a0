//! `parts_fault`: whether an offset and strides make a view of a block.
ghost use Rattle.std.specs.Prelude.{◌≡◌, ◌==◌, if◌then◌else◌, ◌*◌, ◌^◌, ◌<◌, ◌≤◌, length, IfOk};
ghost use Rattle.std.specs.Option.{option_map};
ghost use Rattle.nd_model.specs.Arrays.Strides as model;
ghost use Rattle.nd_model.specs.Arrays.Tuple.{elements_of};
ghost use Rattle.nd_view.specs.Faults.{view_fault_of};
ghost use Rattle.nd_view.specs.Strides as strides;
ghost use Rattle.nd_view.specs.Strides.{before_of, behind_of, kept_all};

use crate::fault::ViewFault;
use crate::shapes::{element_count, limit_fault};
use smallvec::SmallVec;
use std::alloc::{AllocError, Global};

// The distances in bytes from the first element of a view to its lowest and its highest one.
#[derive(Clone, Copy)]
struct Extent {
    before: u128,
    behind: u128,
}

// The distance from the first element of an axis down to the last one.
fn before(length: u64, stride: i64) -> u128
    requires { (0 < length) × (length ≤ 2 ^ 24) }
    ensures { (result ≡ strides.before length stride) × (result ≤ 2 ^ 87) }
{
    if stride < 0 {
        u128::from(length - 1) * u128::from(stride.unsigned_abs())
    } else {
        0
    }
}

// The distance from the first element of an axis up to the last one.
fn behind(length: u64, stride: i64) -> u128
    requires { (0 < length) × (length ≤ 2 ^ 24) }
    ensures { (result ≡ strides.behind length stride) × (result ≤ 2 ^ 87) }
{
    if stride < 0 {
        0
    } else {
        u128::from(length - 1) * u128::from(stride.unsigned_abs())
    }
}

// The extent of a view with these lengths and strides: the sum over its axes.
fn extent_of(shape: &[u64], strides: &[i64]) -> Extent
    requires axes { length shape.now ≡ length strides.now }
    requires most { length shape.now ≤ 32 }
    requires some { 0 < elements_of shape.now }
    requires elements { elements_of shape.now ≤ 2 ^ 24 }
    ensures before { result.before ≡ before_of shape.now strides.now }
    ensures behind { result.behind ≡ behind_of shape.now strides.now }
    ensures limit { (result.before < 2 ^ 96) × (result.behind < 2 ^ 96) }
{
    let mut extent = Extent {
        before: 0,
        behind: 0,
    };
    for (axis, length) in shape.iter().enumerate() {
        extent.before += before(*length, strides[axis]);
        extent.behind += behind(*length, strides[axis]);
    }
    extent
}

// The distance from the first element of an axis up to the last one, of a stride in 128 bits.
fn reach(length: u64, stride: i128) -> u128
    requires some { 0 < length }
    requires limit { strides.behind length stride < 2 ^ 64 }
    ensures { result ≡ strides.behind length stride }
{
    if stride < 0 {
        0
    } else {
        u128::from(length - 1) * stride.unsigned_abs()
    }
}

/// Returns the distance in bytes from the first element of a view up to its highest one.
pub(crate) fn reach_of(shape: &[u64], strides: &[i128]) -> u128
    requires axes { length shape.now ≡ length strides.now }
    requires some { 0 < elements_of shape.now }
    requires limit { behind_of shape.now strides.now < 2 ^ 64 }
    ensures { result ≡ behind_of shape.now strides.now }
{
    let mut all = 0;
    for (axis, length) in shape.iter().enumerate() {
        all += reach(*length, strides[axis]);
    }
    all
}

// Whether all bytes of all elements lie in a block of `block_len` bytes.
fn are_held(size: u64, shape: &[u64], strides: &[i64], offset: u64, block_len: u64) -> bool
    requires axes { length shape.now ≡ length strides.now }
    requires size { size ≤ 65536 }
    requires limits { model.IsInLimits size shape.now }
    ensures { result ≡ model.are_held size block_len offset strides.now shape.now }
{
    if element_count(shape) == 0 {
        return true;
    }
    let extent = extent_of(shape, strides);
    let offset = u128::from(offset);
    extent.before <= offset && offset + extent.behind + u128::from(size) <= u128::from(block_len)
}

/// Returns why the parts make no view of a block of `block_len` bytes, or `None` where they make
/// one.
pub(crate) fn parts_fault(
    size: u64,
    shape: &[u64],
    strides: &[i64],
    offset: u64,
    block_len: u64,
) -> Option<ViewFault>
    requires { size ≤ 65536 }
    ensures { option_map view_fault_of result ≡ model.parts_fault size shape.now strides.now offset
        block_len }
{
    if shape.len() != strides.len() {
        return Some(ViewFault::AxesDiffer);
    }
    if let Some(fault) = limit_fault(size, shape) {
        return Some(fault);
    }
    if are_held(size, shape, strides, offset, block_len) {
        None
    } else {
        Some(ViewFault::OutOfBlock)
    }
}

// The stride of an axis as a view of `count` elements keeps it.
fn kept_stride(count: u64, length: u64, stride: i64) -> i128
    ensures { result ≡ strides.kept count length stride }
{
    if length <= 1 || count == 0 {
        0
    } else {
        i128::from(stride)
    }
}

/// Returns the offset as a view keeps it: 0 where there are no elements.
pub(crate) fn kept_offset(shape: &[u64], offset: u64) -> u64
    requires { elements_of shape.now ≤ 2 ^ 24 }
    ensures { result ≡ (if elements_of shape.now == 0 then 0 else offset) }
{
    if element_count(shape) == 0 { 0 } else { offset }
}

/// Returns the strides as a view keeps them: 0 on an axis of at most one element, and all 0 where
/// there are no elements.
pub(crate) fn kept_strides(
    alloc: Global,
    shape: &[u64],
    strides: &[i64],
) -> Result<SmallVec<i128, 8>, AllocError>
    requires axes { length shape.now ≡ length strides.now }
    requires elements { elements_of shape.now ≤ 2 ^ 24 }
    ensures { IfOk result (λ v. v.items ≡ kept_all (elements_of shape.now) shape.now strides.now) }
{
    let count = element_count(shape);
    let mut all = SmallVec::new(alloc);
    for (axis, length) in shape.iter().enumerate() {
        all.push(kept_stride(count, *length, strides[axis]))?;
    }
    Ok(all)
}

// The stride of an axis as a view of `count` elements keeps it, in 128 bits.
fn kept_step(count: u64, length: u64, stride: i128) -> i128
    ensures { result ≡ strides.kept count length stride }
{
    if length > 1 && count > 0 { stride } else { 0 }
}

/// Returns strides that are those of a view already, as another view keeps them.
pub(crate) fn kept_steps(
    alloc: Global,
    shape: &[u64],
    strides: &[i128],
) -> Result<SmallVec<i128, 8>, AllocError>
    requires axes { length shape.now ≡ length strides.now }
    requires elements { elements_of shape.now ≤ 2 ^ 24 }
    ensures { IfOk result (λ v. v.items ≡ kept_all (elements_of shape.now) shape.now strides.now) }
{
    let count = element_count(shape);
    let mut all = SmallVec::new(alloc);
    for (axis, length) in shape.iter().enumerate() {
        all.push(kept_step(count, *length, strides[axis]))?;
    }
    Ok(all)
}
