//! `ways_of`: the offsets of elements from the first one, by the strides of their axes.
ghost use Rattle.std.specs.Prelude.{◌≡◌, ◌==◌, if◌then◌else◌, ◌^◌, ◌<◌, ◌≤◌, ◌++◌, pos, ◌+ℤ◌, ◌*ℤ◌, unsigned_abs, length, map, IfOk, OnOk, MatchOption};
ghost use Rattle.std.specs.List.{All, flat_map};
ghost use Rattle.nd_model.specs.Indexing.Advanced.{unravelled};
ghost use Rattle.nd_model.specs.Arrays.Broadcast.{own_tuple};
ghost use Rattle.nd_model.specs.Arrays.Strides.{way_to};
ghost use Rattle.nd_model.specs.Arrays.Tuple.{count_up, elements_of, indices, number};
ghost use Rattle.nd_index.specs.Offsets.Ways as model;
ghost use Rattle.nd_index.specs.Offsets.Ways.{AreNear, HasSmallStep, IsEvenBy, ways};

use nd_view::element_count;
use smallvec::SmallVec;
use std::alloc::{AllocError, Global};

// The greatest step of a line whose byte offsets are worked out in 64 bits.
const MOST_STEP: u128 = 1 << 29;

// The offset of index `by` on an axis of this stride.
#[inline(always)]
fn scale(by: u64, stride: i128) -> i128
    requires by { by ≤ 2 ^ 32 }
    requires stride { unsigned_abs stride < 2 ^ 64 }
    ensures value { result ≡ pos by *ℤ stride }
    ensures limit { unsigned_abs result ≤ 2 ^ 96 }
{
    i128::from(by) * stride
}

// Appends offsets, each moved by `by`.
fn push_further(out: &mut Vec<i128>, by: i128, ways: &[i128]) -> Result<(), AllocError>
    requires by { unsigned_abs by ≤ 2 ^ 96 }
    requires near { AreNear ways.now }
    ensures { OnOk result (out.new.items ≡ out.old.items ++ map (λ z. by +ℤ z) ways.now) }
{
    for way in ways {
        out.push(by + *way)?;
    }
    Ok(())
}

// The offsets of one axis more, which stands before the others.
fn widen(alloc: Global, length: u64, stride: i128, ways: &[i128]) -> Result<Vec<i128>, AllocError>
    requires length { length ≤ 2 ^ 32 }
    requires stride { unsigned_abs stride < 2 ^ 64 }
    requires near { AreNear ways.now }
    ensures { IfOk result (λ v. v.items ≡ flat_map (λ k. map (λ z. (pos k *ℤ stride) +ℤ z) ways.now)
        (count_up 0 length)) }
{
    let mut wider = Vec::new(alloc);
    for index in 0..length {
        push_further(&mut wider, scale(index, stride), ways)?;
    }
    Ok(wider)
}

/// Returns the offset of each element from the first one, in C order and in the unit of the
/// strides.
///
/// Lengths (2, 3) with strides (24, 8) give `0 8 16 24 32 40`.
pub fn ways_of(alloc: Global, lengths: &[u64], strides: &[i128]) -> Result<Vec<i128>, AllocError>
    requires axes { length strides.now ≡ length lengths.now }
    requires most { length lengths.now ≤ 64 }
    requires lengths { All (λ n. n ≤ 2 ^ 32) lengths.now }
    requires range { All (λ s. unsigned_abs s < 2 ^ 64) strides.now }
    ensures { IfOk result (λ v. v.items ≡ ways lengths.now strides.now) }
{
    let mut ways = Vec::with_capacity(alloc, 1)?;
    ways.push(0)?;
    let mut axis = lengths.len();
    while axis > 0 {
        axis -= 1;
        ways = widen(alloc, lengths[axis], strides[axis], ways.as_slice())?;
    }
    Ok(ways)
}

// The offset of the element of this flat index in C order.
#[inline(never)]
fn way_over(number: u64, count: u64, lengths: &[u64], strides: &[i128]) -> i128
    requires number { number ≤ 2 ^ 32 }
    requires count { count ≡ elements_of lengths.now }
    requires some { 0 < count }
    requires axes { length strides.now ≡ length lengths.now }
    requires most { length lengths.now ≤ 64 }
    requires range { All (λ s. unsigned_abs s < 2 ^ 64) strides.now }
    ensures { result ≡ way_to (unravelled lengths.now number) strides.now }
{
    let mut each = count;
    let mut left = number;
    let mut way = 0;
    for (axis, length) in lengths.iter().enumerate() {
        each /= *length;
        way += scale(left / each, strides[axis]);
        left %= each;
    }
    way
}

/// Returns the offset of the element of this flat index in C order.
#[inline(always)]
pub(crate) fn way_of(number: u64, count: u64, lengths: &[u64], strides: &[i128]) -> i128
    requires number { number ≤ 2 ^ 32 }
    requires count { count ≡ elements_of lengths.now }
    requires some { 0 < count }
    requires axes { length strides.now ≡ length lengths.now }
    requires most { length lengths.now ≤ 64 }
    requires range { All (λ s. unsigned_abs s < 2 ^ 64) strides.now }
    ensures { result ≡ way_to (unravelled lengths.now number) strides.now }
{
    if strides.len() == 1 {
        scale(number, strides[0])
    } else {
        way_over(number, count, lengths, strides)
    }
}

/// Returns the step from each of `count` elements to the next in C order, in bytes, where it is
/// constant and small.
///
/// Lengths (2, 3) with strides (24, 8) have step 8; with strides (32, 8) they have none.
pub(crate) fn even_step(count: u64, lengths: &[u64], strides: &[i128]) -> Option<i64>
    requires count { count ≡ elements_of lengths.now }
    requires some { 0 < count }
    requires few { count ≤ 2 ^ 24 }
    requires axes { length strides.now ≡ length lengths.now }
    requires most { length lengths.now ≤ 64 }
    requires range { All (λ s. unsigned_abs s < 2 ^ 64) strides.now }
    ensures { MatchOption result (HasSmallStep lengths.now strides.now → ⊥)
        (λ s. (unsigned_abs s ≤ 2 ^ 29) × IsEvenBy s lengths.now strides.now) }
{
    let step = way_of(1, count, lengths, strides);
    if step.unsigned_abs() > MOST_STEP {
        return None;
    }
    let mut each = count;
    for (axis, length) in lengths.iter().enumerate() {
        each /= *length;
        // The only index of an inner axis of length 1 is 0, so its stride is never used.
        if axis > 0 && *length == 1 {
            continue;
        }
        if strides[axis] != scale(each, step) {
            return None;
        }
    }
    Some(step as i64)
}

/// Returns the offsets of the elements of these flat indices in C order, in the unit of the
/// strides.
pub fn ways_to(
    alloc: Global,
    numbers: &[u64],
    lengths: &[u64],
    strides: &[i128],
) -> Result<Vec<i128>, AllocError>
    requires numbers { All (λ k. k ≤ 2 ^ 32) numbers.now }
    requires some { 0 < elements_of lengths.now }
    requires few { elements_of lengths.now ≤ 2 ^ 24 }
    requires axes { length strides.now ≡ length lengths.now }
    requires most { length lengths.now ≤ 64 }
    requires range { All (λ s. unsigned_abs s < 2 ^ 64) strides.now }
    ensures { IfOk result (λ v. v.items ≡ map (λ k. way_to (unravelled lengths.now k) strides.now)
        numbers.now) }
{
    let count = element_count(lengths);
    let mut ways = Vec::with_capacity(alloc, numbers.len())?;
    for number in numbers {
        ways.push(way_of(*number, count, lengths, strides))?;
    }
    Ok(ways)
}

// The stride of an axis that is broadcast where its length is 1.
fn own_stride(length: u64, each: u64) -> i128
    ensures { result ≡ (if length == 1 then pos 0 else pos each) }
{
    if length == 1 { 0 } else { i128::from(each) }
}

// The strides by which an index tuple of `axes` axes leads to the flat index of the element that is
// broadcast there.
fn own_strides(
    alloc: Global,
    axes: usize,
    shape: &[u64],
    count: u64,
) -> Result<SmallVec<i128, 8>, AllocError>
    requires count { count ≡ elements_of shape.now }
    requires some { 0 < count }
    requires few { count ≤ 2 ^ 24 }
    ensures value { IfOk result (λ v. v.items ≡ model.own_strides axes shape.now) }
    ensures range { IfOk result (λ v. All (λ s. unsigned_abs s < 2 ^ 64) v.items) }
{
    let mut strides = SmallVec::from_elem(alloc, 0, axes.saturating_sub(shape.len()))?;
    let mut each = count;
    for length in shape {
        each /= *length;
        strides.push(own_stride(*length, each))?;
    }
    Ok(strides)
}

/// Returns the flat indices of a shape's elements at each index tuple, in C order, of the shape
/// `many` that it is broadcast to. It has `count` elements.
///
/// Shape (3,) in (2, 3) gives `0 1 2 0 1 2`.
pub fn own_numbers(
    alloc: Global,
    shape: &[u64],
    count: u64,
    many: &[u64],
) -> Result<Vec<i128>, AllocError>
    requires count { count ≡ elements_of shape.now }
    requires some { 0 < count }
    requires few { count ≤ 2 ^ 24 }
    requires most { length many.now ≤ 64 }
    requires lengths { All (λ n. n ≤ 2 ^ 32) many.now }
    ensures { IfOk result (λ v. v.items ≡ map (λ m. pos (number shape.now (own_tuple shape.now m)))
        (indices many.now)) }
{
    let strides = own_strides(alloc, many.len(), shape, count)?;
    ways_of(alloc, many, &strides.as_slice()[..many.len()])
}
