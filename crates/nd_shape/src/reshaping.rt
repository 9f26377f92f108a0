//! `reshape`: the elements of an array in C order in another shape.
ghost use Rattle.std.specs.Prelude.{◌≡◌, ◌+◌, ◌*◌, ◌/◌, ◌^◌, ◌<◌, ◌≤◌, min, pos, ◌≤ℤ◌, ◌+ℤ◌, ◌*ℤ◌, length, map, replicate, true, false, unsigned_abs, IfOk, MatchOption};
ghost use Rattle.std.specs.List.{All, list_all};
ghost use Rattle.nd_model.specs.Indexing.Reshaping as model;
ghost use Rattle.nd_model.specs.Indexing.Reshaping.{known_elements, length_or, lengths_with, unknowns};
ghost use Rattle.nd_model.specs.Arrays.Strides.{IsInLimits};
ghost use Rattle.nd_model.specs.Arrays.Tuple.{elements_of};
ghost use Rattle.nd_model.specs.Arrays.View.{item_size};
ghost use Rattle.nd_shape.specs.NewShapes.{reshaped_given, shape_given};
ghost use Rattle.nd_shape.specs.Reshapes as reshapes;
ghost use Rattle.nd_shape.specs.Reshapes.{IsLeft, fills, steps_for};

use crate::fault::ShapeFault;
use nd_view::{Shape, View};
use smallvec::SmallVec;
use std::alloc::{AllocError, Global};

// One more than the most elements of an array.
const TOO_MANY: u64 = (1 << 24) + 1;

/// The result of a reshape: the elements of an array in another shape.
#[derive(Drop)]
pub enum Reshaped {
    /// A view of the elements, where they lie.
    View(View),
    /// The shape of a copy: no strides lead to the elements in this order.
    Copy(Shape),
}

fn is_unknown(length: i128) -> bool
    ensures { result ≡ model.is_unknown length }
{
    length == -1
}

fn is_length(length: i128) -> bool
    ensures { result ≡ model.is_length length }
{
    length >= -1
}

// The length that a number is, or `left` where it is -1.
fn length_or(left: u64, length: i128) -> u64
    requires known { model.is_length length ≡ true }
    requires limit { (length ≤ℤ pos (2 ^ 32)) × (left ≤ 2 ^ 32) }
    ensures value { result ≡ length_or left length }
    ensures range { result ≤ 2 ^ 32 }
{
    if is_unknown(length) {
        left
    } else {
        length as u64
    }
}

// How many lengths are -1.
fn count_unknowns(lengths: &[i128]) -> usize
    ensures value { result ≡ unknowns lengths.now }
{
    let mut count = 0;
    for length in lengths {
        if is_unknown(*length) {
            count += 1;
        }
    }
    count
}

fn are_lengths(lengths: &[i128]) -> bool
    ensures { result ≡ list_all model.is_length lengths.now }
{
    for length in lengths {
        if !is_length(*length) {
            return false;
        }
    }
    true
}

// The product of a count and a length, or a number above the limit of arrays where it is above.
fn multiply(count: u64, length: u64) -> u64
    requires { (count ≤ 2 ^ 24 + 1) × (length ≤ 2 ^ 32) }
    ensures value { result ≡ min (count * length) (2 ^ 24 + 1) }
    ensures range { result ≤ 2 ^ 24 + 1 }
{
    let product = count * length;
    if product < TOO_MANY {
        product
    } else {
        TOO_MANY
    }
}

// The product of the known lengths, or a number above the limit of arrays.
fn known_elements(lengths: &[i128]) -> u64
    requires known { list_all model.is_length lengths.now ≡ true }
    requires limit { All (λ z. z ≤ℤ pos (2 ^ 32)) lengths.now }
    ensures value { result ≡ min (known_elements lengths.now) (2 ^ 24 + 1) }
{
    let mut count = 1;
    for length in lengths {
        count = multiply(count, length_or(1, *length));
    }
    count
}

// The length that -1 stands for, 0 where none is -1. `None` where no length gives the number of
// elements.
fn length_left(count: u64, unknowns: usize, known: u64) -> Option<u64>
    requires { count ≤ 2 ^ 24 }
    ensures { MatchOption result (fills count unknowns known ≡ false) (λ left.
        (fills count unknowns known ≡ true) × IsLeft count unknowns known left) }
{
    if unknowns == 0 {
        return if known == count { Some(0) } else { None };
    }
    if known == 0 {
        return None;
    }
    if count % known == 0 {
        Some(count / known)
    } else {
        None
    }
}

// The lengths of the new shape, or why there is none.
fn new_shape(
    alloc: Global,
    count: u64,
    lengths: &[i128],
) -> Result<Result<Shape, ShapeFault>, AllocError>
    requires count { count ≤ 2 ^ 24 }
    requires limit { All (λ z. z ≤ℤ pos (2 ^ 32)) lengths.now }
    ensures { IfOk result (λ r. shape_given (λ v. v.items) r ≡ model.shape_for count lengths.now) }
{
    let unknowns = count_unknowns(lengths);
    if unknowns > 1 {
        return Ok(Err(ShapeFault::TwoUnknown));
    }
    if !are_lengths(lengths) {
        return Ok(Err(ShapeFault::SizeMismatch));
    }
    let Some(left) = length_left(count, unknowns, known_elements(lengths)) else {
        return Ok(Err(ShapeFault::SizeMismatch));
    };
    let mut shape = SmallVec::new(alloc);
    for length in lengths {
        shape.push(length_or(left, *length))?;
    }
    Ok(Ok(shape))
}

// The distance of `by` steps.
fn scale(by: u64, step: i128) -> i128
    requires by { by ≤ 2 ^ 24 }
    requires step { unsigned_abs step ≤ 2 ^ 93 }
    ensures value { result ≡ pos by *ℤ step }
    ensures range { unsigned_abs result ≤ 2 ^ 117 }
    ensures near { unsigned_abs step < 2 ^ 64 → unsigned_abs result ≤ 2 ^ 88 }
{
    i128::from(by) * step
}

// The distance `by` steps behind `way`.
fn go_on(way: i128, by: u64, step: i128) -> i128
    requires way { unsigned_abs way ≤ 2 ^ 122 }
    requires by { by ≤ 2 ^ 24 }
    requires step { unsigned_abs step ≤ 2 ^ 93 }
    ensures value { result ≡ way +ℤ (pos by *ℤ step) }
    ensures range { unsigned_abs result ≤ unsigned_abs way + 2 ^ 117 }
    ensures near { unsigned_abs step < 2 ^ 64 → unsigned_abs result ≤ unsigned_abs way + 2 ^ 88 }
{
    way + scale(by, step)
}

// The distance of an element from the first one. `number` is its flat index.
fn way_of(shape: &[u64], strides: &[i128], count: u64, number: u64) -> i128
    requires each { length strides.now ≡ length shape.now }
    requires most { length shape.now ≤ 32 }
    requires count { count ≡ elements_of shape.now }
    requires some { (0 < count) × (count ≤ 2 ^ 24) }
    requires range { All (λ s. unsigned_abs s ≤ 2 ^ 93) strides.now }
    ensures value { result ≡ reshapes.way_of shape.now strides.now number }
    ensures near { All (λ s. unsigned_abs s < 2 ^ 64) strides.now → unsigned_abs result ≤ 2 ^ 93 }
{
    let mut each = count;
    let mut way = 0;
    for (axis, length) in shape.iter().enumerate() {
        each /= *length;
        way = go_on(way, number / each % *length, strides[axis]);
    }
    way
}

// The strides of another shape: on each axis the distance to its second element.
fn steps_for(
    alloc: Global,
    shape: &[u64],
    strides: &[i128],
    count: u64,
    to: &[u64],
) -> Result<SmallVec<i128, 32>, AllocError>
    requires each { length strides.now ≡ length shape.now }
    requires most { length shape.now ≤ 32 }
    requires count { (count ≡ elements_of shape.now) × (count ≡ elements_of to.now) }
    requires some { (0 < count) × (count ≤ 2 ^ 24) }
    requires range { All (λ s. unsigned_abs s < 2 ^ 64) strides.now }
    ensures value { IfOk result (λ v. v.items ≡ steps_for (reshapes.way_of shape.now strides.now)
        to.now) }
    ensures range { IfOk result (λ v. All (λ s. unsigned_abs s ≤ 2 ^ 93) v.items) }
{
    let mut each = count;
    let mut steps = SmallVec::new(alloc);
    for length in to {
        each /= *length;
        steps.push(way_of(shape, strides, count, each))?;
    }
    Ok(steps)
}

// Whether the second element of an axis lies at this distance from the first, where it has a second
// one.
fn is_met(length: u64, stride: i128, way: i128) -> bool
    ensures { result ≡ reshapes.is_met length stride way }
{
    length <= 1 || way == stride
}

// Whether those strides lead to the second element on each axis.
fn are_met(shape: &[u64], strides: &[i128], count: u64, to: &[u64], steps: &[i128]) -> bool
    requires each { (length strides.now ≡ length shape.now) × (length steps.now ≡ length to.now) }
    requires most { length to.now ≤ 32 }
    requires count { (count ≡ elements_of shape.now) × (count ≡ elements_of to.now) }
    requires some { (0 < count) × (count ≤ 2 ^ 24) }
    requires range { All (λ s. unsigned_abs s ≤ 2 ^ 93) steps.now }
    ensures { result ≡ reshapes.are_met (reshapes.way_of to.now steps.now) shape.now strides.now }
{
    let mut each = count;
    for (axis, length) in shape.iter().enumerate() {
        each /= *length;
        if !is_met(*length, strides[axis], way_of(to, steps, count, each)) {
            return false;
        }
    }
    true
}

// The view of an empty array in another shape.
fn empty_view(alloc: Global, view: &View, shape: &[u64]) -> Result<View, AllocError>
    requires limits { IsInLimits (item_size view.now.element) shape.now }
    requires none { (elements_of shape.now ≡ 0) × (elements_of view.now.shape ≡ 0) }
    ensures { IfOk result (λ v. v ≡ record view.now { shape = shape.now }) }
{
    // proof: there are no elements, by the clause of count().
    let _count = view.count();
    let steps: SmallVec<i128, 32> = SmallVec::from_elem(alloc, 0, shape.len())?;
    let elem = view.elem().try_clone()?;
    let empty = View::from_strides(alloc, elem, shape, steps.as_slice(), 0, view.writable())?;
    Ok(empty)
}

/// Returns the elements in C order in another shape (`ndarray.reshape`). It is a view wherever
/// strides can lead to them in this order, else the shape of a copy. A length of -1 stands for the
/// one that is left.
///
/// Shape (2, 6) in (-1, 4) gives (3, 4). `x.T.reshape(6)` of shape (2, 3) is a copy. Refused in
/// this order: `TwoUnknown`; `SizeMismatch`, also for another negative length and for -1 beside a
/// length of 0.
pub fn reshape(
    alloc: Global,
    view: &View,
    lengths: &[i128],
) -> Result<Result<Reshaped, ShapeFault>, AllocError>
    requires axes { length lengths.now ≤ 32 }
    requires limit { All (λ z. z ≤ℤ pos (2 ^ 32)) lengths.now }
    ensures { IfOk result (λ r. reshaped_given r ≡ model.reshape lengths.now view.now) }
{
    let count = view.count() as u64;
    let shape = match new_shape(alloc, count, lengths)? {
        Ok(shape) => shape,
        Err(fault) => return Ok(Err(fault)),
    };
    let to = shape.as_slice();
    let own = view.shape();
    if count == 0 {
        let empty = empty_view(alloc, view, to)?;
        return Ok(Ok(Reshaped::View(empty)));
    }
    let strides = view.held_strides();
    let steps = steps_for(alloc, own, strides, count, to)?;
    if !are_met(own, strides, count, to, steps.as_slice()) {
        return Ok(Ok(Reshaped::Copy(shape)));
    }
    let elem = view.elem().try_clone()?;
    let reshaped = View::from_strides(
        alloc,
        elem,
        to,
        steps.as_slice(),
        view.offset(),
        view.writable(),
    )?;
    Ok(Ok(Reshaped::View(reshaped)))
}
