//! `InnerLoop`: the last axes of an array, walked as one.
ghost use Rattle.std.specs.Prelude.{◌≡◌, ◌-◌, ◌^◌, ◌≤◌, pos, length, drop, slice_index_or, IsTrue};
ghost use Rattle.nd_model.specs.Arrays.Tuple.{elements_of};
ghost use Rattle.nd_view.specs.Strides as strides;
ghost use Rattle.nd_view.specs.Strides.{AreJoined, IsEvenBehind};

use crate::shapes::{element_count, length_of, stride_of};

/// The last axes of an array, walked as one: how many axes lie before them, and the step and the
/// number of their elements.
#[derive(Clone, Copy)]
pub(crate) struct InnerLoop {
    pub(crate) outer: usize,
    pub(crate) step: i128,
    pub(crate) count: u64,
}

// Whether an axis and the `count` elements behind each of its indices, which are `step` bytes
// apart, are walked by one step.
fn are_joined(length: u64, stride: i128, count: u64, step: i128) -> bool
    ensures { IsTrue result → AreJoined length stride count step }
{
    if length <= 1 || count <= 1 {
        return true;
    }
    match i128::from(count).checked_mul(step) {
        Some(all) => all == stride,
        None => false,
    }
}

// The step by which an axis and the `count` elements behind each of its indices are walked.
fn joined_step(length: u64, stride: i128, count: u64, step: i128) -> i128
    ensures { result ≡ strides.joined_step length stride count step }
{
    if length > 1 && count <= 1 {
        stride
    } else {
        step
    }
}

/// Returns the most axes that are walked as one, as NumPy's iterator joins them.
pub(crate) fn widest_loop(shape: &[u64], strides: &[i128]) -> InnerLoop
    requires axes { length strides.now ≡ length shape.now }
    requires elements { elements_of shape.now ≤ 2 ^ 24 }
    ensures outer { result.outer ≤ length shape.now }
    ensures count { result.count ≡ elements_of (drop result.outer shape.now) }
    ensures even { IsEvenBehind result.outer shape.now strides.now result.step }
    ensures alone { result.count ≡ 1 → result.step ≡ pos 0 }
{
    if element_count(shape) == 0 {
        return InnerLoop {
            outer: 0,
            step: 0,
            count: 0,
        };
    }
    let mut outer = shape.len();
    let mut step = 0;
    let mut count = 1;
    while outer > 0 && are_joined(shape[outer - 1], strides[outer - 1], count, step) {
        outer -= 1;
        step = joined_step(shape[outer], strides[outer], count, step);
        count *= shape[outer];
    }
    InnerLoop { outer, step, count }
}

/// Returns the last axis alone. Without axes it is one element.
pub(crate) fn last_axis(shape: &[u64], strides: &[i128]) -> InnerLoop
    requires axes { length strides.now ≡ length shape.now }
    ensures outer { result.outer ≡ length shape.now - 1 }
    ensures count { result.count ≡ slice_index_or shape.now (length shape.now - 1) 1 }
    ensures step { result.step ≡ slice_index_or strides.now (length shape.now - 1) (pos 0) }
{
    let outer = shape.len().saturating_sub(1);
    InnerLoop {
        outer,
        step: stride_of(strides, outer),
        count: length_of(shape, outer),
    }
}
