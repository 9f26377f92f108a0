//! `slice_positions`: the positions that a slice selects on an axis.
ghost use Rattle.std.specs.Prelude.{◌≡◌, ◌+◌, ◌<◌, ◌≤◌, ◌^◌, pos, ◌+ℤ◌, ◌<ℤ◌, unsigned_abs, true, false, MatchOption};
ghost use Rattle.nd_model.specs.Indexing.Selecting.{counted_from, is_within};
ghost use Rattle.nd_model.specs.Indexing.Slicing as model;
ghost use Rattle.nd_index.specs.Basic.Layouts.{ArePositions};

/// `count` positions on an axis, each `step` behind the one before. The step is 0 where there are
/// fewer than two, and `first` is 0 where there are none.
#[derive(Clone, Copy)]
pub(crate) struct Positions {
    pub(crate) first: u64,
    pub(crate) step: i128,
    pub(crate) count: u64,
}

// A slice's bound as a position: counted from the end where it is negative, `more` behind it, and
// clipped to 0 and the length.
fn clip(length: u64, bound: i128, more: u64) -> u64
    requires { (length ≤ 2 ^ 32) × (more ≤ 1) }
    ensures value { result ≡ model.clipped length (model.from_end length bound +ℤ pos more) }
    ensures limit { result ≤ length }
{
    let end = i128::from(length);
    let from_start = if bound < 0 { bound + end } else { bound };
    if from_start >= end {
        return length;
    }
    let place = from_start + i128::from(more);
    if place < 0 { 0 } else { place as u64 }
}

// A bound of a slice, or `otherwise` where it is left out.
fn bound_or(otherwise: u64, length: u64, more: u64, bound: Option<i128>) -> u64
    requires { (length ≤ 2 ^ 32) × (more ≤ 1) × (otherwise ≤ length) }
    ensures value { result ≡ model.bound_or otherwise length more bound }
    ensures limit { result ≤ length }
{
    match bound {
        Some(bound) => clip(length, bound, more),
        None => otherwise,
    }
}

// The number of steps from a position to before another.
fn count_steps(from: u64, to: u64, step: u128) -> u64
    requires { (to ≤ 2 ^ 32) × (0 < step) }
    ensures { result ≡ model.steps from to step }
{
    if from < to {
        (u128::from(to - from - 1) / step) as u64 + 1
    } else {
        0
    }
}

// The positions from `from` up to before `to`.
fn upwards(from: u64, to: u64, step: i128) -> Positions
    requires { (to ≤ 2 ^ 32) × (pos 0 <ℤ step) }
    ensures { ArePositions result (model.upwards from to (unsigned_abs step)) }
{
    let count = count_steps(from, to, step.unsigned_abs());
    Positions {
        first: if count == 0 { 0 } else { from },
        step: if count <= 1 { 0 } else { step },
        count,
    }
}

// The positions from before `from` down to `to`.
fn downwards(from: u64, to: u64, step: i128) -> Positions
    requires { (from ≤ 2 ^ 32) × (step <ℤ pos 0) }
    ensures { ArePositions result (model.downwards from to (unsigned_abs step)) }
{
    let count = count_steps(to, from, step.unsigned_abs());
    Positions {
        first: if count == 0 { 0 } else { from - 1 },
        step: if count <= 1 { 0 } else { step },
        count,
    }
}

/// Returns the positions that a slice selects on an axis of this length, as Python's
/// `range(*slice.indices(length))`.
pub(crate) fn slice_positions(
    length: u64,
    start: Option<i128>,
    stop: Option<i128>,
    step: Option<i128>,
) -> Positions
    requires { (length ≤ 2 ^ 32) × (0 < unsigned_abs (model.step_or step)) }
    ensures { ArePositions result (model.slice_positions length start stop (model.step_or step)) }
{
    let step = step.unwrap_or(1);
    if step > 0 {
        let from = bound_or(0, length, 0, start);
        let to = bound_or(length, length, 0, stop);
        upwards(from, to, step)
    } else {
        let from = bound_or(length, length, 1, start);
        let to = bound_or(0, length, 1, stop);
        downwards(from, to, step)
    }
}

/// Returns the position of an integer index, or `None` where it is out of bounds.
pub(crate) fn position(length: u64, index: i128) -> Option<u64>
    requires { length ≤ 2 ^ 32 }
    ensures { MatchOption result (is_within length index ≡ false) (λ k.
        (is_within length index ≡ true) × (k ≡ counted_from length index)) }
{
    let end = i128::from(length);
    if index >= end || index < -end {
        return None;
    }
    Some(if index < 0 { index + end } else { index } as u64)
}
