//! `Range`: the integers of NumPy's `arange`.

ghost use Rattle.std.specs.Prelude.{◌≡◌, ◌≢◌, ◌<◌, ◌*ℤ◌, ℕ, IsTrue, pos, true};
ghost use Rattle.nd_model.specs.Arrays.Element.{fits};
ghost use Rattle.nd_model.specs.Making.Creation as creation;
ghost use Rattle.nd_types.specs.Kinds.{kind_of};
ghost use Rattle.nd_convert.specs.Creation.Ranges.{range_from};
ghost use Rattle.std.specs.Int.{int_wrap, w128};

use crate::creation::filling::next_number;
use nd_types::{Kind, fits};

/// The integers from `start` on, `step` apart, before `stop`.
#[derive(Clone, Copy)]
pub struct Range {
    pub start: i128,
    pub stop: i128,
    pub step: i128,
}

/// Whether the step leads towards the stop.
fn leads(range: Range) -> bool
    ensures { result ≡ creation.leads (range_from range) }
{
    if range.step < 0 {
        return range.stop < range.start;
    }
    range.start < range.stop
}

/// Returns how many integers the range has. From 0 before 10 by 3 there are 4.
pub fn range_count(range: Range) -> u128
    requires { range.step ≢ pos 0 }
    ensures { result ≡ creation.range_count (range_from range) }
{
    if !leads(range) {
        return 0;
    }
    (range.stop.abs_diff(range.start) - 1) / range.step.unsigned_abs() + 1
}

/// The lowest 128 bits of `place` steps.
#[inline(always)]
fn way_to(place: usize, step: i128) -> i128
    ensures { result ≡ int_wrap w128 (pos place *ℤ step) }
{
    (place as i128).wrapping_mul(step)
}

/// The lowest 128 bits of an integer of the range; those before the stop have no more.
#[inline(always)]
fn range_number(range: Range, place: usize) -> i128
    ensures { result ≡ int_wrap w128 (creation.range_number (range_from range) place) }
{
    next_number(range.start, way_to(place, range.step))
}

/// Whether a kind holds the first and the last of the range's integers, and so all of them. The
/// answer is `false` where there are none.
fn holds_ends(kind: Kind, range: Range, count: usize) -> bool
    requires step { range.step ≢ pos 0 }
    requires count { count ≡ creation.range_count (range_from range) }
    ensures { IsTrue result → (k : ℕ) → k < count
        → fits (kind_of kind) (creation.range_number (range_from range) k) ≡ true }
{
    count != 0 && fits(kind, range_number(range, 0)) && fits(kind, range_number(range, count - 1))
}

/// Returns the first integer of the range that a kind does not hold: 130 for `int8` and
/// `120 130 140`. `count` is that of `range_count`.
pub fn range_misfit(kind: Kind, range: Range, count: usize) -> Option<i128>
    requires step { range.step ≢ pos 0 }
    requires count { count ≡ creation.range_count (range_from range) }
    ensures { result ≡ creation.range_misfit (kind_of kind) (range_from range) }
{
    if holds_ends(kind, range, count) {
        return None;
    }
    for place in 0..count {
        let number = range_number(range, place);
        if !fits(kind, number) {
            return Some(number);
        }
    }
    None
}
