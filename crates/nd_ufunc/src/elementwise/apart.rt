//! `view_keeps_off`: whether writing a contiguous target (`is_gapless`) from its first element on
//! overwrites nothing that is still to be read.
ghost use Rattle.std.specs.Prelude.{◌≡◌, ◌+◌, ◌*◌, ◌^◌, ◌<◌, ◌≤◌, length, slice_index, IsTrue, ◌↔◌};
ghost use Rattle.nd_view.specs.SideBySide.{side_by_side};
ghost use Rattle.nd_ufunc.specs.Elementwise.KeptOff.{KeepsOff};

use crate::elementwise::spread::Spread;
use nd_view::{Run, View};

// The byte offset of an element of the target.
fn place_at(first: u64, step: u64, number: u64) -> u128
    requires { step ≤ 8 }
    ensures { result ≡ first + number * step }
{
    u128::from(first) + u128::from(number) * u128::from(step)
}

// Whether an element at a byte offset ends before the target begins.
fn ends_before(place: u64, size: u64, first: u64) -> bool
    ensures { IsTrue result ↔ (place + size ≤ first) }
{
    u128::from(place) + u128::from(size) <= u128::from(first)
}

// Whether each element of a run lies before the target, or not before the target element of its
// index.
fn each_keeps_off(run: &Run, size: u64, first: u64, step: u64, at: u64) -> bool
    requires step { step ≤ 8 }
    requires few { at + length run.now ≤ 2 ^ 24 }
    ensures { IsTrue result ↔ KeepsOff size first step at run.now }
{
    for number in 0..run.count() {
        let place = run.place(number);
        if !ends_before(place, size, first)
            && u128::from(place) < place_at(first, step, at + number)
        {
            return false;
        }
    }
    true
}

// Whether each element of a run is safe. Elements are tested singly only where the run overlaps the
// target with another step.
fn run_keeps_off(run: &Run, size: u64, first: u64, step: u64, at: u64) -> bool
    requires step { step ≤ 8 }
    requires few { at + length run.now ≤ 2 ^ 24 }
    ensures { IsTrue result ↔ KeepsOff size first step at run.now }
{
    let (own, count) = (run.step(), run.count());
    let (start, last) = (run.place(0), run.place(count - 1));
    if ends_before(start, size, first) && ends_before(last, size, first) {
        return true;
    }
    let end = place_at(first, step, at + count);
    if end <= u128::from(start) && end <= u128::from(last) {
        return true;
    }
    if own == i128::from(step) && place_at(first, step, at) <= u128::from(start) {
        return true;
    }
    each_keeps_off(run, size, first, step, at)
}

/// Returns whether each element of a view lies before the target, or not before the target element
/// of its index. The target begins at byte offset `first`, its elements lie `step` bytes apart.
pub(crate) fn view_keeps_off(view: &View, size: u64, first: u64, step: u64) -> bool
    requires { step ≤ 8 }
    ensures { IsTrue result ↔ KeepsOff size first step 0 view.now.places }
{
    // proof: the number of elements is bounded, by the clause of count().
    let _count = view.count();
    let mut runs = view.runs();
    let mut at = 0;
    while let Some(run) = runs.next() {
        if !run_keeps_off(&run, size, first, step, at) {
            return false;
        }
        at += run.count();
    }
    true
}

/// Returns whether each of `count` elements that a walk leads to lies before the target, or not
/// before the target element of its index.
pub(crate) fn spread_keeps_off(
    places: &mut Spread<'_>,
    count: u64,
    size: u64,
    first: u64,
    step: u64,
) -> bool
    requires count { count ≡ length places.old }
    requires few { count ≤ 2 ^ 24 }
    requires step { step ≤ 8 }
    ensures { IsTrue result ↔ KeepsOff size first step 0 places.old }
{
    for at in 0..count {
        let place = places.next();
        if !ends_before(place, size, first) && u128::from(place) < place_at(first, step, at) {
            return false;
        }
    }
    true
}

// Whether a run of elements of `size` bytes begins at this byte offset and is contiguous.
fn is_next(run: &Run, size: u64, place: u128) -> bool
    ensures { IsTrue result ↔ (run.now ≡ side_by_side size place (length run.now)) }
{
    // proof: a run has an element, by the clause of count().
    let _count = run.count();
    u128::from(run.start()) == place && run.is_contiguous(size)
}

/// Returns whether the elements of a view, of `size` bytes each, are contiguous in C order.
pub(crate) fn is_gapless(view: &View, size: u64) -> bool
    requires { size ≤ 8 }
    ensures { IsTrue result ↔ (view.now.places ≡ side_by_side size
        (slice_index view.now.places 0) (length view.now.places)) }
{
    // proof: the number of elements is bounded, by the clause of count().
    let _count = view.count();
    let first = view.offset();
    let mut runs = view.runs();
    let mut at = 0;
    while let Some(run) = runs.next() {
        if !is_next(&run, size, place_at(first, size, at)) {
            return false;
        }
        at += run.count();
    }
    true
}
