//! `Runs`: the elements of a view in C order, as runs of elements one step apart.
ghost use Rattle.std.specs.Prelude.{◌≡◌, ℕ, pos, ◌≤ℤ◌, ◌<◌, ◌≤◌, ◌^◌, [], ◌+◌, ◌∷◌, length, take, drop, slice_index, MatchOption, IsTrue, ◌↔◌};
ghost use Rattle.std.specs.List.{concat};
ghost use Rattle.nd_model.specs.Arrays.Runs.{place_at, spot_at, run_places, in_pieces};
ghost use Rattle.nd_view.specs.SideBySide.{side_by_side};
ghost use Rattle.nd_view.specs.Walks.{IsInner};

use crate::inner_loop::InnerLoop;
use crate::shapes::MOST_AXES;
use crate::strided::View;
use crate::walk::{advance, shift_place};
use std::marker::Model;

/// Elements that begin one step apart, at least one. A clause sees the list of their byte offsets.
#[derive(Drop)]
pub struct Run {
    start: u64,
    step: i128,
    count: u64,
}

impl Model for Run {
    ghost use Rattle.std.specs.Prelude.{List, ℕ};

    ghost Value = { List ℕ };

    ghost use Rattle.nd_view.specs.Walks.{places_of, IsRun};

    ghost view = { places_of };

    ghost invariant = { IsRun };
}

impl Run {
    pub(crate) fn new(start: u64, step: i128, count: u64) -> Run
        requires some { 0 < count }
        requires places { (k : ℕ) → k < count → (pos 0 ≤ℤ place_at start step k)
            × (spot_at start step k < 2 ^ 64) }
        requires alone { count ≡ 1 → step ≡ pos 0 }
        ensures { result ≡ run_places start step count }
    {
        Run { start, step, count }
    }

    /// Returns the byte offset of the first element.
    pub fn start(&self) -> u64
        ensures { result ≡ slice_index self.now 0 }
    {
        self.start
    }

    /// Returns the bytes from one element to the next: -8 along `x[::-1]` with itemsize 8. The step
    /// of a single element is 0.
    pub fn step(&self) -> i128
        ensures places { (k : ℕ) → k < length self.now → place_at (slice_index self.now 0) result k
            ≡ pos (slice_index self.now k) }
        ensures alone { length self.now ≡ 1 → result ≡ pos 0 }
    {
        self.step
    }

    /// Returns the number of elements.
    pub fn count(&self) -> u64
        ensures value { result ≡ length self.now }
        ensures some { 0 < result }
    {
        self.count
    }

    /// Returns whether the elements, of `itemsize` bytes each, are contiguous in increasing order.
    /// A single element is.
    #[inline(always)]
    pub fn is_contiguous(&self, itemsize: u64) -> bool
        ensures { IsTrue result ↔ (self.now ≡ side_by_side itemsize (slice_index self.now 0)
            (length self.now)) }
    {
        let count = self.count();
        count == 1 || self.step() == i128::from(itemsize)
    }

    /// Returns the byte offset of an element.
    #[inline]
    pub fn place(&self, number: u64) -> u64
        requires { number < length self.now }
        ensures { result ≡ slice_index self.now number }
    {
        shift_place(self.start, number, self.step)
    }

    /// Returns the run of `count` of the elements, from index `first` on. Of `0 8 16 24`,
    /// `part(1, 2)` is `8 16`.
    pub fn part(&self, first: u64, count: u64) -> Run
        requires some { 0 < count }
        requires inside { first + count ≤ length self.now }
        ensures { result ≡ take count (drop first self.now) }
    {
        if count == 1 {
            return Run::new(self.place(first), 0, count);
        }
        Run::new(self.place(first), self.step, count)
    }
}

/// A walk over the runs of a view in C order. It takes no memory. A clause sees the list of the
/// runs that are left.
#[derive(Drop)]
pub struct Runs<'v> {
    view: &'v View,
    // the axes of a run, and the index tuple of the axes before them
    inner: InnerLoop,
    index: [u64; MOST_AXES],
    // the number of the next element, and the number of all
    at: u64,
    count: u64,
}

impl<'v> Model for Runs<'v> {
    ghost use Rattle.std.specs.Prelude.{List, ℕ};

    ghost Value = { List (List ℕ) };

    ghost use Rattle.nd_view.specs.Walks.{left_of, IsWalk};

    ghost view = { left_of };

    ghost invariant = { IsWalk };
}

impl<'v> Runs<'v> {
    pub(crate) fn new(view: &'v View, inner: InnerLoop) -> Runs<'v>
        requires { IsInner view.now inner }
        ensures value { result ≡ in_pieces inner.count view.now.places }
        ensures places { concat result ≡ view.now.places }
    {
        Runs {
            view,
            inner,
            index: [0; MOST_AXES],
            at: 0,
            count: view.count() as u64,
        }
    }

    /// Returns the next run, or `None` where none is left.
    pub fn next(&mut self) -> Option<Run>
        ensures { MatchOption result ((self.old ≡ []) × (self.new ≡ [])) (λ run. self.old
            ≡ run ∷ self.new) }
    {
        if self.at == self.count {
            return None;
        }
        let InnerLoop { outer, step, count } = self.inner;
        let start = self.view.place_on(&self.index[..outer]);
        self.at += count;
        advance(&self.view.shape()[..outer], &mut self.index[..outer]);
        Some(Run::new(start, step, count))
    }
}
