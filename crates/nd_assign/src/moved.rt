//! `moved_view` and `Extent`: views in a part of a block, and the range of bytes that a view lies
//! in.
ghost use Rattle.std.specs.Prelude.{◌≡◌, ◌+◌, ◌-◌, ◌≤◌, map, IsTrue, IfOk};
ghost use Rattle.std.specs.List.{All};
ghost use Rattle.nd_model.specs.Arrays.View.{item_size};

use nd_view::View;
use std::alloc::{AllocError, Global};

/// Returns the view with the same elements in the block from byte offset `by` on.
pub(crate) fn moved_view(alloc: Global, view: &View, by: u64) -> Result<View, AllocError>
    requires { All (λ p. by ≤ p) view.now.places }
    ensures element { IfOk result (λ v. v.element ≡ view.now.element) }
    ensures shape { IfOk result (λ v. v.shape ≡ view.now.shape) }
    ensures places { IfOk result (λ v. v.places ≡ map (λ p. p - by) view.now.places) }
{
    View::from_strides(
        alloc,
        view.elem().try_clone()?,
        view.shape(),
        view.held_strides(),
        view.offset().saturating_sub(by),
        view.writable(),
    )
}

/// The byte offsets of the lowest and the highest element of a view.
#[derive(Clone, Copy)]
pub(crate) struct Extent {
    pub(crate) first: u64,
    pub(crate) last: u64,
}

/// Returns the extent of a view's elements.
pub(crate) fn extent_of(view: &View) -> Extent
    ensures first { All (λ p. result.first ≤ p) view.now.places }
    ensures last { All (λ p. p ≤ result.last) view.now.places }
{
    let mut extent = Extent {
        first: u64::MAX,
        last: 0,
    };
    let mut runs = view.runs();
    while let Some(run) = runs.next() {
        // proof: the elements lie one step apart, by the clause of step().
        let _step = run.step();
        let count = run.count();
        let (begin, end) = (run.place(0), run.place(count - 1));
        extent.first = extent.first.min(begin.min(end));
        extent.last = extent.last.max(begin.max(end));
    }
    extent
}

impl Extent {
    /// Returns whether each element, of `size` bytes, ends at or before byte offset `place`.
    pub(crate) fn ends_before(self, size: u64, place: u64) -> bool
        ensures { IsTrue result → self.last + size ≤ place }
    {
        self.last <= place && size <= place - self.last
    }
}
