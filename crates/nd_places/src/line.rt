//! `StridedLine`: elements at one distance from another, whose byte offsets 64 bits hold.
ghost use Rattle.std.specs.Prelude.{◌≡◌, ◌↔◌, ◌^◌, ◌≤◌, IsTrue, unsigned_abs};
ghost use Rattle.nd_places.specs.Near.{IsNear, IsRow, place_on};

/// A strided line of elements: the byte offset of the element of index 0, and the bytes from one to
/// the next.
///
/// For `x[::2]` with itemsize 8, `start` is 0 and `step` is 16.
#[derive(Clone, Copy)]
pub struct StridedLine {
    pub start: i64,
    pub step: i64,
    ghost start_near: { IsNear start },
    ghost step_near: { unsigned_abs step ≤ 2 ^ 29 },
}

impl StridedLine {
    /// Returns whether its elements, of `size` bytes each, are contiguous, and the first begins in
    /// the block.
    #[inline(always)]
    pub fn is_contiguous(&self, size: u64) -> bool
        ensures { IsTrue result ↔ IsRow self.now.start self.now.step size }
    {
        i128::from(self.step) == i128::from(size) && self.start >= 0
    }
}

/// Returns a distance from the block's first byte as a byte offset, 0 for a negative one.
#[inline(always)]
pub fn near_place(way: i64) -> u64
    ensures { result ≡ place_on way }
{
    way.max(0) as u64
}
