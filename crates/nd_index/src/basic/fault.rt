//! `SelectFault`: why a basic index is refused.
use nd_view::ViewFault;

/// Why a basic index is refused.
#[derive(Clone, Copy)]
pub enum SelectFault {
    /// There is more than one `...`.
    TwoEllipses,
    /// The items stand for more axes than the array has.
    TooManyIndices,
    /// The step of a slice is 0.
    ZeroStep,
    /// The index is not in `-size..size`, where `size` is the length of the axis. Axes are counted
    /// from 0.
    OutOfBounds { axis: usize, index: i128, size: u64 },
    /// The view would exceed the limits of arrays.
    View(ViewFault),
}
