//! `ShapeFault`: why a view in another shape or dtype is refused.
use nd_view::ViewFault;

/// Why a view in another shape or dtype is refused.
#[derive(Clone, Copy)]
pub enum ShapeFault {
    /// The numbers are not the array's axes, each once.
    BadAxes,
    /// The array's shape does not broadcast to this one.
    ShapeMismatch,
    /// The last axis has no whole number of elements of the new itemsize, or is not contiguous.
    ItemSizes,
    /// More than one length is -1.
    TwoUnknown,
    /// The lengths do not multiply to the number of elements.
    SizeMismatch,
    /// The view would exceed the limits of arrays.
    View(ViewFault),
}
