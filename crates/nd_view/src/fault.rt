//! `ViewFault`: why no array or view has given parts.

/// Why no array, or no view of a block, has these parts.
#[derive(Clone, Copy)]
pub enum ViewFault {
    /// A byte of an element would lie outside the block.
    OutOfBlock,
    /// There would be more than 32 axes.
    TooManyAxes,
    /// An axis would have more than 2^32 elements, or all of them more than 2^24 elements or 2^27
    /// bytes.
    TooManyElements,
    /// The numbers of strides and axes differ.
    AxesDiffer,
}
