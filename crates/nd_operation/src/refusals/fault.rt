//! `StmtFault`: why a statement is refused.

pub use nd_npy::header::NpyFault;
pub use nd_npy::pep3118::FormatFault;
pub use nd_shape::ShapeFault;
pub use nd_ufunc::scalar::UfuncFault;
pub use nd_view::ViewFault;

/// Why an index into an array is refused.
#[derive(Drop)]
pub enum IndexFault {
    /// The index is not in `-size..size`, where `size` is the length of the axis. Axes are counted
    /// from 0.
    OutOfBounds { axis: usize, index: i128, size: u64 },
    /// The items stand for more axes than the array has.
    TooManyIndices,
    /// The step of a slice is 0.
    ZeroStep,
    /// The item is neither an integer nor an array.
    NotAnIndex,
    /// There is more than one `...`.
    TwoEllipses,
    /// The elements have no field of this name.
    NoField(String),
    /// A mask has another length than this axis. Axes are counted from 0.
    MaskShape { axis: usize },
    /// The arrays and masks do not broadcast together.
    IndexShapes,
}

/// Why a reduction is refused.
#[derive(Clone, Copy)]
pub enum ReduceFault {
    /// The least or greatest of no numbers is asked for.
    EmptyReduce,
    /// The array has no such axis.
    NoAxis,
    /// The elements are structures.
    NotNumbers,
}

/// Other refusals of a statement.
#[derive(Drop)]
pub enum StmtError {
    /// The name is not bound.
    NoName(String),
    /// There is no input of this name, or it has another form.
    NoInput(String),
    /// A Python integer below -2^63 or above 2^64 - 1.
    IntTooBig,
    /// A Python integer is divided by zero.
    ZeroDivide,
    /// A Python integer is shifted by a negative number.
    NegativeShift,
    /// A Python integer outside `int64`, where no dtype is written.
    NeedsType,
    /// The lists in a list differ in shape.
    RaggedList,
    /// What is indexed, or whose method is called, is no array.
    NotAnArray,
    /// The text of a cell would have more than 2^20 bytes.
    TextTooLong,
    /// The operation does not take the value.
    BadArgument,
    /// What is written names no dtype.
    BadType,
}

/// Why a statement is refused.
#[derive(Drop)]
pub enum StmtFault {
    Format(FormatFault),
    Npy(NpyFault),
    View(ViewFault),
    Index(IndexFault),
    Shape(ShapeFault),
    Ufunc(UfuncFault),
    Reduce(ReduceFault),
    Stmt(StmtError),
}
