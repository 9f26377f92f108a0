//! `UfuncFault`: why a universal function has no result.

/// Why a universal function has no result, or its results are not written.
#[derive(Clone, Copy)]
pub enum UfuncFault {
    /// The result is no integer.
    FloatResult,
    /// A Python integer that the kind beside it, or the array's, does not hold.
    IntOutOfRange(i128),
    /// NumPy does not define the function for Booleans.
    BoolOp,
    /// NumPy's casting rule forbids to write the results in place.
    KindCast,
    /// A power with a negative exponent.
    NegativePower,
    /// The shapes do not broadcast (NumPy user guide, "Broadcasting").
    ShapeMismatch,
    /// The array is read-only.
    ReadOnly,
    /// The operand has no numbers.
    NotNumbers,
}
