//! `Num`: numbers outside arrays, Python's and NumPy's scalars.
use crate::kind::Kind;

/// A number outside an array.
#[derive(Clone, Copy)]
pub enum Num {
    /// A Python integer.
    Int(i128),
    /// A Python Boolean.
    Bool(bool),
    /// A NumPy scalar, in the range of its kind.
    Scalar(Kind, i128),
}
