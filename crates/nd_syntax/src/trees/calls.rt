//! `Ufunc`, `Reduction` and `DType`: NumPy's functions and methods by name, and dtypes as a cell
//! writes them.

use nd_types::Kind;

/// A universal function with `reduce` and `accumulate`: `np.add` and the like.
#[derive(Clone, Copy, Debug)]
pub enum Ufunc {
    Add,
    Multiply,
    Minimum,
    Maximum,
}

/// A method that reduces an array: `x.sum()` and the like.
#[derive(Clone, Copy, Debug)]
pub enum Reduction {
    Sum,
    Prod,
    Min,
    Max,
    Any,
    All,
    ArgMin,
    ArgMax,
}

/// A method that accumulates: `x.cumsum()`, `x.cumprod()`.
#[derive(Clone, Copy, Debug)]
pub enum Accumulation {
    CumSum,
    CumProd,
}

/// What a new array is filled with: `np.zeros`, `np.ones`.
#[derive(Clone, Copy, Debug)]
pub enum Fill {
    Zeros,
    Ones,
}

/// The dtype of a number or a field, as it is written.
#[derive(Debug, Drop)]
pub enum TypeName {
    /// `np.int8` and the like.
    Kind(Kind),
    /// A text, which is not read yet.
    Text(String),
}

/// A field of a structure.
#[derive(Debug, Drop)]
pub struct FieldType {
    pub name: String,
    pub type_name: TypeName,
}

/// A dtype, as it is written.
#[derive(Debug, Drop)]
pub enum DType {
    Simple(TypeName),
    /// The fields of a structure without pad bytes.
    Packed(Vec<FieldType>),
}
