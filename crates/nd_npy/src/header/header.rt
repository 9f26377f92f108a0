//! `Header`: what the header of an NPY file says of its array.
use nd_types::ElemType;

/// The encoding of a header.
#[derive(Clone, Copy, PartialEq, Eq)]
pub enum Encoding {
    Latin1,
    Utf8,
}

/// What the header of an NPY file says of its array.
#[derive(Drop)]
pub struct Header {
    pub elem: ElemType,
    /// Whether the array is in Fortran order: the first axis varies fastest.
    pub fortran: bool,
    pub shape: Vec<u64>,
}
