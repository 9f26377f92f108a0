//! The universal functions: `BinaryUfunc` of two numbers and `Single` of one.

use nd_syntax::trees::{BinaryOp, UnaryOp};

/// A function of two numbers: an operator, `np.minimum`, or `np.maximum`.
#[derive(Clone, Copy)]
pub enum BinaryUfunc {
    Operator(BinaryOp),
    Minimum,
    Maximum,
}

/// A function of one number: an operator, or the absolute value.
#[derive(Clone, Copy)]
pub enum Single {
    Of(UnaryOp),
    Absolute,
}
