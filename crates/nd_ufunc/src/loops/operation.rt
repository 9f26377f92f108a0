//! `Operation`: NumPy's universal functions as types, so that each inner loop is compiled for one
//! of them.
ghost use Rattle.std.specs.Prelude.{◌≡◌, ℤ};
ghost use Rattle.nd_model.specs.Arrays.Element as element;
ghost use Rattle.nd_model.specs.Making.Elementwise.{single_number};
ghost use Rattle.nd_model.specs.Making.Operators as operators;
ghost use Rattle.nd_model.specs.Grammar.Syntax as syntax;
ghost use Rattle.nd_types.specs.Kinds.{kind_of};
ghost use Rattle.nd_ufunc.specs.Loops.Results.{binary_result};

use crate::scalar::{
    Single, add, apply_single, floor_divide, is_zero, left_shift, multiply, power, reciprocal_of,
    remainder, right_shift, subtract,
};
use nd_syntax::trees::UnaryOp;
use nd_types::{Kind, wrap};

/// A function of two numbers. One of a single number ignores the right one.
pub trait Operation {
    /// The result, for a result of the kind.
    ghost gives: { element.Kind → ℤ → ℤ → ℤ };

    /// Whether the result is a Boolean for operands of each kind. The choice of the loop depends on
    /// it, no result does.
    const IS_COMPARISON: bool;

    /// Whether a scalar operand is laid out over a chunk: the loop of two arrays is vectorised, and
    /// that of an array and a scalar is not. No result depends on it.
    const LAYS_OUT: bool;

    /// Returns what is worked out once for a right operand that meets many left ones, as the
    /// reciprocal of a divisor. No result depends on it.
    #[inline(always)]
    fn hint(_right: i128) -> u64 {
        0
    }

    /// Returns the result. Any `hint` will do, that of the right operand is faster.
    fn apply(kind: Kind, left: i128, right: i128, hint: u64) -> i128
        ensures { result ≡ gives (kind_of kind) left right };
}

/// `np.add`: the sum, a disjunction of Booleans.
pub struct Add;

impl Operation for Add {
    ghost gives = { binary_result (operators.Operator syntax.Add) };

    const IS_COMPARISON: bool = false;

    const LAYS_OUT: bool = false;

    #[inline(always)]
    fn apply(kind: Kind, left: i128, right: i128, _hint: u64) -> i128 {
        add(kind, left, right)
    }
}

/// `np.subtract`: the difference.
pub struct Subtract;

impl Operation for Subtract {
    ghost gives = { binary_result (operators.Operator syntax.Subtract) };

    const IS_COMPARISON: bool = false;

    const LAYS_OUT: bool = false;

    #[inline(always)]
    fn apply(kind: Kind, left: i128, right: i128, _hint: u64) -> i128 {
        subtract(kind, left, right)
    }
}

/// `np.multiply`: the product, a conjunction of Booleans.
pub struct Multiply;

impl Operation for Multiply {
    ghost gives = { binary_result (operators.Operator syntax.Multiply) };

    const IS_COMPARISON: bool = false;

    const LAYS_OUT: bool = false;

    #[inline(always)]
    fn apply(kind: Kind, left: i128, right: i128, _hint: u64) -> i128 {
        multiply(kind, left, right)
    }
}

/// `np.floor_divide`: the quotient rounded down; 0 for the divisor 0.
pub struct FloorDivide;

impl Operation for FloorDivide {
    ghost gives = { binary_result (operators.Operator syntax.FloorDivide) };

    const IS_COMPARISON: bool = false;

    const LAYS_OUT: bool = false;

    #[inline(always)]
    fn hint(right: i128) -> u64 {
        reciprocal_of(right)
    }

    #[inline(always)]
    fn apply(kind: Kind, left: i128, right: i128, hint: u64) -> i128 {
        floor_divide(kind, left, right, hint)
    }
}

/// `np.remainder`: what the quotient rounded down leaves; 0 for the divisor 0.
pub struct Remainder;

impl Operation for Remainder {
    ghost gives = { binary_result (operators.Operator syntax.Remainder) };

    const IS_COMPARISON: bool = false;

    const LAYS_OUT: bool = false;

    #[inline(always)]
    fn hint(right: i128) -> u64 {
        reciprocal_of(right)
    }

    #[inline(always)]
    fn apply(kind: Kind, left: i128, right: i128, hint: u64) -> i128 {
        remainder(kind, left, right, hint)
    }
}

/// `np.power`: the left number raised to the right one.
pub struct Power;

impl Operation for Power {
    ghost gives = { binary_result (operators.Operator syntax.Power) };

    const IS_COMPARISON: bool = false;

    const LAYS_OUT: bool = false;

    #[inline(always)]
    fn apply(kind: Kind, left: i128, right: i128, _hint: u64) -> i128 {
        power(kind, left, right)
    }
}

/// `np.left_shift`: the left number, shifted up by the right one.
pub struct LeftShift;

impl Operation for LeftShift {
    ghost gives = { binary_result (operators.Operator syntax.LeftShift) };

    const IS_COMPARISON: bool = false;

    const LAYS_OUT: bool = false;

    #[inline(always)]
    fn apply(kind: Kind, left: i128, right: i128, _hint: u64) -> i128 {
        left_shift(kind, left, right)
    }
}

/// `np.right_shift`: the left number, shifted down by the right one.
pub struct RightShift;

impl Operation for RightShift {
    ghost gives = { binary_result (operators.Operator syntax.RightShift) };

    const IS_COMPARISON: bool = false;

    const LAYS_OUT: bool = false;

    #[inline(always)]
    fn apply(kind: Kind, left: i128, right: i128, _hint: u64) -> i128 {
        right_shift(kind, left, right)
    }
}

/// `np.bitwise_and`: the bits that both have.
pub struct BitwiseAnd;

impl Operation for BitwiseAnd {
    ghost gives = { binary_result (operators.Operator syntax.BitwiseAnd) };

    const IS_COMPARISON: bool = false;

    const LAYS_OUT: bool = false;

    #[inline(always)]
    fn apply(kind: Kind, left: i128, right: i128, _hint: u64) -> i128 {
        wrap(kind, left & right)
    }
}

/// `np.bitwise_xor`: the bits that exactly one has.
pub struct BitwiseXor;

impl Operation for BitwiseXor {
    ghost gives = { binary_result (operators.Operator syntax.BitwiseXor) };

    const IS_COMPARISON: bool = false;

    const LAYS_OUT: bool = false;

    #[inline(always)]
    fn apply(kind: Kind, left: i128, right: i128, _hint: u64) -> i128 {
        wrap(kind, left ^ right)
    }
}

/// `np.bitwise_or`: the bits that any has.
pub struct BitwiseOr;

impl Operation for BitwiseOr {
    ghost gives = { binary_result (operators.Operator syntax.BitwiseOr) };

    const IS_COMPARISON: bool = false;

    const LAYS_OUT: bool = false;

    #[inline(always)]
    fn apply(kind: Kind, left: i128, right: i128, _hint: u64) -> i128 {
        wrap(kind, left | right)
    }
}

/// `np.less`: whether the left one is less.
pub struct Less;

impl Operation for Less {
    ghost gives = { binary_result (operators.Operator syntax.Less) };

    const IS_COMPARISON: bool = true;

    const LAYS_OUT: bool = true;

    #[inline(always)]
    fn apply(kind: Kind, left: i128, right: i128, _hint: u64) -> i128 {
        wrap(kind, i128::from(left < right))
    }
}

/// `np.less_equal`: whether the left one is not greater.
pub struct LessEqual;

impl Operation for LessEqual {
    ghost gives = { binary_result (operators.Operator syntax.LessEqual) };

    const IS_COMPARISON: bool = true;

    const LAYS_OUT: bool = true;

    #[inline(always)]
    fn apply(kind: Kind, left: i128, right: i128, _hint: u64) -> i128 {
        wrap(kind, i128::from(left <= right))
    }
}

/// `np.greater`: whether the left one is greater.
pub struct Greater;

impl Operation for Greater {
    ghost gives = { binary_result (operators.Operator syntax.Greater) };

    const IS_COMPARISON: bool = true;

    const LAYS_OUT: bool = true;

    #[inline(always)]
    fn apply(kind: Kind, left: i128, right: i128, _hint: u64) -> i128 {
        wrap(kind, i128::from(left > right))
    }
}

/// `np.greater_equal`: whether the left one is not less.
pub struct GreaterEqual;

impl Operation for GreaterEqual {
    ghost gives = { binary_result (operators.Operator syntax.GreaterEqual) };

    const IS_COMPARISON: bool = true;

    const LAYS_OUT: bool = true;

    #[inline(always)]
    fn apply(kind: Kind, left: i128, right: i128, _hint: u64) -> i128 {
        wrap(kind, i128::from(left >= right))
    }
}

/// `np.equal`: whether both are equal.
pub struct Equal;

impl Operation for Equal {
    ghost gives = { binary_result (operators.Operator syntax.Equal) };

    const IS_COMPARISON: bool = true;

    const LAYS_OUT: bool = true;

    #[inline(always)]
    fn apply(kind: Kind, left: i128, right: i128, _hint: u64) -> i128 {
        wrap(kind, i128::from(left == right))
    }
}

/// `np.not_equal`: whether they differ.
pub struct NotEqual;

impl Operation for NotEqual {
    ghost gives = { binary_result (operators.Operator syntax.NotEqual) };

    const IS_COMPARISON: bool = true;

    const LAYS_OUT: bool = true;

    #[inline(always)]
    fn apply(kind: Kind, left: i128, right: i128, _hint: u64) -> i128 {
        wrap(kind, i128::from(left != right))
    }
}

/// `np.minimum`: the lesser of both.
pub struct Minimum;

impl Operation for Minimum {
    ghost gives = { binary_result operators.Minimum };

    const IS_COMPARISON: bool = false;

    const LAYS_OUT: bool = true;

    #[inline(always)]
    fn apply(kind: Kind, left: i128, right: i128, _hint: u64) -> i128 {
        wrap(kind, if left <= right { left } else { right })
    }
}

/// `np.maximum`: the greater of both.
pub struct Maximum;

impl Operation for Maximum {
    ghost gives = { binary_result operators.Maximum };

    const IS_COMPARISON: bool = false;

    const LAYS_OUT: bool = true;

    #[inline(always)]
    fn apply(kind: Kind, left: i128, right: i128, _hint: u64) -> i128 {
        wrap(kind, if left <= right { right } else { left })
    }
}

/// `np.negative`: the number with the other sign.
pub struct Negative;

impl Operation for Negative {
    ghost gives = { λ k x y. single_number (operators.Of syntax.Negative) k x };

    const IS_COMPARISON: bool = false;

    const LAYS_OUT: bool = false;

    #[inline(always)]
    fn apply(kind: Kind, left: i128, _right: i128, _hint: u64) -> i128 {
        apply_single(kind, Single::Of(UnaryOp::Negative), left)
    }
}

/// `np.invert`: the number with its bits inverted; the negation of a Boolean.
pub struct Invert;

impl Operation for Invert {
    ghost gives = { λ k x y. single_number (operators.Of syntax.Invert) k x };

    const IS_COMPARISON: bool = false;

    const LAYS_OUT: bool = false;

    #[inline(always)]
    fn apply(kind: Kind, left: i128, _right: i128, _hint: u64) -> i128 {
        match kind {
            Kind::Bool => i128::from(is_zero(left)),
            _ => apply_single(kind, Single::Of(UnaryOp::Invert), left),
        }
    }
}

/// `np.absolute`: the absolute value.
pub struct Absolute;

impl Operation for Absolute {
    ghost gives = { λ k x y. single_number operators.Absolute k x };

    const IS_COMPARISON: bool = false;

    const LAYS_OUT: bool = false;

    #[inline(always)]
    fn apply(kind: Kind, left: i128, _right: i128, _hint: u64) -> i128 {
        apply_single(kind, Single::Absolute, left)
    }
}
