//! `apply_binary` and `apply_single`: the table of functions of two numbers and of one, each an exact
//! integer that is wrapped to a kind.
ghost use Rattle.std.specs.Prelude.{◌≡◌};
ghost use Rattle.nd_model.specs.Arrays.Element.{wrap};
ghost use Rattle.nd_model.specs.Making.Operators as operators;
ghost use Rattle.nd_syntax.specs.Trees.Syntax.{binary_op};
ghost use Rattle.nd_types.specs.Kinds.{kind_of};
ghost use Rattle.nd_ufunc.specs.Scalar.Ufuncs.{single_of, ufunc_of};

use crate::scalar::arithmetic::{add, multiply, negative, subtract};
use crate::scalar::division::{floor_divide, remainder};
use crate::scalar::integers::is_negative;
use crate::scalar::powers::power;
use crate::scalar::shifts::{left_shift, right_shift};
use crate::scalar::ufunc::{BinaryUfunc, Single};
use nd_syntax::trees::{BinaryOp, UnaryOp};
use nd_types::{Kind, wrap};

// The result of an operator.
fn apply_operator(kind: Kind, op: BinaryOp, left: i128, right: i128) -> i128
    ensures { result ≡ wrap (kind_of kind)
        (operators.exact (kind_of kind) (operators.Operator (binary_op op)) left right) }
{
    match op {
        BinaryOp::Add => add(kind, left, right),
        BinaryOp::Subtract => subtract(kind, left, right),
        BinaryOp::Multiply => multiply(kind, left, right),
        BinaryOp::FloorDivide => floor_divide(kind, left, right, 0),
        BinaryOp::Divide => wrap(kind, 0),
        BinaryOp::Remainder => remainder(kind, left, right, 0),
        BinaryOp::Power => power(kind, left, right),
        BinaryOp::LeftShift => left_shift(kind, left, right),
        BinaryOp::RightShift => right_shift(kind, left, right),
        BinaryOp::BitwiseAnd => wrap(kind, left & right),
        BinaryOp::BitwiseXor => wrap(kind, left ^ right),
        BinaryOp::BitwiseOr => wrap(kind, left | right),
        BinaryOp::Less => wrap(kind, i128::from(left < right)),
        BinaryOp::LessEqual => wrap(kind, i128::from(left <= right)),
        BinaryOp::Greater => wrap(kind, i128::from(left > right)),
        BinaryOp::GreaterEqual => wrap(kind, i128::from(left >= right)),
        BinaryOp::Equal => wrap(kind, i128::from(left == right)),
        BinaryOp::NotEqual => wrap(kind, i128::from(left != right)),
    }
}

/// Returns the result of a function of two numbers, wrapped to the kind.
pub(crate) fn apply_binary(kind: Kind, ufunc: BinaryUfunc, left: i128, right: i128) -> i128
    ensures { result ≡ wrap (kind_of kind)
        (operators.exact (kind_of kind) (ufunc_of ufunc) left right) }
{
    match ufunc {
        BinaryUfunc::Operator(op) => apply_operator(kind, op, left, right),
        BinaryUfunc::Minimum => wrap(kind, if left <= right { left } else { right }),
        BinaryUfunc::Maximum => wrap(kind, if left <= right { right } else { left }),
    }
}

/// Returns the exact result of a function of one number, wrapped to the kind.
#[inline(always)]
pub(crate) fn apply_single(kind: Kind, op: Single, number: i128) -> i128
    ensures { result ≡ wrap (kind_of kind) (operators.exact_single (single_of op) number) }
{
    match op {
        Single::Of(UnaryOp::Negative) => negative(kind, number),
        Single::Of(UnaryOp::Invert) => subtract(kind, -1, number),
        Single::Absolute => {
            if is_negative(number) {
                return negative(kind, number);
            }
            wrap(kind, number)
        }
    }
}
