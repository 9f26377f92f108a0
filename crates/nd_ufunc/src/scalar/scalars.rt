//! `scalar1` and `scalar2`: universal functions of NumPy scalars, which take no memory.

ghost use Rattle.std.specs.Prelude.{◌≡◌};
ghost use Rattle.nd_model.specs.Making.Operand as operand;
ghost use Rattle.nd_model.specs.Making.Operators as operators;
ghost use Rattle.nd_types.specs.Kinds.{kind_of};
ghost use Rattle.nd_ufunc.specs.Scalar.Faults.{Says};
ghost use Rattle.nd_ufunc.specs.Scalar.Numbers.{num_of, number_made};
ghost use Rattle.nd_ufunc.specs.Scalar.Ufuncs.{single_of, ufunc_of};

use crate::scalar::fault::UfuncFault;
use crate::scalar::integers::{is_negative, is_zero};
use crate::scalar::kinds::{result_kind, sort_of};
use crate::scalar::table::{apply_binary, apply_single};
use crate::scalar::ufunc::{BinaryUfunc, Single};
use nd_syntax::trees::{BinaryOp, UnaryOp};
use nd_types::{Kind, Num, wrap};

/// Returns the integer that a number counts as.
pub fn whole_number(number: Num) -> i128
    ensures { result ≡ operand.number_of (num_of number) }
{
    match number {
        Num::Int(int) => int,
        Num::Bool(truth) => i128::from(truth),
        Num::Scalar(_, int) => int,
    }
}

/// Returns whether the function is the power, and the exponent negative.
#[inline]
pub fn is_power_below(ufunc: BinaryUfunc, right: i128) -> bool
    ensures { result ≡ operators.is_power_below (ufunc_of ufunc) right }
{
    match ufunc {
        BinaryUfunc::Operator(BinaryOp::Power) => is_negative(right),
        _ => false,
    }
}

/// Returns the result for a NumPy scalar, in its kind. The negative of a Boolean is refused
/// (`BoolOp`).
///
/// The negative of the `int8` -128 is -128 again.
pub fn scalar1(op: Single, kind: Kind, number: i128) -> Result<Num, UfuncFault>
    ensures { Says number_made result
        (operators.of_scalar (single_of op) (kind_of kind) number) }
{
    match (op, kind) {
        (Single::Of(UnaryOp::Negative), Kind::Bool) => Err(UfuncFault::BoolOp),
        (Single::Of(UnaryOp::Invert), Kind::Bool) => {
            Ok(Num::Scalar(kind, wrap(kind, i128::from(is_zero(number)))))
        }
        _ => Ok(Num::Scalar(kind, apply_single(kind, op, number))),
    }
}

/// Returns the result for two numbers of which one is a NumPy scalar, in the kind that NEP 50
/// gives. A Python integer takes the kind beside it, and a Python Boolean counts as `bool`.
///
/// Refused in this order: a result that is a float, or a function that Booleans do not have; an
/// integer that does not fit; a negative exponent.
///
/// The `uint8` 200 and the Python integer 100 have the sum 44, an `uint8`.
pub fn scalar2(ufunc: BinaryUfunc, left: Num, right: Num) -> Result<Num, UfuncFault>
    ensures { Says number_made result
        (operators.of_scalars (ufunc_of ufunc) (num_of left) (num_of right)) }
{
    let kind = result_kind(ufunc, sort_of(left), sort_of(right))?;
    let right = whole_number(right);
    if is_power_below(ufunc, right) {
        return Err(UfuncFault::NegativePower);
    }
    Ok(Num::Scalar(kind, apply_binary(kind, ufunc, whole_number(left), right)))
}
