//! `arithmetic`: Python's operators on integers, within the program's bounds.

ghost use Rattle.std.specs.Prelude.{◌≢◌, ◌^◌, ◌*ℤ◌, ℤ, pos, FitsSigned};
ghost use Rattle.std.specs.Int.{w128};
ghost use Rattle.std.specs.Option.{SomeIff};
ghost use Rattle.nd_model.specs.Making.Operand as operand;
ghost use Rattle.nd_model.specs.Making.Operators as operators;
ghost use Rattle.nd_model.specs.Grammar.Syntax as syntax;
ghost use Rattle.nd_syntax.specs.Trees.Syntax.{binary_op};
ghost use Rattle.nd_operation.specs.Operators.Contents.{number_made};
ghost use Rattle.nd_operation.specs.Refusals.Ends.{Says};

use crate::refusals::{StmtError, StmtFault, UfuncFault};
use nd_syntax::trees::BinaryOp;
use nd_types::Num;
use nd_ufunc::scalar::{exact_power, is_below, is_negative, is_zero};

/// A Python integer, within its bounds. `None` stands for a number of more than 128 bits, which
/// exceeds them.
pub(crate) fn python_int(exact: Option<i128>) -> Result<Num, StmtFault>
    ensures { (z : ℤ) → SomeIff exact (FitsSigned w128 z) z
        → Says number_made result (operand.python_int z) }
{
    match exact {
        Some(number) => {
            if number < i128::from(i64::MIN) || number > i128::from(u64::MAX) {
                return Err(StmtFault::Stmt(StmtError::IntTooBig));
            }
            Ok(Num::Int(number))
        }
        None => Err(StmtFault::Stmt(StmtError::IntTooBig)),
    }
}

/// The quotient, rounded down. The divisor is not 0.
fn floor_quotient(number: i128, divisor: i128) -> Result<Num, StmtFault>
    requires { divisor ≢ pos 0 }
    ensures { Says number_made result
        (operand.python_int (operators.floor_quotient number divisor)) }
{
    if number == i128::MIN && divisor == -1 {
        return Err(StmtFault::Stmt(StmtError::IntTooBig));
    }
    let quotient = number.div_euclid(divisor);
    if is_below(number, divisor) {
        return python_int(quotient.checked_sub(1));
    }
    python_int(Some(quotient))
}

/// The remainder, which has the sign of the divisor. The divisor is not 0.
fn floor_remainder(number: i128, divisor: i128) -> Result<Num, StmtFault>
    requires { divisor ≢ pos 0 }
    ensures { Says number_made result
        (operand.python_int (operators.floor_remainder number divisor)) }
{
    if divisor == -1 {
        return python_int(Some(0));
    }
    let rest = number.rem_euclid(divisor);
    if is_below(number, divisor) {
        return python_int(rest.checked_add(divisor));
    }
    python_int(Some(rest))
}

/// The number, shifted up by `count` bits.
fn left_shift(number: i128, count: u128) -> Result<Num, StmtFault>
    ensures { Says number_made result (operand.python_int (number *ℤ pos (2 ^ count))) }
{
    if number == 0 {
        return python_int(Some(0));
    }
    if count > 126 {
        return Err(StmtFault::Stmt(StmtError::IntTooBig));
    }
    python_int(number.checked_mul(2i128.pow(count as u32)))
}

/// The number, shifted down by `count` bits and rounded down.
fn right_shift(number: i128, count: u128) -> Result<Num, StmtFault>
    ensures { Says number_made result
        (operand.python_int (operators.floor_quotient number (pos (2 ^ count)))) }
{
    if count <= 126 {
        return floor_quotient(number, 2i128.pow(count as u32));
    }
    if is_negative(number) {
        return python_int(Some(-1));
    }
    python_int(Some(0))
}

/// Returns the result of an operator of two Python integers.
pub(crate) fn arithmetic(op: BinaryOp, left: i128, right: i128) -> Result<Num, StmtFault>
    ensures { Says number_made result (operators.arithmetic (binary_op op) left right) }
{
    match op {
        BinaryOp::Add => python_int(left.checked_add(right)),
        BinaryOp::Subtract => python_int(left.checked_sub(right)),
        BinaryOp::Multiply => python_int(left.checked_mul(right)),
        BinaryOp::FloorDivide => {
            if is_zero(right) {
                return Err(StmtFault::Stmt(StmtError::ZeroDivide));
            }
            floor_quotient(left, right)
        }
        BinaryOp::Divide => Err(StmtFault::Ufunc(UfuncFault::FloatResult)),
        BinaryOp::Remainder => {
            if is_zero(right) {
                return Err(StmtFault::Stmt(StmtError::ZeroDivide));
            }
            floor_remainder(left, right)
        }
        BinaryOp::Power => {
            if is_negative(right) {
                return Err(StmtFault::Ufunc(UfuncFault::FloatResult));
            }
            python_int(exact_power(left, right.unsigned_abs()))
        }
        BinaryOp::LeftShift => {
            if is_negative(right) {
                return Err(StmtFault::Stmt(StmtError::NegativeShift));
            }
            left_shift(left, right.unsigned_abs())
        }
        BinaryOp::RightShift => {
            if is_negative(right) {
                return Err(StmtFault::Stmt(StmtError::NegativeShift));
            }
            right_shift(left, right.unsigned_abs())
        }
        BinaryOp::BitwiseAnd => python_int(Some(left & right)),
        BinaryOp::BitwiseXor => python_int(Some(left ^ right)),
        BinaryOp::BitwiseOr => python_int(Some(left | right)),
        BinaryOp::Less => Ok(Num::Bool(left < right)),
        BinaryOp::LessEqual => Ok(Num::Bool(left <= right)),
        BinaryOp::Greater => Ok(Num::Bool(left > right)),
        BinaryOp::GreaterEqual => Ok(Num::Bool(left >= right)),
        BinaryOp::Equal => Ok(Num::Bool(left == right)),
        BinaryOp::NotEqual => Ok(Num::Bool(left != right)),
    }
}
