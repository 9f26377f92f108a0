//! `make_of_two`: operators, and NumPy's functions, of two operands.

ghost use Rattle.std.specs.Prelude.{◌≡◌, IfOk};
ghost use Rattle.nd_model.specs.Making.Operand as operand;
ghost use Rattle.nd_model.specs.Making.Elementwise as elementwise;
ghost use Rattle.nd_model.specs.Making.Operators as operators;
ghost use Rattle.nd_syntax.specs.Trees.Syntax.{binary_op};
ghost use Rattle.nd_ufunc.specs.Scalar.Ufuncs.{single_of, ufunc_of};
ghost use Rattle.nd_operation.specs.Operators.Contents.{number_made, num_of, operand_of};
ghost use Rattle.nd_operation.specs.Refusals.Ends.{Says};
ghost use Rattle.nd_operation.specs.Operators.New.{MakesNew, NewLies, StandsFor};
ghost use Rattle.nd_operation.specs.Operators.OfTwo.{made_of_two, ufunc_of_two};

use crate::operators::elementwise::{map_one, map_two};
use crate::operators::operand::{New, Operand};
use crate::operators::python::{arithmetic, python_int};
use crate::refusals::{StmtError, StmtFault, Stop};
use nd_syntax::trees::{BinaryOp, UnaryOp};
use nd_types::{Kind, Num, fits};
use nd_ufunc::scalar::{BinaryUfunc, Single, is_negative, scalar1, scalar2};
use std::alloc::Global;

/// An operator, or a function of NumPy, of two operands.
#[derive(Clone, Copy)]
pub enum BinaryCall {
    Operator(BinaryOp),
    Call(BinaryUfunc),
}

/// The result of a function of one Python integer.
fn python_single(op: Single, number: i128) -> Result<Num, StmtFault>
    ensures { Says number_made result
        (operand.python_int (operators.exact_single (single_of op) number)) }
{
    match op {
        Single::Of(UnaryOp::Negative) => python_int(number.checked_neg()),
        Single::Of(UnaryOp::Invert) => python_int((-1i128).checked_sub(number)),
        Single::Absolute => {
            if is_negative(number) {
                return python_int(number.checked_neg());
            }
            python_int(Some(number))
        }
    }
}

/// The result of a function of one number.
fn single_number(op: Single, number: Num) -> Result<Num, StmtFault>
    ensures { Says number_made result (operators.of_number (single_of op) (num_of number)) }
{
    match number {
        Num::Int(int) => python_single(op, int),
        Num::Bool(truth) => python_single(op, i128::from(truth)),
        Num::Scalar(kind, int) => match scalar1(op, kind, int) {
            Ok(number) => Ok(number),
            Err(fault) => Err(StmtFault::Ufunc(fault)),
        },
    }
}

/// Returns the result of an operator, or of Python's `abs`.
pub(crate) fn make_single(alloc: Global, op: Single, operand: &Operand<'_>) -> Result<New, Stop>
    ensures { MakesNew result (elementwise.single (single_of op) (operand_of operand.now)) }
{
    match operand {
        Operand::Number(number) => Ok(New::Number(single_number(op, *number)?)),
        Operand::Elements(_) => map_one(alloc, op, operand),
    }
}

/// A number as NumPy's functions take it: a Python integer is an `int64`, if it fits.
fn numpy_number(number: Num) -> Result<Num, StmtFault>
    ensures { Says num_of result (operators.numpy_number (num_of number)) }
{
    match number {
        Num::Int(int) => {
            if !fits(Kind::I64, int) {
                return Err(StmtFault::Stmt(StmtError::NeedsType));
            }
            Ok(Num::Scalar(Kind::I64, int))
        }
        Num::Bool(truth) => Ok(Num::Scalar(Kind::Bool, i128::from(truth))),
        Num::Scalar(_, _) => Ok(number),
    }
}

/// Returns the result of NumPy's function of one operand.
pub(crate) fn call_single(alloc: Global, op: Single, operand: &Operand<'_>) -> Result<New, Stop>
    ensures { MakesNew result (elementwise.call_single (single_of op) (operand_of operand.now)) }
{
    match operand {
        Operand::Number(number) => {
            let number = numpy_number(*number)?;
            Ok(New::Number(single_number(op, number)?))
        }
        Operand::Elements(_) => map_one(alloc, op, operand),
    }
}

/// The result of an operator of two Python Booleans.
fn truths(op: BinaryOp, left: bool, right: bool) -> Result<Num, StmtFault>
    ensures { Says number_made result (operators.of_truths (binary_op op) left right) }
{
    match op {
        BinaryOp::BitwiseAnd => Ok(Num::Bool(left && right)),
        BinaryOp::BitwiseXor => Ok(Num::Bool(if left { !right } else { right })),
        BinaryOp::BitwiseOr => Ok(Num::Bool(left || right)),
        _ => arithmetic(op, i128::from(left), i128::from(right)),
    }
}

/// The result of a function of two numbers, of which one is a NumPy scalar.
fn scalars(ufunc: BinaryUfunc, left: Num, right: Num) -> Result<Num, StmtFault>
    ensures { Says number_made result
        (operators.of_scalars (ufunc_of ufunc) (num_of left) (num_of right)) }
{
    match scalar2(ufunc, left, right) {
        Ok(number) => Ok(number),
        Err(fault) => Err(StmtFault::Ufunc(fault)),
    }
}

/// The result of an operator of two numbers: Python's arithmetic, or NumPy's where one is a NumPy
/// scalar.
fn numbers(op: BinaryOp, left: Num, right: Num) -> Result<Num, StmtFault>
    ensures { Says number_made result
        (operators.of_numbers (binary_op op) (num_of left) (num_of right)) }
{
    match (left, right) {
        (Num::Int(a), Num::Int(b)) => arithmetic(op, a, b),
        (Num::Int(a), Num::Bool(b)) => arithmetic(op, a, i128::from(b)),
        (Num::Bool(a), Num::Int(b)) => arithmetic(op, i128::from(a), b),
        (Num::Bool(a), Num::Bool(b)) => truths(op, a, b),
        (Num::Scalar(_, _), _) | (_, Num::Scalar(_, _)) => {
            scalars(BinaryUfunc::Operator(op), left, right)
        }
    }
}

/// Whether the number is a NumPy scalar.
fn is_scalar(number: Num) -> bool
    ensures { result ≡ operators.is_scalar (num_of number) }
{
    match number {
        Num::Scalar(_, _) => true,
        Num::Int(_) | Num::Bool(_) => false,
    }
}

/// The result of NumPy's function of two numbers.
fn call_numbers(ufunc: BinaryUfunc, left: Num, right: Num) -> Result<Num, StmtFault>
    ensures { Says number_made result (elementwise.call_binary (ufunc_of ufunc)
        (operand.Plain (num_of left)) (operand.Plain (num_of right))) }
{
    if is_scalar(left) || is_scalar(right) {
        return scalars(ufunc, left, right);
    }
    let left = numpy_number(left)?;
    let right = numpy_number(right)?;
    scalars(ufunc, left, right)
}

/// The result of an operator, or a function of NumPy, of two numbers.
fn two_numbers(call: BinaryCall, left: Num, right: Num) -> Result<Num, StmtFault>
    ensures { Says number_made result
        (made_of_two call (operand.Plain (num_of left)) (operand.Plain (num_of right))) }
{
    match call {
        BinaryCall::Operator(op) => numbers(op, left, right),
        BinaryCall::Call(ufunc) => call_numbers(ufunc, left, right),
    }
}

/// The universal function that arrays are given to.
fn ufunc_of(call: BinaryCall) -> BinaryUfunc
    ensures { ufunc_of result ≡ ufunc_of_two call }
{
    match call {
        BinaryCall::Operator(op) => BinaryUfunc::Operator(op),
        BinaryCall::Call(ufunc) => ufunc,
    }
}

/// Returns the result of an operator, or a function of NumPy, of two operands.
///
/// `2 + 1` is Python's integer 3, `np.int8(2) + 1` a NumPy scalar, and an array plus 1 a new array
/// in a block of its own.
pub fn make_of_two(
    alloc: Global,
    call: BinaryCall,
    left: &Operand<'_>,
    right: &Operand<'_>,
) -> Result<New, Stop>
    ensures new { MakesNew result
        (made_of_two call (operand_of left.now) (operand_of right.now)) }
    ensures operand { StandsFor result
        (made_of_two call (operand_of left.now) (operand_of right.now)) }
    ensures lies { IfOk result NewLies }
{
    match (left, right) {
        (Operand::Number(a), Operand::Number(b)) => Ok(New::Number(two_numbers(call, *a, *b)?)),
        (Operand::Elements(_), _) | (_, Operand::Elements(_)) => {
            map_two(alloc, ufunc_of(call), left, right)
        }
    }
}
