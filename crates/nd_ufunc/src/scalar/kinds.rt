//! `result_kind`: the kind of a result, by NEP 50.

ghost use Rattle.std.specs.Prelude.{◌≡◌};
ghost use Rattle.nd_model.specs.Making.Operators as operators;
ghost use Rattle.nd_types.specs.Kinds.{kind_of};
ghost use Rattle.nd_types.specs.Types.{kind_given};
ghost use Rattle.nd_ufunc.specs.Scalar.Faults.{Says};
ghost use Rattle.nd_ufunc.specs.Scalar.Numbers.{num_of};
ghost use Rattle.nd_ufunc.specs.Scalar.Ufuncs.{sort_from, ufunc_of};

use crate::scalar::fault::UfuncFault;
use crate::scalar::ufunc::BinaryUfunc;
use nd_syntax::trees::BinaryOp;
use nd_types::{FloatResult, Kind, Num, fits, promote};

/// The part of an operand in promotion.
#[derive(Clone, Copy)]
pub enum Sort {
    /// A Python integer, which takes the kind beside it.
    PythonInt(i128),
    /// Numbers of a kind.
    OfKind(Kind),
}

/// Returns the part of a number in promotion.
pub fn sort_of(number: Num) -> Sort
    ensures { sort_from result ≡ operators.sort_of (num_of number) }
{
    match number {
        Num::Int(int) => Sort::PythonInt(int),
        Num::Bool(_) => Sort::OfKind(Kind::Bool),
        Num::Scalar(kind, _) => Sort::OfKind(kind),
    }
}

/// The kind of a result of two Booleans.
fn boolean_kind(ufunc: BinaryUfunc) -> Result<Kind, UfuncFault>
    ensures { Says kind_of result
        (operators.boolean_kind (operators.on_booleans (ufunc_of ufunc))) }
{
    match ufunc {
        BinaryUfunc::Operator(BinaryOp::Subtract) => Err(UfuncFault::BoolOp),
        BinaryUfunc::Operator(
            BinaryOp::FloorDivide
            | BinaryOp::Remainder
            | BinaryOp::Power
            | BinaryOp::LeftShift
            | BinaryOp::RightShift,
        ) => Ok(Kind::I8),
        _ => Ok(Kind::Bool),
    }
}

/// The kind of a result of two kinds that were promoted to one.
fn promoted_kind(
    ufunc: BinaryUfunc,
    promoted: Result<Kind, FloatResult>,
) -> Result<Kind, UfuncFault>
    ensures { Says kind_of result
        (operators.promoted_kind (ufunc_of ufunc) (kind_given promoted)) }
{
    match promoted {
        Err(_) => Err(UfuncFault::FloatResult),
        Ok(Kind::Bool) => boolean_kind(ufunc),
        Ok(kind) => Ok(kind),
    }
}

/// The kind that a Python integer takes beside another one, in which it has to fit.
fn kind_beside(kind: Kind, int: i128) -> Result<Kind, UfuncFault>
    ensures { Says kind_of result (operators.kind_beside (kind_of kind) int) }
{
    let kind = match kind {
        Kind::Bool => Kind::I64,
        _ => kind,
    };
    if fits(kind, int) {
        Ok(kind)
    } else {
        Err(UfuncFault::IntOutOfRange(int))
    }
}

/// The kind of a result that is no comparison.
fn common_kind(ufunc: BinaryUfunc, left: Sort, right: Sort) -> Result<Kind, UfuncFault>
    ensures { Says kind_of result
        (operators.common_kind (ufunc_of ufunc) (sort_from left) (sort_from right)) }
{
    match (left, right) {
        (Sort::OfKind(a), Sort::OfKind(b)) => promoted_kind(ufunc, promote(a, b)),
        (Sort::OfKind(kind), Sort::PythonInt(int)) => kind_beside(kind, int),
        (Sort::PythonInt(int), Sort::OfKind(kind)) => kind_beside(kind, int),
        (Sort::PythonInt(_), Sort::PythonInt(_)) => Ok(Kind::I64),
    }
}

/// Returns the kind of the result by NEP 50: comparisons give `bool`, `uint8` and the Python
/// integer 300 are refused (`IntOutOfRange`).
pub fn result_kind(ufunc: BinaryUfunc, left: Sort, right: Sort) -> Result<Kind, UfuncFault>
    ensures { Says kind_of result
        (operators.result_kind (ufunc_of ufunc) (sort_from left) (sort_from right)) }
{
    match ufunc {
        BinaryUfunc::Operator(
            BinaryOp::Less
            | BinaryOp::LessEqual
            | BinaryOp::Greater
            | BinaryOp::GreaterEqual
            | BinaryOp::Equal
            | BinaryOp::NotEqual,
        ) => Ok(Kind::Bool),
        BinaryUfunc::Operator(BinaryOp::Divide) => Err(UfuncFault::FloatResult),
        _ => common_kind(ufunc, left, right),
    }
}
