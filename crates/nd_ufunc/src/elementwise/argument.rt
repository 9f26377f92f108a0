//! `Argument`: an operand of a universal function, and its part in NumPy's promotion of kinds.
ghost use Rattle.std.specs.Prelude.{◌≡◌};
ghost use Rattle.std.specs.Option.{option_map};
ghost use Rattle.nd_model.specs.Making.Elementwise as elementwise;
ghost use Rattle.nd_model.specs.Making.Operand as operand;
ghost use Rattle.nd_types.specs.Kinds.{kind_of};
ghost use Rattle.nd_types.specs.Types.{type_of};
ghost use Rattle.nd_ufunc.specs.Scalar.Faults.{Says};
ghost use Rattle.nd_ufunc.specs.Scalar.Ufuncs.{single_of, sort_from, ufunc_of};
ghost use Rattle.nd_ufunc.specs.Elementwise.Arguments.{argument_of};

use crate::scalar::{BinaryUfunc, Single, Sort, UfuncFault, result_kind, sort_of};
use nd_syntax::trees::UnaryOp;
use nd_types::{ElemType, Kind, Num};
use nd_view::View;

/// An operand of a universal function: a number, or the elements of a view in the bytes of its
/// block.
#[derive(Clone, Copy)]
pub enum Argument<'v> {
    /// A number, which is broadcast to any shape.
    Number(Num),
    /// A view, and the bytes of the block that it lies in.
    Elements(&'v View, &'v [u8]),
}

/// Returns how the elements of a dtype take part in promotion. Structures do not.
pub(crate) fn element_sort(elem: &ElemType) -> Option<Sort>
    ensures { option_map sort_from result ≡ elementwise.element_sort (type_of elem.now) }
{
    match elem {
        ElemType::One(elem) => Some(Sort::OfKind(elem.kind())),
        ElemType::Rec(_) => None,
    }
}

/// Returns how an operand takes part in promotion. Structures do not.
pub(crate) fn argument_sort(argument: Argument<'_>) -> Option<Sort>
    ensures { option_map sort_from result
        ≡ elementwise.operand_sort (argument_of argument.entry) }
{
    match argument {
        Argument::Number(number) => Some(sort_of(number)),
        Argument::Elements(view, _) => element_sort(view.elem()),
    }
}

/// Returns the shape of an operand, () for a number.
pub(crate) fn shape_of<'v>(argument: Argument<'v>) -> &'v [u64]
    ensures { result.now ≡ operand.shape_of (argument_of argument.entry) }
{
    match argument {
        Argument::Number(_) => &[],
        Argument::Elements(view, _) => view.shape(),
    }
}

/// Returns the kind of the results of a function of two operands. Structures are refused.
pub(crate) fn binary_kind(
    ufunc: BinaryUfunc,
    left: Option<Sort>,
    right: Option<Sort>,
) -> Result<Kind, UfuncFault>
    ensures { Says kind_of result (elementwise.binary_kind (ufunc_of ufunc)
        (option_map sort_from left) (option_map sort_from right)) }
{
    match (left, right) {
        (Some(left), Some(right)) => result_kind(ufunc, left, right),
        _ => Err(UfuncFault::NotNumbers),
    }
}

/// Returns the kind of the results of a function of one operand. Structures, Python integers and
/// the negative of a Boolean are refused.
pub(crate) fn single_kind(op: Single, sort: Option<Sort>) -> Result<Kind, UfuncFault>
    ensures { Says kind_of result
        (elementwise.single_kind (single_of op) (option_map sort_from sort)) }
{
    match (op, sort) {
        (Single::Of(UnaryOp::Negative), Some(Sort::OfKind(Kind::Bool))) => Err(UfuncFault::BoolOp),
        (_, Some(Sort::OfKind(kind))) => Ok(kind),
        _ => Err(UfuncFault::NotNumbers),
    }
}
