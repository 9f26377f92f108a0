//! Numbers and elements, converted to a dtype (NumPy user guide, "Data types"): `np.array`,
//! `.astype`, `.copy` and `np.int8`.

ghost use Rattle.std.specs.Prelude.{◌≡◌, [], option_map, true, IfOk, Ok};
ghost use Rattle.nd_model.specs.Arrays.Content.{array_bytes, content_in_order};
ghost use Rattle.nd_model.specs.Making.Conversion as conversion;
ghost use Rattle.nd_model.specs.Making.Creation as creation;
ghost use Rattle.nd_model.specs.Making.Operand as operand;
ghost use Rattle.nd_model.specs.Making.Operand.{Plain};
ghost use Rattle.nd_model.specs.Arrays.Strides.{IsInLimits};
ghost use Rattle.nd_model.specs.Arrays.Tuple.{elements_of};
ghost use Rattle.nd_model.specs.Arrays.View.{One, item_size};
ghost use Rattle.nd_types.specs.Kinds.{kind_of};
ghost use Rattle.nd_types.specs.Types.{type_of};
ghost use Rattle.nd_syntax.specs.Trees.Calls.{dtype_of};
ghost use Rattle.nd_operation.specs.Operators.Contents.{contents_over, elements_operand, num_of, operand_of};
ghost use Rattle.nd_operation.specs.Refusals.Ends.{Makes, Says};
ghost use Rattle.nd_operation.specs.Operators.New.{MakesNew};
ghost use Rattle.nd_operation.specs.declared.refusals.fault.StmtFault.TheVariants.{Stmt, Ufunc};
ghost use Rattle.nd_operation.specs.declared.refusals.fault.StmtError.TheVariants.{NotAnArray};
ghost use Rattle.nd_ufunc.specs.declared.scalar.fault.UfuncFault.TheVariants.{NotNumbers};

use crate::operators::creation::{check_limits, copies};
use crate::operators::operand::{BorrowedArray, New, Operand};
use crate::refusals::{StmtError, StmtFault, Stop, UfuncFault};
use nd_block::RawBlock;
use nd_convert::conversion::{convert_numbers, copy_elements};
use nd_convert::creation::repeat;
use nd_syntax::dtypes::element_type;
use nd_syntax::trees::DType;
use nd_types::{Elem, ElemType, Kind, Num, fits, wrap};
use nd_view::View;
use std::alloc::{AllocError, Global};

// ---- refusals

/// Returns the refusal of a structure where a number is wanted.
pub fn not_numbers() -> StmtFault
    ensures { result ≡ Ufunc NotNumbers }
{
    StmtFault::Ufunc(UfuncFault::NotNumbers)
}

/// Returns the refusal of what is no array.
pub fn not_an_array() -> StmtFault
    ensures { result ≡ Stmt NotAnArray }
{
    StmtFault::Stmt(StmtError::NotAnArray)
}

// ---- numbers

/// Returns the kind of an array of a number.
pub fn array_kind(number: Num) -> Result<Kind, StmtFault>
    ensures { Says kind_of result (creation.array_kind (num_of number)) }
{
    match number {
        Num::Int(int) => {
            if !fits(Kind::I64, int) {
                return Err(StmtFault::Stmt(StmtError::NeedsType));
            }
            Ok(Kind::I64)
        }
        Num::Bool(_) => Ok(Kind::Bool),
        Num::Scalar(kind, _) => Ok(kind),
    }
}

/// Returns the integer that a number counts as: 1 for `True`.
pub fn whole_number(number: Num) -> i128
    ensures { result ≡ operand.number_of (num_of number) }
{
    match number {
        Num::Int(int) => int,
        Num::Bool(truth) => i128::from(truth),
        Num::Scalar(_, int) => int,
    }
}

/// Returns a Python integer that a kind does not take. A Boolean takes each.
pub(crate) fn misfit(kind: Kind, number: Num) -> Option<i128>
    ensures { result ≡ creation.misfit (kind_of kind) (num_of number) }
{
    match number {
        Num::Int(int) => {
            if kind == Kind::Bool || fits(kind, int) {
                return None;
            }
            Some(int)
        }
        Num::Bool(_) | Num::Scalar(_, _) => None,
    }
}

/// Refuses a Python integer that a kind does not take.
fn check_fit(kind: Kind, number: Num) -> Result<(), StmtFault>
    ensures { Says (λ u. u) result
        (creation.unless_misfit (creation.misfit (kind_of kind) (num_of number)) (Ok (tt {0}))) }
{
    match misfit(kind, number) {
        Some(int) => Err(StmtFault::Ufunc(UfuncFault::IntOutOfRange(int))),
        None => Ok(()),
    }
}

/// The dtype of an array of a number: the one that is written, or else the number's own.
fn element_for(alloc: Global, dtype: &Option<DType>, number: Num) -> Result<Elem, Stop>
    ensures { Makes (λ e. One e) result
        (creation.type_for (option_map dtype_of dtype.now) (Plain (num_of number))) }
{
    let Some(dtype) = dtype else {
        let kind = array_kind(number)?;
        return Ok(Elem::little(kind));
    };
    match element_type(alloc, dtype)? {
        ElemType::One(elem) => Ok(elem),
        ElemType::Rec(_) => Err(Stop::Refused(not_numbers())),
    }
}

/// Returns a new array of one number, of the dtype that is written or else the number's own.
pub(crate) fn number_array(
    alloc: Global,
    dtype: &Option<DType>,
    shape: &[u64],
    number: Num,
) -> Result<New, Stop>
    ensures { MakesNew result (creation.full_array (option_map dtype_of dtype.now) shape.now
        (Plain (num_of number))) }
{
    let elem = element_for(alloc, dtype, number)?;
    check_limits(elem.size(), shape)?;
    check_fit(elem.kind(), number)?;
    copies(alloc, elem, shape, wrap(elem.kind(), whole_number(number)))
}

// ---- elements

/// Whether elements convert to a dtype.
fn converts(from: &ElemType, to: &ElemType) -> bool
    ensures { result ≡ conversion.converts (type_of from.now) (type_of to.now) }
{
    match from {
        ElemType::One(_) => matches!(to, ElemType::One(_)),
        ElemType::Rec(_) => from.is_same(to),
    }
}

/// The dtype of an array of elements: the one that is written, or else their own.
fn type_for(
    alloc: Global,
    dtype: &Option<DType>,
    elements: &BorrowedArray<'_>,
) -> Result<ElemType, Stop>
    ensures { Makes type_of result (creation.type_for (option_map dtype_of dtype.now)
        (elements_operand elements.now)) }
{
    let own = elements.view.elem();
    let Some(dtype) = dtype else {
        return Ok(own.try_clone()?);
    };
    let elem = element_type(alloc, dtype)?;
    if !converts(own, &elem) {
        return Err(Stop::Refused(not_numbers()));
    }
    Ok(elem)
}

/// The block of a new array of elements in a dtype that they convert to.
fn converted_block(
    alloc: Global,
    elements: &BorrowedArray<'_>,
    elem: &ElemType,
) -> Result<RawBlock, AllocError>
    requires { conversion.converts elements.now.view.now.element (type_of elem.now) ≡ true }
    ensures { IfOk result (λ b. b ≡ array_bytes (type_of elem.now) elements.now.view.now.shape
        (creation.converted_at (type_of elem.now)
        (elements_operand elements.now))) }
{
    elements.soundness();
    match (elem, elements.view.elem()) {
        (ElemType::One(to), ElemType::One(from)) => {
            convert_numbers(alloc, elements.view, *from, elements.block, *to)
        }
        (ElemType::One(_), ElemType::Rec(_)) => copy_elements(alloc, elements.view, elements.block),
        (ElemType::Rec(_), _) => copy_elements(alloc, elements.view, elements.block),
    }
}

/// A new array of elements in a dtype that they convert to.
fn convert_elements(
    alloc: Global,
    elements: &BorrowedArray<'_>,
    elem: ElemType,
) -> Result<New, Stop>
    requires { conversion.converts elements.now.view.now.element (type_of elem) ≡ true }
    ensures { MakesNew result (Ok (creation.converted_array (type_of elem)
        (elements_operand elements.now))) }
{
    let shape = elements.view.shape();
    check_limits(elem.size(), shape)?;
    let block = converted_block(alloc, elements, &elem)?;
    let view = View::contiguous(alloc, elem, shape)?;
    Ok(New::Array(view, block))
}

/// A new array of copies of one structure.
fn structure_copies(
    alloc: Global,
    elem: ElemType,
    shape: &[u64],
    elements: &BorrowedArray<'_>,
) -> Result<New, Stop>
    requires type_is { type_of elem ≡ elements.now.view.now.element }
    requires limits { IsInLimits (item_size (type_of elem)) shape.now }
    requires alone { elements.now.view.now.shape ≡ [] }
    ensures { MakesNew result (Ok (creation.uniform (type_of elem) shape.now
        (content_in_order [] (contents_over elements.now.view.now elements.now.block.now) []))) }
{
    elements.soundness();
    let element = copy_elements(alloc, elements.view, elements.block)?;
    let view = View::contiguous(alloc, elem, shape)?;
    let block = repeat(alloc, &view, element.as_slice())?;
    Ok(New::Array(view, block))
}

/// Returns a new array of the one element of an array of shape (), in the dtype that is written or
/// else its own.
pub(crate) fn element_array(
    alloc: Global,
    dtype: &Option<DType>,
    shape: &[u64],
    elements: &BorrowedArray<'_>,
) -> Result<New, Stop>
    requires { elements.now.view.now.shape ≡ [] }
    ensures { MakesNew result (creation.full_array (option_map dtype_of dtype.now) shape.now
        (elements_operand elements.now)) }
{
    let elem = type_for(alloc, dtype, elements)?;
    check_limits(elem.size(), shape)?;
    if let ElemType::One(elem) = elem {
        return copies(
            alloc,
            elem,
            shape,
            wrap(elem.kind(), elements.first_number()),
        );
    }
    structure_copies(alloc, elem, shape, elements)
}

// ---- calls

/// Returns `np.array` of an operand that is no list.
pub(crate) fn new_array(
    alloc: Global,
    dtype: &Option<DType>,
    operand: &Operand<'_>,
) -> Result<New, Stop>
    ensures { MakesNew result (creation.new_array (option_map dtype_of dtype.now)
        (operand_of operand.now)) }
{
    match operand {
        Operand::Number(number) => number_array(alloc, dtype, &[], *number),
        Operand::Elements(elements) => {
            let elem = type_for(alloc, dtype, elements)?;
            convert_elements(alloc, elements, elem)
        }
    }
}

/// Returns `np.int8` and the like: a number for an operand of shape ().
pub(crate) fn convert(alloc: Global, kind: Kind, operand: &Operand<'_>) -> Result<New, Stop>
    ensures { MakesNew result (creation.convert (kind_of kind) (operand_of operand.now)) }
{
    match operand {
        Operand::Number(number) => {
            check_fit(kind, *number)?;
            let number = wrap(kind, whole_number(*number));
            Ok(New::Number(Num::Scalar(kind, number)))
        }
        Operand::Elements(elements) => {
            let ElemType::One(_) = elements.view.elem() else {
                return Err(Stop::Refused(not_numbers()));
            };
            if elements.view.shape().is_empty() {
                let number = wrap(kind, elements.first_number());
                return Ok(New::Number(Num::Scalar(kind, number)));
            }
            convert_elements(alloc, elements, ElemType::One(Elem::little(kind)))
        }
    }
}

/// `.copy()`
pub(crate) fn copy_array(alloc: Global, operand: &Operand<'_>) -> Result<New, Stop>
    ensures { MakesNew result (creation.copy_array (operand_of operand.now)) }
{
    let Operand::Elements(elements) = operand else {
        return Err(Stop::Refused(not_an_array()));
    };
    if elements.is_row {
        return Err(Stop::Refused(not_an_array()));
    }
    elements.soundness();
    let view = elements.view;
    check_limits(view.elem().size(), view.shape())?;
    let block = copy_elements(alloc, view, elements.block)?;
    let copy = View::contiguous(alloc, view.elem().try_clone()?, view.shape())?;
    Ok(New::Array(copy, block))
}

/// Returns a new array of elements in C order, in another shape of as many. An array above the
/// limits is refused.
///
/// This is what `.reshape` gives where strides allow no view, as of `x.T` of two axes.
pub fn copy_reshaped(
    alloc: Global,
    elements: &BorrowedArray<'_>,
    shape: &[u64],
) -> Result<New, Stop>
    requires { elements_of shape.now ≡ elements_of elements.now.view.now.shape }
    ensures { MakesNew result (Ok (operand.AnArray elements.now.view.now.element shape.now
        (content_in_order shape.now
        (contents_over elements.now.view.now elements.now.block.now)))) }
{
    elements.soundness();
    let view = elements.view;
    check_limits(view.elem().size(), shape)?;
    let block = copy_elements(alloc, view, elements.block)?;
    let copy = View::contiguous(alloc, view.elem().try_clone()?, shape)?;
    Ok(New::Array(copy, block))
}

/// Returns whether an operand converts to a dtype: a number to numbers only, elements as `astype`
/// and assignments convert them.
pub fn operand_converts(operand: &Operand<'_>, elem: &ElemType) -> bool
    ensures { result ≡ creation.operand_converts (operand_of operand.now) (type_of elem.now) }
{
    match operand {
        Operand::Number(_) => matches!(elem, ElemType::One(_)),
        Operand::Elements(elements) => converts(elements.view.elem(), elem),
    }
}

/// Returns the operand where it is a Python integer that elements of a dtype do not take. Elements
/// are converted, whatever they are.
pub fn operand_misfit(operand: &Operand<'_>, elem: &ElemType) -> Option<i128>
    ensures { result ≡ creation.operand_misfit (type_of elem.now) (operand_of operand.now) }
{
    match (operand, elem) {
        (Operand::Number(number), ElemType::One(elem)) => misfit(elem.kind(), *number),
        _ => None,
    }
}

/// An operand converted to a dtype of numbers: a NumPy scalar stays one.
fn convert_to(alloc: Global, elem: ElemType, operand: &Operand<'_>) -> Result<New, Stop>
    ensures { MakesNew result (creation.convert_to (type_of elem) (operand_of operand.now)) }
{
    match (operand, &elem) {
        (Operand::Number(Num::Scalar(_, number)), ElemType::One(elem)) => {
            let number = wrap(elem.kind(), *number);
            Ok(New::Number(Num::Scalar(elem.kind(), number)))
        }
        (Operand::Number(Num::Scalar(_, _)), ElemType::Rec(_)) => {
            Err(Stop::Refused(not_numbers()))
        }
        (Operand::Number(_), _) => Err(Stop::Refused(not_an_array())),
        (Operand::Elements(elements), _) if elements.is_row => {
            Err(Stop::Refused(not_an_array()))
        }
        (Operand::Elements(elements), _) => match (elements.view.elem(), &elem) {
            (ElemType::One(_), ElemType::One(_)) => convert_elements(alloc, elements, elem),
            _ => Err(Stop::Refused(not_numbers())),
        },
    }
}

/// `.astype(t)`
pub(crate) fn astype(alloc: Global, dtype: &DType, operand: &Operand<'_>) -> Result<New, Stop>
    ensures { MakesNew result (creation.astype (dtype_of dtype.now) (operand_of operand.now)) }
{
    let elem = element_type(alloc, dtype)?;
    convert_to(alloc, elem, operand)
}
