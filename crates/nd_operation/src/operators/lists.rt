//! `make_list`: the array of a nested list (`np.array([[1, 2], [3, 4]])`).

ghost use Rattle.std.specs.Prelude.{◌≡◌, ◌==◌, ◌++◌, length, map, option_map, IfOk, OnOk, Ok};
ghost use Rattle.std.specs.List.{list_all};
ghost use Rattle.nd_model.specs.Grammar.Cells as cells;
ghost use Rattle.nd_model.specs.Arrays.Content as content;
ghost use Rattle.nd_model.specs.Arrays.Content.{array_bytes, content_in_order};
ghost use Rattle.nd_model.specs.Making.Creation as creation;
ghost use Rattle.nd_model.specs.Arrays.Element.{size_of};
ghost use Rattle.nd_model.specs.Cells.Meaning as meaning;
ghost use Rattle.nd_model.specs.Making.Operand.{AnArray};
ghost use Rattle.nd_model.specs.Arrays.Strides.{IsInLimits};
ghost use Rattle.nd_model.specs.Grammar.Syntax.{Nested};
ghost use Rattle.nd_model.specs.Arrays.Tuple.{elements_of};
ghost use Rattle.nd_model.specs.Arrays.View.{One};
ghost use Rattle.nd_types.specs.Kinds.{kind_of};
ghost use Rattle.nd_syntax.specs.Trees.Calls.{dtype_of};
ghost use Rattle.nd_syntax.specs.Trees.Syntax.{element_of};
ghost use Rattle.nd_operation.specs.Operators.Contents.{num_of, unused_of};
ghost use Rattle.nd_operation.specs.Refusals.Ends.{Makes, Says};
ghost use Rattle.nd_operation.specs.Operators.Listing.{is_python, list_of, number_counts, number_in, numbers_in};
ghost use Rattle.nd_operation.specs.Operators.New.{MakesNew};

use crate::operators::arguments::bad_argument;
use crate::operators::conversion::{misfit, not_numbers, whole_number};
use crate::operators::creation::check_limits;
use crate::operators::operand::New;
use crate::refusals::{StmtError, StmtFault, Stop, UfuncFault};
use nd_block::RawBlock;
use nd_convert::creation::list;
use nd_heap::Value;
use nd_syntax::dtypes::element_type;
use nd_syntax::trees::{DType, Element};
use nd_types::{Elem, ElemType, Kind, Num, fits, wrap};
use nd_view::View;
use smallvec::SmallVec;
use std::alloc::{AllocError, Global};

// ---- the shape of a list

/// Appends the lengths down the first elements of a list.
fn push_lengths(lengths: &mut SmallVec<u64, 32>, elements: &[Element]) -> Result<(), AllocError>
    ensures { OnOk result (lengths.new.items
        ≡ lengths.old.items ++ creation.shape_of_element (list_of elements.now)) }
{
    lengths.push(elements.len() as u64)?;
    match elements.split_first() {
        None => Ok(()),
        Some((Element::Single(_), _)) => Ok(()),
        Some((Element::Nested(first), _)) => push_lengths(lengths, first.as_slice()),
    }
}

/// The shape of a list, down its first elements.
fn list_shape(alloc: Global, elements: &[Element]) -> Result<SmallVec<u64, 32>, AllocError>
    ensures { IfOk result (λ s. s.items ≡ creation.shape_of_element (list_of elements.now)) }
{
    let mut shape = SmallVec::new(alloc);
    push_lengths(&mut shape, elements)?;
    Ok(shape)
}

/// Whether two elements have one shape.
#[cycle(shape)]
fn has_shape_of(other: &Element, element: &Element) -> bool
    ensures { result ≡ creation.has_shape (creation.shape_of_element (element_of other.now))
        (element_of element.now) }
{
    match (other, element) {
        (Element::Single(_), Element::Single(_)) => true,
        (Element::Nested(others), Element::Nested(elements)) => {
            list_has_shape_of(others.as_slice(), elements.as_slice())
        }
        _ => false,
    }
}

/// Whether two lists have one shape.
#[cycle(shape)]
fn list_has_shape_of(others: &[Element], elements: &[Element]) -> bool
    ensures { result ≡ creation.has_shape (creation.shape_of_element (list_of others.now))
        (list_of elements.now) }
{
    let Some((first, _)) = others.split_first() else {
        return elements.is_empty();
    };
    if elements.len() != others.len() {
        return false;
    }
    for element in elements {
        if !has_shape_of(first, element) {
            return false;
        }
    }
    true
}

/// Refuses a list whose elements differ in shape (`RaggedList`).
fn check_even(elements: &[Element]) -> Result<(), StmtFault>
    ensures { Says (λ u. creation.shape_of_element (list_of elements.now)) result
        (creation.even_shape (list_of elements.now)) }
{
    if !list_has_shape_of(elements, elements) {
        return Err(StmtFault::Stmt(StmtError::RaggedList));
    }
    Ok(())
}

/// Whether a length down the first elements of a list is 0.
fn has_no_element(elements: &[Element]) -> bool
    ensures { result ≡ (elements_of (creation.shape_of_element (list_of elements.now)) == 0) }
{
    let Some((first, _)) = elements.split_first() else {
        return true;
    };
    match first {
        Element::Single(_) => false,
        Element::Nested(elements) => has_no_element(elements.as_slice()),
    }
}

/// Returns whether a list is even, and has a length of 0.
pub fn is_empty_list(elements: &[Element]) -> bool
    ensures { result ≡ meaning.is_empty_list (cells.elements_of (map element_of elements.now)) }
{
    list_has_shape_of(elements, elements) && has_no_element(elements)
}

// ---- its numbers

/// The number that a value is. An array or a row, which has none, counts as `False`.
fn number_of(value: &Value) -> Num
    ensures { num_of result ≡ number_in value.now }
{
    match value {
        Value::Number(number) => *number,
        Value::Array(_) | Value::Row(_) => Num::Bool(false),
    }
}

/// Whether a value is a Python integer or Boolean.
fn is_python_number(value: &Value) -> bool
    ensures { result ≡ is_python value.now }
{
    match value {
        Value::Number(Num::Int(_)) => true,
        Value::Number(Num::Bool(_)) => true,
        Value::Number(Num::Scalar(_, _)) => false,
        Value::Array(_) | Value::Row(_) => false,
    }
}

/// Refuses values that are no Python numbers.
fn check_numbers(values: &[Value]) -> Result<(), StmtFault>
    ensures { Says (λ u. numbers_in values.now) result
        (creation.python_numbers (map unused_of values.now)) }
{
    for value in values {
        if !is_python_number(value) {
            return Err(bad_argument());
        }
    }
    Ok(())
}

/// Whether all values are Python Booleans.
fn are_truths(values: &[Value]) -> bool
    ensures { result ≡ list_all creation.is_truth (numbers_in values.now) }
{
    for value in values {
        let Num::Bool(_) = number_of(value) else {
            return false;
        };
    }
    true
}

/// Whether `int64` holds all values.
fn fit_int64(values: &[Value]) -> bool
    ensures { result ≡ list_all creation.fits_int64 (numbers_in values.now) }
{
    for value in values {
        if !fits(Kind::I64, whole_number(number_of(value))) {
            return false;
        }
    }
    true
}

/// The kind of an array of numbers for which no dtype is written.
fn list_kind(values: &[Value]) -> Result<Kind, StmtFault>
    ensures { Says kind_of result (creation.list_kind (numbers_in values.now)) }
{
    if values.is_empty() {
        return Err(StmtFault::Ufunc(UfuncFault::FloatResult));
    }
    if are_truths(values) {
        return Ok(Kind::Bool);
    }
    if !fit_int64(values) {
        return Err(StmtFault::Stmt(StmtError::NeedsType));
    }
    Ok(Kind::I64)
}

/// The dtype of an array of numbers: the one that is written, or else their own.
fn element_for(alloc: Global, dtype: &Option<DType>, values: &[Value]) -> Result<Elem, Stop>
    ensures { Makes (λ e. e) result (creation.element_for_list (option_map dtype_of dtype.now)
        (numbers_in values.now)) }
{
    let Some(dtype) = dtype else {
        let kind = list_kind(values)?;
        return Ok(Elem::little(kind));
    };
    match element_type(alloc, dtype)? {
        ElemType::One(elem) => Ok(elem),
        ElemType::Rec(_) => Err(Stop::Refused(not_numbers())),
    }
}

/// The first Python integer that a kind does not take.
fn first_misfit(kind: Kind, values: &[Value]) -> Option<i128>
    ensures { result ≡ creation.first_misfit (kind_of kind) (numbers_in values.now) }
{
    for value in values {
        if let Some(int) = misfit(kind, number_of(value)) {
            return Some(int);
        }
    }
    None
}

/// The values as numbers of a kind.
fn convert_all(alloc: Global, kind: Kind, values: &[Value]) -> Result<Vec<i128>, AllocError>
    ensures { IfOk result (λ v. map content.Num v.items
        ≡ creation.converted_numbers (kind_of kind) (numbers_in values.now)) }
{
    let mut numbers = Vec::with_capacity(alloc, values.len())?;
    for value in values {
        numbers.push(wrap(kind, whole_number(number_of(value))))?;
    }
    Ok(numbers)
}

// ---- the array

/// The block of an array with the values of numbers in C order.
fn list_block(
    alloc: Global,
    view: &View,
    elem: Elem,
    values: &[Value],
) -> Result<RawBlock, AllocError>
    requires { length values.now ≡ length view.now.places }
    ensures { IfOk result (λ b. b ≡ array_bytes (One elem) view.now.shape (content_in_order
        view.now.shape (creation.converted_numbers elem.kind (numbers_in values.now)))) }
{
    let numbers = convert_all(alloc, elem.kind(), values)?;
    list(alloc, view, elem, &numbers)
}

/// A new array with the values of numbers in C order.
fn list_array(alloc: Global, elem: Elem, shape: &[u64], values: &[Value]) -> Result<New, Stop>
    requires limits { IsInLimits (size_of elem.kind) shape.now }
    requires count { length values.now ≡ elements_of shape.now }
    ensures { MakesNew result (Ok (AnArray (One elem) shape.now (content_in_order shape.now
        (creation.converted_numbers elem.kind (numbers_in values.now))))) }
{
    let view = View::contiguous(alloc, ElemType::One(elem), shape)?;
    let block = list_block(alloc, &view, elem, values)?;
    Ok(New::Array(view, block))
}

/// Returns the array of a list. `values` are those of its numbers from left to right.
///
/// Refused in this order: `BadArgument` for what is no Python number, `RaggedList`, the dtype, the
/// limits of arrays, `IntOutOfRange`.
///
/// ```text
/// np.array([[1, 2], [3, 4]])           int64, shape (2, 2)
/// np.array([True, False])              bool, shape (2,)
/// np.array([1, 300], dtype='uint8')    refused: 300 is out of range
/// ```
pub fn make_list(
    alloc: Global,
    elements: &[Element],
    dtype: &Option<DType>,
    values: &[Value],
) -> Result<New, Stop>
    requires { length values.now
        ≡ number_counts (cells.elements_of (map element_of elements.now)) }
    ensures { MakesNew result (creation.array_of_list
        (Nested (cells.elements_of (map element_of elements.now)))
        (option_map dtype_of dtype.now) (map unused_of values.now)) }
{
    check_numbers(values)?;
    check_even(elements)?;
    let elem = element_for(alloc, dtype, values)?;
    let shape = list_shape(alloc, elements)?;
    check_limits(elem.size(), &shape)?;
    if let Some(int) = first_misfit(elem.kind(), values) {
        return Err(Stop::Refused(StmtFault::Ufunc(UfuncFault::IntOutOfRange(int))));
    }
    list_array(alloc, elem, &shape, values)
}
