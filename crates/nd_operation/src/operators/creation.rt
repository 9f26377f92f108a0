//! `make_filled` and `make_full`: new arrays of zeros, of ones, of one number or structure.

ghost use Rattle.std.specs.Prelude.{◌≡◌, ◌≤◌, map, option_map, Ok};
ghost use Rattle.nd_model.specs.Arrays.Broadcast.{unless_fault};
ghost use Rattle.nd_model.specs.Making.Creation as creation;
ghost use Rattle.nd_model.specs.Arrays.Content as content;
ghost use Rattle.nd_model.specs.Arrays.Element.{size_of};
ghost use Rattle.nd_model.specs.Arrays.Strides.{IsInLimits, limit_fault};
ghost use Rattle.nd_model.specs.Arrays.View.{One, item_size};
ghost use Rattle.nd_types.specs.Types.{type_of};
ghost use Rattle.nd_syntax.specs.Trees.Calls.{dtype_of, fill_of};
ghost use Rattle.nd_operation.specs.Operators.Contents.{operand_of, unused_of};
ghost use Rattle.nd_operation.specs.Refusals.Ends.{Makes, Says};
ghost use Rattle.nd_operation.specs.Operators.New.{MakesNew};

use crate::operators::arguments::{bad_argument, lengths_of};
use crate::operators::conversion::{element_array, number_array};
use crate::operators::operand::{New, Operand};
use crate::refusals::{StmtFault, Stop, UfuncFault};
use nd_convert::creation::{full, zeros};
use nd_heap::Value;
use nd_syntax::dtypes::element_type;
use nd_syntax::trees::{DType, Fill};
use nd_types::{Elem, ElemType};
use nd_view::{View, limit_fault};
use std::alloc::Global;

/// Refuses an array above the limits.
pub fn check_limits(size: u64, shape: &[u64]) -> Result<(), StmtFault>
    requires { size ≤ 65536 }
    ensures { Says (λ u. u) result (unless_fault (limit_fault size shape.now) (Ok (tt {0}))) }
{
    match limit_fault(size, shape) {
        Some(fault) => Err(StmtFault::View(fault)),
        None => Ok(()),
    }
}

/// Returns a new array of copies of one number.
pub(crate) fn copies(alloc: Global, elem: Elem, shape: &[u64], number: i128) -> Result<New, Stop>
    requires { IsInLimits (size_of elem.kind) shape.now }
    ensures { MakesNew result (Ok (creation.uniform (One elem) shape.now (content.Num number))) }
{
    let view = View::contiguous(alloc, ElemType::One(elem), shape)?;
    let block = full(alloc, &view, elem, number)?;
    Ok(New::Array(view, block))
}

/// A new array of zeros.
fn zero_array(alloc: Global, elem: ElemType, shape: &[u64]) -> Result<New, Stop>
    requires { IsInLimits (item_size (type_of elem)) shape.now }
    ensures { MakesNew result
        (Ok (creation.uniform (type_of elem) shape.now (creation.zero_content (type_of elem)))) }
{
    let view = View::contiguous(alloc, elem, shape)?;
    let block = zeros(alloc, &view)?;
    Ok(New::Array(view, block))
}

/// A new array of zeros or ones.
fn filled_array(
    alloc: Global,
    fill: Fill,
    dtype: &Option<DType>,
    shape: &[u64],
) -> Result<New, Stop>
    ensures { MakesNew result
        (creation.filled_array (fill_of fill) (option_map dtype_of dtype.now) shape.now) }
{
    let Some(dtype) = dtype else {
        return Err(Stop::Refused(StmtFault::Ufunc(UfuncFault::FloatResult)));
    };
    let elem = element_type(alloc, dtype)?;
    match fill {
        Fill::Zeros => {
            check_limits(elem.size(), shape)?;
            zero_array(alloc, elem, shape)
        }
        Fill::Ones => {
            let ElemType::One(elem) = elem else {
                return Err(Stop::Refused(StmtFault::Ufunc(UfuncFault::NotNumbers)));
            };
            check_limits(elem.size(), shape)?;
            copies(alloc, elem, shape, 1)
        }
    }
}

/// Returns `np.zeros` or `np.ones`. The lengths are values that are not noted as used. Without a
/// dtype NumPy gives `float64`, so that is refused (`FloatResult`).
///
/// ```text
/// np.ones(3, dtype='int8')    [1 1 1]
/// ```
pub fn make_filled(
    alloc: Global,
    fill: Fill,
    dtype: &Option<DType>,
    shape: &[Value],
) -> Result<New, Stop>
    ensures { MakesNew result (creation.filled (fill_of fill) (option_map dtype_of dtype.now)
        (map unused_of shape.now)) }
{
    let shape = lengths_of(alloc, shape)?;
    filled_array(alloc, fill, dtype, &shape)
}

/// Returns `np.full`, of lengths and an operand of shape ().
///
/// ```text
/// np.full(2, 7)                   int64: [7 7]
/// np.full(2, 7, dtype='uint8')    uint8: [7 7]
/// ```
pub fn make_full(
    alloc: Global,
    dtype: &Option<DType>,
    shape: &[Value],
    operand: &Operand<'_>,
) -> Result<New, Stop>
    ensures { MakesNew result (creation.full_of (option_map dtype_of dtype.now)
        (map unused_of shape.now) (operand_of operand.now)) }
{
    let shape = lengths_of(alloc, shape)?;
    match operand {
        Operand::Number(number) => number_array(alloc, dtype, &shape, *number),
        Operand::Elements(elements) => {
            if !elements.view.shape().is_empty() {
                return Err(Stop::Refused(bad_argument()));
            }
            element_array(alloc, dtype, &shape, elements)
        }
    }
}
