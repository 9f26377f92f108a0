//! `reduce` and `reduce_number`: NumPy's reductions of arrays and of NumPy scalars.
ghost use Rattle.std.specs.Prelude.{◌≡◌, ◌*◌, ◌^◌, ◌<◌, ◌≤◌, Bool, false, Ok, [], ◌∷◌, length, IfOk};
ghost use Rattle.nd_model.specs.Arrays.Broadcast as broadcasting;
ghost use Rattle.nd_model.specs.Arrays.Element.{wrap};
ghost use Rattle.nd_model.specs.Making.Elementwise.{element_sort, little, numbers_made};
ghost use Rattle.nd_model.specs.Making.Operand.{Plain, Scalar};
ghost use Rattle.nd_model.specs.Making.Reductions as reductions;
ghost use Rattle.nd_model.specs.Making.Reductions.{fold_kind, folded, kind_of_sort, reduced_numbers};
ghost use Rattle.nd_model.specs.Cells.Sound.{LiesIn};
ghost use Rattle.nd_model.specs.Arrays.Tuple.{elements_of};
ghost use Rattle.nd_model.specs.Arrays.View.{One, contiguous};
ghost use Rattle.nd_types.specs.Kinds.{kind_of};
ghost use Rattle.nd_syntax.specs.Trees.Calls.{reduction_of};
ghost use Rattle.nd_element.specs.Elements.{AreHeld, numbers_at};
ghost use Rattle.nd_ufunc.specs.Scalar.Numbers.{number_made};
ghost use Rattle.nd_reduce.specs.Axes.Axes.{HasAxis, lane_length};
ghost use Rattle.nd_reduce.specs.Axes.Faults.{Makes};
ghost use Rattle.nd_reduce.specs.Folds.Lanes.{fold_bytes, lanes_in};
ghost use Rattle.nd_reduce.specs.Axes.LastAxis.{lanes_of};
ghost use Rattle.nd_reduce.specs.Axes.Made.{array_of, array_operand};

use crate::axes::axis::{
    axis_in, has_no_lanes, lane_count, lane_length, lanes_of, reduced_shape, row_width,
};
use crate::axes::fault::AxisFault;
use crate::axes::tables::table_folds;
use crate::folds::fold::sum_kind;
use crate::folds::{RowFold, RunFold, fold, fold_lanes, fold_number};
use nd_block::{Filling, RawBlock};
use nd_syntax::trees::Reduction;
use nd_types::{Elem, ElemType, Kind, Num};
use nd_ufunc::loops::Elements;
use nd_view::{View, limit_fault};
use std::alloc::{AllocError, Global};

/// Returns the dtype of a view's numbers. Structures are refused.
pub(crate) fn number_elem(view: &View) -> Result<Elem, AxisFault>
    ensures kind { Makes (λ e. e.kind) result (kind_of_sort (element_sort view.now.element)) }
    ensures one { IfOk result (λ e. view.now.element ≡ One e) }
{
    match view.elem() {
        ElemType::One(elem) => Ok(*elem),
        ElemType::Rec(_) => Err(AxisFault::NotNumbers),
    }
}

/// Returns the kind of the results for numbers of a kind.
pub(crate) fn result_kind(reduction: Reduction, kind: Kind) -> Kind
    ensures { kind_of result ≡ fold_kind (reduction_of reduction) (kind_of kind) }
{
    match reduction {
        Reduction::Sum | Reduction::Prod => sum_kind(kind),
        Reduction::Min | Reduction::Max => kind,
        Reduction::Any | Reduction::All => Kind::Bool,
        Reduction::ArgMin | Reduction::ArgMax => Kind::I64,
    }
}

// Whether the least or greatest of no numbers is asked for.
fn lacks_numbers(reduction: Reduction, shape: &[u64], axis: Option<usize>, count: usize) -> bool
    requires { HasAxis axis (length shape.now) }
    ensures { result ≡ reductions.lacks_numbers (reduction_of reduction) count
        (elements_of (reductions.reduced_shape axis false shape.now)) }
{
    match reduction {
        Reduction::Min | Reduction::Max => count == 0 && !has_no_lanes(shape, axis),
        Reduction::ArgMin | Reduction::ArgMax => count == 0,
        Reduction::Sum | Reduction::Prod | Reduction::Any | Reduction::All => false,
    }
}

// The view of a new contiguous array of numbers, within the limits of arrays.
fn new_view(alloc: Global, kind: Kind, shape: &[u64]) -> Result<View, AxisFault>
    ensures { Makes (λ v. v) result (broadcasting.in_limits (One (little (kind_of kind))) shape.now
        (Ok (contiguous (One (little (kind_of kind))) shape.now))) }
{
    if let Some(fault) = limit_fault(kind.size(), shape) {
        return Err(AxisFault::View(fault));
    }
    let view = View::contiguous(alloc, ElemType::One(Elem::little(kind)), shape)?;
    Ok(view)
}

// The view of the array of the results.
fn folds_view(
    alloc: Global,
    kind: Kind,
    shape: &[u64],
    axis: Option<usize>,
    keepdims: bool,
) -> Result<View, AxisFault>
    requires { HasAxis axis (length shape.now) }
    ensures { Makes (λ v. v) result (broadcasting.in_limits (One (little (kind_of kind)))
        (reductions.reduced_shape axis keepdims shape.now) (Ok (contiguous
        (One (little (kind_of kind))) (reductions.reduced_shape axis keepdims shape.now)))) }
{
    let lengths = reduced_shape(alloc, shape, axis, keepdims)?;
    let view = new_view(alloc, kind, lengths.as_slice())?;
    Ok(view)
}

// The block with the results for `lanes` lanes of `count` elements each, which follow one another
// in the view's C order.
fn folds<F: RunFold>(
    alloc: Global,
    to: Kind,
    view: &View,
    elem: Elem,
    bytes: &[u8],
    lanes: usize,
    count: usize,
) -> Result<RawBlock, AllocError>
    requires to { kind_of to ≡ fold_kind F.reduction elem.kind }
    requires held { AreHeld elem bytes.now view.now.places }
    requires enough { length view.now.places ≡ lanes * count }
    requires few { lanes ≤ 2 ^ 24 }
    ensures { IfOk result (λ b. b ≡ fold_bytes F.reduction (kind_of to)
        (lanes_in count lanes (numbers_at elem bytes.now view.now.places))) }
{
    let kind = elem.kind();
    let mut out = Filling::with_room(alloc, lanes * to.size() as usize)?;
    let mut numbers = Elements::new(view, bytes, elem, kind);
    fold_lanes::<F>(&mut out, to, kind, &mut numbers, lanes, count);
    Ok(out.finish())
}

// The block with the results along an axis of a view, or of all its elements, worked out lane by
// lane.
fn lane_folds<F: RunFold>(
    alloc: Global,
    to: Kind,
    view: &View,
    axis: Option<usize>,
    elem: Elem,
    bytes: &[u8],
    lanes: usize,
    count: usize,
) -> Result<RawBlock, AllocError>
    requires to { kind_of to ≡ fold_kind F.reduction elem.kind }
    requires one { view.now.element ≡ One elem }
    requires lies { LiesIn (length bytes.now) view.now }
    requires axis { HasAxis axis (length view.now.shape) }
    requires lanes { lanes ≡ elements_of (reductions.reduced_shape axis false view.now.shape) }
    requires count { count ≡ lane_length axis view.now.shape }
    requires few { lanes ≤ 2 ^ 24 }
    ensures { IfOk result (λ b. b ≡ fold_bytes F.reduction (kind_of to)
        (lanes_in count lanes (numbers_at elem bytes.now (lanes_of view.now axis).places))) }
{
    let by_lanes = lanes_of(alloc, view, axis)?;
    folds::<F>(alloc, to, &by_lanes, elem, bytes, lanes, count)
}

// The block with the results along an axis, worked out row by row where the rows are wide and near
// enough.
fn axis_folds<F: RowFold>(
    alloc: Global,
    to: Kind,
    view: &View,
    axis: Option<usize>,
    elem: Elem,
    bytes: &[u8],
    lanes: usize,
    count: usize,
) -> Result<RawBlock, AllocError>
    requires to { kind_of to ≡ fold_kind F.reduction elem.kind }
    requires one { view.now.element ≡ One elem }
    requires lies { LiesIn (length bytes.now) view.now }
    requires axis { HasAxis axis (length view.now.shape) }
    requires lanes { lanes ≡ elements_of (reductions.reduced_shape axis false view.now.shape) }
    requires count { count ≡ lane_length axis view.now.shape }
    requires few { lanes ≤ 2 ^ 24 }
    ensures { IfOk result (λ b. b ≡ fold_bytes F.reduction (kind_of to)
        (lanes_in count lanes (numbers_at elem bytes.now (lanes_of view.now axis).places))) }
{
    match row_width(view, axis) {
        Some(width) if lanes > 0 && count > 0 => {
            let tables = lane_count(lanes, width);
            table_folds::<F>(
                alloc, false, to, view, elem, bytes, tables, count, width, lanes,
            )
        }
        _ => lane_folds::<F>(alloc, to, view, axis, elem, bytes, lanes, count),
    }
}

// The block with the results of a reduction: the code for each is chosen once.
fn view_folds(
    alloc: Global,
    reduction: Reduction,
    to: Kind,
    view: &View,
    axis: Option<usize>,
    elem: Elem,
    bytes: &[u8],
    lanes: usize,
    count: usize,
) -> Result<RawBlock, AllocError>
    requires to { kind_of to ≡ fold_kind (reduction_of reduction) elem.kind }
    requires one { view.now.element ≡ One elem }
    requires lies { LiesIn (length bytes.now) view.now }
    requires axis { HasAxis axis (length view.now.shape) }
    requires lanes { lanes ≡ elements_of (reductions.reduced_shape axis false view.now.shape) }
    requires count { count ≡ lane_length axis view.now.shape }
    requires few { lanes ≤ 2 ^ 24 }
    ensures { IfOk result (λ b. b ≡ fold_bytes (reduction_of reduction) (kind_of to)
        (lanes_in count lanes (numbers_at elem bytes.now (lanes_of view.now axis).places))) }
{
    match reduction {
        Reduction::Sum => axis_folds::<fold::Sum>(alloc, to, view, axis, elem, bytes, lanes, count),
        Reduction::Prod => axis_folds::<fold::Prod>(
            alloc, to, view, axis, elem, bytes, lanes, count,
        ),
        Reduction::Min => axis_folds::<fold::Min>(alloc, to, view, axis, elem, bytes, lanes, count),
        Reduction::Max => axis_folds::<fold::Max>(alloc, to, view, axis, elem, bytes, lanes, count),
        Reduction::Any => axis_folds::<fold::Any>(alloc, to, view, axis, elem, bytes, lanes, count),
        Reduction::All => axis_folds::<fold::All>(alloc, to, view, axis, elem, bytes, lanes, count),
        Reduction::ArgMin => axis_folds::<fold::ArgMin>(
            alloc, to, view, axis, elem, bytes, lanes, count,
        ),
        Reduction::ArgMax => axis_folds::<fold::ArgMax>(
            alloc, to, view, axis, elem, bytes, lanes, count,
        ),
    }
}

/// Returns the reduction along an axis, or of all elements where `axis` is `None`, as a new
/// contiguous little-endian array.
///
/// The sums of `[[1 2] [3 4]]` are `10` of shape () for `None`, and `[4 6]` of shape (2,) along
/// axis 0. With `keepdims` they are `[[4 6]]` of shape (1, 2) (NumPy reference, `ufunc.reduce`,
/// `numpy.argmax`).
///
/// Refused in this order: structures (`NotNumbers`), an axis out of range (`NoAxis`), the least or
/// greatest of no numbers (`EmptyReduce`), the limits of arrays (`View`).
pub fn reduce(
    alloc: Global,
    reduction: Reduction,
    axis: Option<i128>,
    keepdims: bool,
    view: &View,
    block: &[u8],
) -> Result<(View, RawBlock), AxisFault>
    requires { LiesIn (length block.now) view.now }
    ensures { Makes (λ made. made) result (array_of (reduced_numbers (reduction_of reduction) axis
        keepdims (array_operand view.now block.now))) }
{
    let elem = number_elem(view)?;
    let along = axis_in(view.shape().len(), axis)?;
    let count = lane_length(view, along);
    if lacks_numbers(reduction, view.shape(), along, count) {
        return Err(AxisFault::EmptyReduce);
    }
    let kind = result_kind(reduction, elem.kind());
    let made = folds_view(alloc, kind, view.shape(), along, keepdims)?;
    let lanes = made.count();
    let folded = view_folds(
        alloc, reduction, kind, view, along, elem, block, lanes, count,
    )?;
    Ok((made, folded))
}

// The result for a single number.
fn fold_of(reduction: Reduction, kind: Kind, number: i128) -> i128
    ensures { result ≡ wrap (fold_kind (reduction_of reduction) (kind_of kind))
        (folded (reduction_of reduction) (number ∷ [])) }
{
    match reduction {
        Reduction::Sum => fold_number::<fold::Sum>(kind, number),
        Reduction::Prod => fold_number::<fold::Prod>(kind, number),
        Reduction::Min => fold_number::<fold::Min>(kind, number),
        Reduction::Max => fold_number::<fold::Max>(kind, number),
        Reduction::Any => fold_number::<fold::Any>(kind, number),
        Reduction::All => fold_number::<fold::All>(kind, number),
        Reduction::ArgMin => fold_number::<fold::ArgMin>(kind, number),
        Reduction::ArgMax => fold_number::<fold::ArgMax>(kind, number),
    }
}

/// Returns the reduction of a NumPy scalar, which has no axes: 0 and -1 stand for all of it, any
/// other axis is refused.
///
/// The sum of `np.int8(3)` is `np.int64(3)`, along no axis and along axis 0. Along axis 1 it is
/// refused (`NoAxis`).
pub fn reduce_number(
    reduction: Reduction,
    axis: Option<i128>,
    kind: Kind,
    number: i128,
) -> Result<Num, AxisFault>
    ensures { Makes number_made result (numbers_made (reduced_numbers
        (reduction_of reduction) axis false (Plain (Scalar (kind_of kind) number)))) }
{
    axis_in(0, axis)?;
    let to = result_kind(reduction, kind);
    Ok(Num::Scalar(to, fold_of(reduction, kind, number)))
}
