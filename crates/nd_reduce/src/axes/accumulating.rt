//! `accumulate`: NumPy's accumulations, such as `np.cumsum`, of an array.
ghost use Rattle.std.specs.Prelude.{◌≡◌, ℕ, ◌*◌, ◌<◌, length, None, Some, IfOk};
ghost use Rattle.std.specs.List.{flat_map};
ghost use Rattle.nd_model.specs.Arrays.Element.{size_of};
ghost use Rattle.nd_model.specs.Making.Elementwise.{little};
ghost use Rattle.nd_model.specs.Making.Reductions.{accumulated_numbers, fold_kind, prefix_folds};
ghost use Rattle.nd_model.specs.Cells.Sound.{LiesIn};
ghost use Rattle.nd_model.specs.Arrays.Strides.{IsInLimits};
ghost use Rattle.nd_model.specs.Arrays.View.{One, contiguous, rearranged_view};
ghost use Rattle.nd_types.specs.Kinds.{kind_of};
ghost use Rattle.nd_syntax.specs.Trees.Calls.{reduction_of};
ghost use Rattle.nd_convert.specs.Conversion.Converted.{converted_bytes};
ghost use Rattle.nd_element.specs.Elements.{AreHeld, numbers_at};
ghost use Rattle.nd_reduce.specs.Axes.Axes.{HasAxis};
ghost use Rattle.nd_reduce.specs.Axes.Faults.{Makes};
ghost use Rattle.nd_reduce.specs.Folds.Lanes.{lanes_in, prefix_bytes};
ghost use Rattle.nd_reduce.specs.Axes.LastAxis.{lanes_of, to_end};
ghost use Rattle.nd_reduce.specs.Axes.Made.{array_of, array_operand, new_array};

use crate::axes::axis::{axis_in, lane_count, lane_length, lanes_of, put_axis, row_width};
use crate::axes::fault::AxisFault;
use crate::axes::reducing::{number_elem, result_kind};
use crate::axes::tables::table_folds;
use crate::folds::fold::FoldStep;
use crate::folds::{RowFold, accumulate_lanes, fold};
use nd_block::{Filling, RawBlock};
use nd_convert::conversion::convert_numbers;
use nd_syntax::trees::Reduction;
use nd_types::{Elem, ElemType, Kind};
use nd_ufunc::loops::Elements;
use nd_view::View;
use std::alloc::{AllocError, Global};

// The block with the accumulations of `lanes` lanes of `count` elements each, which follow one
// another in the view's C order.
fn prefixes<F: FoldStep>(
    alloc: Global,
    to: Kind,
    view: &View,
    elem: Elem,
    bytes: &[u8],
    lanes: usize,
    count: usize,
) -> Result<RawBlock, AllocError>
    requires to { kind_of to ≡ fold_kind F.reduction elem.kind }
    requires held { AreHeld elem bytes.now view.now.places }
    requires enough { length view.now.places ≡ lanes * count }
    ensures { IfOk result (λ b. b ≡ flat_map (prefix_bytes F.reduction (kind_of to))
        (lanes_in count lanes (numbers_at elem bytes.now view.now.places))) }
{
    let kind = elem.kind();
    let mut out = Filling::with_room(alloc, view.count() * to.size() as usize)?;
    let mut numbers = Elements::new(view, bytes, elem, kind);
    accumulate_lanes::<F>(&mut out, to, kind, &mut numbers, lanes, count);
    Ok(out.finish())
}

// The block with the accumulation of all elements of a view in C order.
fn all_prefixes<F: FoldStep>(
    alloc: Global,
    to: Kind,
    view: &View,
    elem: Elem,
    bytes: &[u8],
) -> Result<RawBlock, AllocError>
    requires to { kind_of to ≡ fold_kind F.reduction elem.kind }
    requires one { view.now.element ≡ One elem }
    requires lies { LiesIn (length bytes.now) view.now }
    ensures { IfOk result (λ b. b ≡ (new_array (prefix_folds F.reduction (kind_of to) None
        (array_operand view.now bytes.now))).1) }
{
    let folds = prefixes::<F>(alloc, to, view, elem, bytes, 1, view.count())?;
    Ok(folds)
}

// The results, which lie lane by lane, in the C order of the array's shape. `by_lanes` is the view of
// them.
fn put_folds(
    alloc: Global,
    by_lanes: &View,
    elem: Elem,
    shape: &[u64],
    axis: usize,
    folds: &[u8],
) -> Result<RawBlock, AllocError>
    requires axis { axis < length shape.now }
    requires one { by_lanes.now.element ≡ One elem }
    requires lanes { by_lanes.now.shape ≡ to_end axis shape.now }
    ensures { IfOk result (λ b. b ≡ converted_bytes elem elem folds.now
        (rearranged_view by_lanes.now shape.now (to_end axis)).places) }
{
    let view = put_axis(alloc, by_lanes, shape, axis)?;
    // proof: the number of elements is bounded, by the clause of count().
    let _count = view.count();
    convert_numbers(alloc, &view, elem, folds, elem)
}

// The results, which lie lane by lane, in the C order of the array's shape.
fn order_folds(
    alloc: Global,
    kind: Kind,
    lanes: &[u64],
    shape: &[u64],
    axis: usize,
    folds: &[u8],
) -> Result<RawBlock, AllocError>
    requires axis { axis < length shape.now }
    requires lanes { lanes.now ≡ to_end axis shape.now }
    requires limits { IsInLimits (size_of (kind_of kind)) lanes.now }
    ensures { IfOk result (λ b. b ≡ converted_bytes (little (kind_of kind)) (little (kind_of kind))
        folds.now (rearranged_view (contiguous (One (little (kind_of kind))) lanes.now)
        shape.now (to_end axis)).places) }
{
    let elem = Elem::little(kind);
    let by_lanes = View::contiguous(alloc, ElemType::One(elem), lanes)?;
    put_folds(alloc, &by_lanes, elem, shape, axis, folds)
}

// The block with the accumulations along an axis of a view, in the view's C order. `lanes` is the
// view with this axis last.
fn ordered_prefixes<F: FoldStep>(
    alloc: Global,
    to: Kind,
    view: &View,
    axis: usize,
    lanes: &View,
    elem: Elem,
    bytes: &[u8],
) -> Result<RawBlock, AllocError>
    requires to { kind_of to ≡ fold_kind F.reduction elem.kind }
    requires one { view.now.element ≡ One elem }
    requires lies { LiesIn (length bytes.now) view.now }
    requires axis { axis < length view.now.shape }
    requires lanes { lanes.now ≡ lanes_of view.now (Some axis) }
    ensures { IfOk result (λ b. b ≡ (new_array (prefix_folds F.reduction (kind_of to) (Some axis)
        (array_operand view.now bytes.now))).1) }
{
    let count = lane_length(view, Some(axis));
    let many = lane_count(lanes.count(), count);
    let folds = prefixes::<F>(alloc, to, lanes, elem, bytes, many, count)?;
    order_folds(
        alloc,
        to,
        lanes.shape(),
        view.shape(),
        axis,
        folds.as_slice(),
    )
}

// The block with the accumulations along an axis of a view, or of all its elements, worked out lane
// by lane.
fn lane_prefixes<F: FoldStep>(
    alloc: Global,
    to: Kind,
    view: &View,
    axis: Option<usize>,
    elem: Elem,
    bytes: &[u8],
) -> Result<RawBlock, AllocError>
    requires to { kind_of to ≡ fold_kind F.reduction elem.kind }
    requires one { view.now.element ≡ One elem }
    requires lies { LiesIn (length bytes.now) view.now }
    requires axis { HasAxis axis (length view.now.shape) }
    ensures { IfOk result (λ b. b ≡ (new_array (prefix_folds F.reduction (kind_of to) axis
        (array_operand view.now bytes.now))).1) }
{
    let Some(place) = axis else {
        return all_prefixes::<F>(alloc, to, view, elem, bytes);
    };
    let lanes = lanes_of(alloc, view, axis)?;
    ordered_prefixes::<F>(alloc, to, view, place, &lanes, elem, bytes)
}

// The block with the accumulations along an axis, worked out row by row where the rows are wide and
// near enough.
fn axis_prefixes<F: RowFold>(
    alloc: Global,
    to: Kind,
    view: &View,
    axis: Option<usize>,
    elem: Elem,
    bytes: &[u8],
) -> Result<RawBlock, AllocError>
    requires to { kind_of to ≡ fold_kind F.reduction elem.kind }
    requires one { view.now.element ≡ One elem }
    requires lies { LiesIn (length bytes.now) view.now }
    requires axis { HasAxis axis (length view.now.shape) }
    ensures { IfOk result (λ b. b ≡ (new_array (prefix_folds F.reduction (kind_of to) axis
        (array_operand view.now bytes.now))).1) }
{
    let numbers = view.count();
    match row_width(view, axis) {
        Some(width) if numbers > 0 => {
            let rows = lane_length(view, axis);
            let lanes = lane_count(numbers, rows);
            let tables = lane_count(lanes, width);
            table_folds::<F>(
                alloc, true, to, view, elem, bytes, tables, rows, width, numbers,
            )
        }
        _ => lane_prefixes::<F>(alloc, to, view, axis, elem, bytes),
    }
}

// The block with the accumulations of a reduction: the code for each is chosen once.
fn view_prefixes(
    alloc: Global,
    reduction: Reduction,
    to: Kind,
    view: &View,
    axis: Option<usize>,
    elem: Elem,
    bytes: &[u8],
) -> Result<RawBlock, AllocError>
    requires to { kind_of to ≡ fold_kind (reduction_of reduction) elem.kind }
    requires one { view.now.element ≡ One elem }
    requires lies { LiesIn (length bytes.now) view.now }
    requires axis { HasAxis axis (length view.now.shape) }
    ensures { IfOk result (λ b. b ≡ (new_array (prefix_folds (reduction_of reduction)
        (kind_of to) axis (array_operand view.now bytes.now))).1) }
{
    match reduction {
        Reduction::Sum => axis_prefixes::<fold::Sum>(alloc, to, view, axis, elem, bytes),
        Reduction::Prod => axis_prefixes::<fold::Prod>(alloc, to, view, axis, elem, bytes),
        Reduction::Min => axis_prefixes::<fold::Min>(alloc, to, view, axis, elem, bytes),
        Reduction::Max => axis_prefixes::<fold::Max>(alloc, to, view, axis, elem, bytes),
        Reduction::Any => axis_prefixes::<fold::Any>(alloc, to, view, axis, elem, bytes),
        Reduction::All => axis_prefixes::<fold::All>(alloc, to, view, axis, elem, bytes),
        Reduction::ArgMin => axis_prefixes::<fold::ArgMin>(alloc, to, view, axis, elem, bytes),
        Reduction::ArgMax => axis_prefixes::<fold::ArgMax>(alloc, to, view, axis, elem, bytes),
    }
}

/// Returns the accumulation along an axis, or of all elements in C order where `axis` is `None`, as
/// a new contiguous little-endian array.
///
/// The sums of `[[1 2] [3 4]]` are `[1 3 6 10]` for `None`, `[[1 2] [4 6]]` along axis 0. Sums and
/// products have 64 bits (NumPy reference, `ufunc.accumulate`, `numpy.cumsum`).
///
/// Refused in this order: structures (`NotNumbers`), an axis out of range (`NoAxis`).
pub fn accumulate(
    alloc: Global,
    reduction: Reduction,
    axis: Option<i128>,
    view: &View,
    block: &[u8],
) -> Result<(View, RawBlock), AxisFault>
    requires { LiesIn (length block.now) view.now }
    ensures { Makes (λ made. made) result (array_of (accumulated_numbers (reduction_of reduction)
        axis (array_operand view.now block.now))) }
{
    let elem = number_elem(view)?;
    let along = axis_in(view.shape().len(), axis)?;
    let kind = result_kind(reduction, elem.kind());
    let to = ElemType::One(Elem::little(kind));
    let folds = view_prefixes(alloc, reduction, kind, view, along, elem, block)?;
    if along.is_none() {
        let made = View::contiguous(alloc, to, &[view.count() as u64])?;
        return Ok((made, folds));
    }
    let made = View::contiguous(alloc, to, view.shape())?;
    Ok((made, folds))
}
