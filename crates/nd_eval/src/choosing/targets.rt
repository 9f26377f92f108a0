//! `Target`: what a plain assignment writes to (NumPy user guide, "Assigning values to indexed
//! arrays").

ghost use Rattle.std.specs.Prelude.{◌≡◌, ℕ, Bool, List, length, true, IfOk};
ghost use Rattle.nd_model.specs.Making.Assigning.{fits_into};
ghost use Rattle.nd_model.specs.Making.Creation.{operand_converts};
ghost use Rattle.nd_model.specs.Indexing.Index.{has_array};
ghost use Rattle.nd_model.specs.Making.Operand as operand;
ghost use Rattle.nd_model.specs.Making.Operand.{shape_of};
ghost use Rattle.nd_model.specs.Cells.Sound.{LiesIn};
ghost use Rattle.nd_model.specs.Arrays.Strides.{IsInLimits};
ghost use Rattle.nd_model.specs.Arrays.Tuple.{elements_of};
ghost use Rattle.nd_model.specs.Arrays.Value.{Base};
ghost use Rattle.nd_model.specs.Arrays.View.{item_size};
ghost use Rattle.nd_model.specs.Making.Writing as writing;
ghost use Rattle.nd_session.specs.Session.Live.{live};
ghost use Rattle.nd_operation.specs.Operators.Contents.{operand_of, unused_of};
ghost use Rattle.nd_operation.specs.Refusals.Ends.{Makes, Says};
ghost use Rattle.nd_eval.specs.Choosing.Indexing.{IsCopyOf, index_operands, operands_of, view_in, viewing_of};
ghost use Rattle.nd_eval.specs.Choosing.Targets.{IsChosenOf, Lies, geo_in, is_lone_mask, is_mask, may_take, target_by};

use crate::choosing::indexes::{Chosen, IndexValue, ItemValue, choose};
use crate::choosing::selection::Selection;
use nd_assign::fits;
use nd_heap::Value;
use nd_operation::operators::{Operand, not_numbers, operand_converts, operand_misfit};
use nd_operation::refusals::{StmtFault, Stop, UfuncFault};
use nd_scatter::fits_places;
use nd_session::session::Session;
use nd_types::{ElemType, Kind};
use nd_view::View;

/// What a plain assignment writes to.
#[derive(Drop)]
pub(crate) enum Target {
    /// The elements of a view.
    View(View),
    /// The elements that an advanced index selects.
    Elements(Selection),
}

impl Target {
    /// Returns what was selected, to be written to.
    fn new(chosen: Chosen) -> Target
        ensures elements { geo_in result ≡ view_in chosen }
        ensures copies { (is_advanced : Bool) → (o : operand.Operand)
            → IsCopyOf is_advanced o chosen → IsChosenOf is_advanced o result }
    {
        match chosen {
            Chosen::Element(view) => Target::View(view),
            Chosen::View(view) => Target::View(view),
            Chosen::Copy(selection) => Target::Elements(selection),
        }
    }

    /// proof: there is an element for each index tuple, within the limits of arrays.
    fn soundness(&self)
        ensures count { length (geo_in self.now).places ≡ elements_of (geo_in self.now).shape }
        ensures limits { IsInLimits (item_size (geo_in self.now).element) (geo_in self.now).shape }
    {
        if let Target::View(view) = self {
            let _count = view.count();
            let _shape = view.shape();
        }
    }

    /// Returns the view, or the one that was selected from.
    fn view(&self) -> &View
        ensures element { result.now.element ≡ (geo_in self.now).element }
        ensures writable { result.now.writable ≡ (geo_in self.now).writable }
    {
        match self {
            Target::View(view) => view,
            Target::Elements(selection) => &selection.view,
        }
    }

    /// Returns whether a value of a shape may be assigned.
    fn fits(&self, shape: &[u64]) -> bool
        ensures { result ≡ fits_into shape.now (geo_in self.now).shape }
    {
        match self {
            Target::View(view) => fits(view, shape),
            Target::Elements(selection) => fits_places(&selection.places, shape),
        }
    }
}

/// Returns the shape of an operand, () for a number.
fn shape_of<'v>(operand: &Operand<'v>) -> &'v [u64]
    ensures { result.now ≡ shape_of (operand_of operand.now) }
{
    match operand {
        Operand::Number(_) => &[],
        Operand::Elements(elements) => elements.view.shape(),
    }
}

/// Refuses a value that may not be assigned to these elements. `is_masked` tells that one mask of
/// all axes selected them.
fn check_value(target: &Target, value: &Operand<'_>, is_masked: bool) -> Result<(), StmtFault>
    ensures refusal { Says (λ _. geo_in target.now) result
        (may_take is_masked (geo_in target.now) (operand_of value.now)) }
    ensures types { IfOk result (λ _. operand_converts (operand_of value.now)
        (geo_in target.now).element ≡ true) }
    ensures shapes { IfOk result (λ _. fits_into (shape_of (operand_of value.now))
        (geo_in target.now).shape ≡ true) }
{
    let view = target.view();
    if !view.writable() {
        return Err(StmtFault::Ufunc(UfuncFault::ReadOnly));
    }
    if !operand_converts(value, view.elem()) {
        return Err(not_numbers());
    }
    if let Some(number) = operand_misfit(value, view.elem()) {
        return Err(StmtFault::Ufunc(UfuncFault::IntOutOfRange(number)));
    }
    let shape = shape_of(value);
    if !target.fits(shape) || (is_masked && shape.len() > 1) {
        return Err(StmtFault::Ufunc(UfuncFault::ShapeMismatch));
    }
    Ok(())
}

/// Whether a view is a mask of `axes` axes.
fn is_mask(view: &View, axes: usize) -> bool
    ensures { result ≡ is_mask axes view.now }
{
    let ElemType::One(elem) = view.elem() else {
        return false;
    };
    let Kind::Bool = elem.kind() else {
        return false;
    };
    !view.shape().is_empty() && view.shape().len() == axes
}

/// Whether there is one item, a mask of `axes` axes.
fn is_lone_mask(items: &[ItemValue], axes: usize) -> bool
    ensures { result ≡ is_lone_mask axes items.now }
{
    if items.len() != 1 {
        return false;
    }
    match items.first() {
        Some(ItemValue::At(Value::Array(array))) => is_mask(&array.view, axes),
        _ => false,
    }
}

/// The number of axes of a value.
fn axes_of(value: &Value) -> usize
    ensures { result ≡ length (shape_of (unused_of value.now)) }
{
    match value {
        Value::Number(_) => 0,
        Value::Array(array) | Value::Row(array) => array.view.shape().len(),
    }
}

/// Whether an index is one mask of all axes of a value.
fn is_full_mask(target: &Value, index: &IndexValue<'_>) -> bool
    ensures { (bytes : Base → List ℕ) → result ≡ writing.is_full_mask
        (length (shape_of (unused_of target.now)))
        (writing.items_in (viewing_of index.now) (index_operands bytes index.now)) }
{
    match index {
        IndexValue::Field(_) => false,
        IndexValue::Items(items) => is_lone_mask(items, axes_of(target)),
    }
}

/// Returns what `target[index] = value` writes to: for `x[1:] = 0` a view, for `x[[0, 2]] = 0` a
/// selection.
///
/// Refused in this order: as the index is, `ReadOnly`, `NotNumbers`, `IntOutOfRange`,
/// `ShapeMismatch`. Through one mask of all axes, a value of more than one axis is refused.
pub(crate) fn assignment_target(
    session: &Session,
    value: &Operand<'_>,
    target: &Value,
    index: &IndexValue<'_>,
) -> Result<Target, Stop>
    ensures target { Makes geo_in result (target_by (viewing_of index.now)
        (operand_of value.now) (unused_of target.now)
        (index_operands (live session.now).bytes index.now)) }
    ensures copies { IfOk result (IsChosenOf (has_array (operands_of index.now))
        (unused_of target.now)) }
    ensures lies { IfOk result (λ t. (len : ℕ) → Lies len (unused_of target.now)
        → LiesIn len (geo_in t)) }
    ensures types { IfOk result (λ t. operand_converts (operand_of value.now) (geo_in t).element
        ≡ true) }
    ensures shapes { IfOk result (λ t. fits_into (shape_of (operand_of value.now))
        (geo_in t).shape ≡ true) }
{
    let found = Target::new(choose(session, target, index)?);
    found.soundness();
    match check_value(&found, value, is_full_mask(target, index)) {
        Ok(()) => Ok(found),
        Err(fault) => {
            drop(found);
            Err(Stop::Refused(fault))
        }
    }
}
