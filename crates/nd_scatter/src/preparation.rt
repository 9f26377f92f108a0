//! `prepare_scatter`: the part of a scatter that takes memory, done before anything is written.
ghost use Rattle.std.specs.Prelude.{◌≡◌, ℕ, List, length, true, IfOk};
ghost use Rattle.nd_model.specs.Making.Creation.{is_number_type};
ghost use Rattle.nd_model.specs.Cells.Sound.{LiesIn};
ghost use Rattle.nd_types.specs.Types.{type_of};
ghost use Rattle.nd_assign.specs.Assigned.{with_elements, with_number};
ghost use Rattle.nd_assign.specs.HeldFields.{HoldsFields};
ghost use Rattle.nd_assign.specs.Sources.{IsSource, IsValue, with_source};
ghost use Rattle.nd_index.specs.Advanced.Chosen.{view_at};
ghost use Rattle.nd_scatter.specs.Scattered.{written_by};

use crate::scatter::Scatter;
use nd_assign::{AssignedValue, assign};
use nd_block::RawBlock;
use nd_index::advanced::ChosenPlaces;
use nd_types::ElemType;
use nd_view::View;
use std::alloc::{AllocError, Global};

/// proof: the fields of a structure lie within its itemsize, by the clause of fields().
pub fn hold_fields(elem: &ElemType)
    ensures { HoldsFields (type_of elem.now) }
{
    if let ElemType::Rec(structure) = elem {
        let _fields = structure.fields();
    }
}

// Prepares the assignment of a number, which stands once among the values.
fn prepare_number<'p>(
    alloc: Global,
    view: &'p View,
    places: &'p ChosenPlaces,
    len: usize,
    number: i128,
) -> Result<Scatter<'p>, AllocError>
    requires target { LiesIn len (view_at view.now places.now) }
    requires numbers { is_number_type view.now.element ≡ true }
    ensures len { IfOk result (λ s. s.len ≡ len) }
    ensures written { IfOk result (λ s. (old : List ℕ) → length old ≡ len
        → written_by s old ≡ with_number (view_at view.now places.now) number old) }
{
    let one = View::contiguous(alloc, view.elem().try_clone()?, &[])?;
    let mut values = RawBlock::zeros(alloc, view.elem().size() as usize)?;
    assign(alloc, &one, &mut values, AssignedValue::Number(number))?;
    Ok(Scatter::new(view, places, values, 0, len))
}

/// Prepares the assignment of a view's elements. They are converted, broadcast to the shape of the
/// places, and kept as contiguous values.
pub(crate) fn prepare_elements<'p>(
    alloc: Global,
    view: &'p View,
    places: &'p ChosenPlaces,
    len: usize,
    value: &View,
    bytes: &[u8],
) -> Result<Scatter<'p>, AllocError>
    requires target { LiesIn len (view_at view.now places.now) }
    requires source { IsValue (view_at view.now places.now) (length bytes.now) value.now }
    ensures len { IfOk result (λ s. s.len ≡ len) }
    ensures written { IfOk result (λ s. (old : List ℕ) → length old ≡ len
        → written_by s old
        ≡ with_elements (view_at view.now places.now) value.now bytes.now old) }
{
    let elem = view.elem();
    hold_fields(elem);
    let size = elem.size() as usize;
    let all = View::contiguous(alloc, elem.try_clone()?, places.shape.as_slice())?;
    let mut values = RawBlock::zeros(alloc, all.count() * size)?;
    assign(alloc, &all, &mut values, AssignedValue::Other(value, bytes))?;
    Ok(Scatter::new(view, places, values, size, len))
}

/// Prepares an assignment to the selected elements of a view, for blocks as long as `block`, which
/// is the view's.
///
/// All values are read and converted now, so that `Scatter::write` cannot fail. An error means want
/// of memory.
pub fn prepare_scatter<'p>(
    alloc: Global,
    view: &'p View,
    places: &'p ChosenPlaces,
    block: &[u8],
    source: AssignedValue<'_>,
) -> Result<Scatter<'p>, AllocError>
    requires target { LiesIn (length block.now) (view_at view.now places.now) }
    requires source { IsSource (view_at view.now places.now) (length block.now) source }
    ensures len { IfOk result (λ s. s.len ≡ length block.now) }
    ensures written { IfOk result (λ s. written_by s block.now
        ≡ with_source (view_at view.now places.now) source.entry block.now) }
{
    match source {
        AssignedValue::Number(number) => prepare_number(alloc, view, places, block.len(), number),
        AssignedValue::Same(value) => prepare_elements(
            alloc,
            view,
            places,
            block.len(),
            value,
            block,
        ),
        AssignedValue::Other(value, bytes) => {
            prepare_elements(alloc, view, places, block.len(), value, bytes)
        }
    }
}
