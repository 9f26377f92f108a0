//! `prepare_results`: prepares the scatter of a temporary array, whose own block becomes the values
//! where that is possible.
ghost use Rattle.std.specs.Prelude.{◌≡◌, ◌≢◌, ◌<◌, ◌^◌, ◌≤◌, ◌↔◌, length, IfOk, IfSome, IsTrue};
ghost use Rattle.nd_model.specs.Arrays.Element.{Boolean, size_of};
ghost use Rattle.nd_model.specs.Cells.Sound.{LiesIn};
ghost use Rattle.nd_model.specs.Arrays.View.{One};
ghost use Rattle.nd_assign.specs.Assigned.{with_elements};
ghost use Rattle.nd_view.specs.SideBySide.{side_by_side};
ghost use Rattle.nd_assign.specs.Sources.{IsValue};
ghost use Rattle.nd_index.specs.Advanced.Chosen.{view_at};
ghost use Rattle.nd_scatter.specs.OwnValues.{AreOwnValues};
ghost use Rattle.nd_scatter.specs.Scattered.{written_by};

use crate::kernel::hold_bytes;
use crate::preparation::prepare_elements;
use crate::scatter::Scatter;
use nd_block::RawBlock;
use nd_element::keeps_bytes;
use nd_index::advanced::ChosenPlaces;
use nd_types::{Elem, ElemType};
use nd_view::View;
use std::alloc::{AllocError, Global};

// The dtype of both views, where it is one dtype of numbers and not of Booleans.
fn shared_elem(view: &View, array: &View) -> Option<Elem>
    ensures { IfSome result (λ elem. (view.now.element ≡ One elem)
        × (array.now.element ≡ One elem) × (elem.kind ≢ Boolean)) }
{
    let ElemType::One(elem) = view.elem() else {
        return None;
    };
    if !array.elem().is_same(view.elem()) {
        return None;
    }
    if !keeps_bytes(*elem) {
        return None;
    }
    Some(*elem)
}

// Whether a view is contiguous, not empty, and begins at the first byte of its block.
fn begins_gapless(view: &View, elem: Elem) -> bool
    ensures { IsTrue result → (view.now.places ≡ side_by_side (size_of elem.kind) 0
        (length view.now.places)) × (0 < length view.now.places)
        × (length view.now.places ≤ 2 ^ 24) }
{
    // proof: the number of elements is bounded, by the clause of count().
    let _len = view.count();
    let Some(run) = view.contiguous_run(elem.size()) else {
        return false;
    };
    // proof: the run has an element, by the clause of count().
    let _count = run.count();
    run.start() == 0
}

// Whether both shapes are equal.
fn is_same_shape(shape: &[u64], other: &[u64]) -> bool
    ensures { IsTrue result ↔ (shape.now ≡ other.now) }
{
    shape == other
}

// Whether the bytes of an array's block are the converted, broadcast values already.
fn stands_ready(view: &View, places: &ChosenPlaces, array: &View) -> bool
    ensures { IsTrue result → AreOwnValues (view_at view.now places.now) array.now }
{
    let Some(elem) = shared_elem(view, array) else {
        return false;
    };
    if !is_same_shape(array.shape(), places.shape.as_slice()) {
        return false;
    }
    begins_gapless(array, elem)
}

/// Prepares the assignment of a temporary array to the selected elements of a view, for blocks as
/// long as `block`.
///
/// `values`, the array's block, is taken over where its bytes are the values already. Otherwise
/// they are converted; an error means want of memory.
pub fn prepare_results<'p>(
    alloc: Global,
    view: &'p View,
    places: &'p ChosenPlaces,
    block: &[u8],
    array: &View,
    values: RawBlock,
) -> Result<Scatter<'p>, AllocError>
    requires target { LiesIn (length block.now) (view_at view.now places.now) }
    requires source { IsValue (view_at view.now places.now) (length values) array.now }
    ensures len { IfOk result (λ s. s.len ≡ length block.now) }
    ensures written { IfOk result (λ s. written_by s block.now
        ≡ with_elements (view_at view.now places.now) array.now values block.now) }
{
    let bytes = values.as_slice();
    if stands_ready(view, places, array) {
        hold_bytes(bytes);
        let size = view.elem().size() as usize;
        return Ok(Scatter::new(view, places, values, size, block.len()));
    }
    prepare_elements(alloc, view, places, block.len(), array, bytes)
}
