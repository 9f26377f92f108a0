//! `places_by_mask`: a selection by a mask over one strided line, kept as a copy of the mask.
ghost use Rattle.std.specs.Prelude.{◌≡◌, ◌^◌, ◌≤◌, length, map, IfOk, IfSome};
ghost use Rattle.nd_model.specs.Indexing.Advanced.{is_nonzero, true_numbers};
ghost use Rattle.nd_index.specs.Offsets.RowPlaces.{chosen_places, places_beside};
ghost use Rattle.nd_index.specs.Advanced.IndexNumbers.{numbers_in};
ghost use Rattle.nd_index.specs.Items.Items.{numbers_of};
ghost use Rattle.nd_places.specs.Near.{is_true};

use crate::advanced::index_numbers::IndexNumbers;
use crate::items::{IndexArray, is_packed};
use crate::offsets::{Axes, KeptWays, Row, line_of};
use nd_block::RawBlock;
use nd_element::is_elem;
use nd_places::{PlaceList, Trues};
use nd_types::{Elem, Kind};
use std::alloc::{AllocError, Global};

// The bytes of a mask, where they are contiguous Booleans.
fn mask_bytes<'i>(mask: &IndexArray<'i>) -> Option<&'i [u8]>
    ensures { IfSome result (λ bytes. (map is_nonzero (numbers_of mask.now)
        ≡ map is_true bytes.now) × (length bytes.now ≤ 2 ^ 24)) }
{
    if !is_elem(*mask.elem, Elem::little(Kind::Bool)) {
        return None;
    }
    let count = mask.view.count() as u64;
    let mut runs = mask.view.runs();
    let run = runs.next()?;
    if run.count() != count || !is_packed(&run, 1, mask.bytes.len()) {
        return None;
    }
    let start = run.start() as usize;
    Some(&mask.bytes[start..start + run.count() as usize])
}

// The byte offsets that a mask selects, where the elements lie on one strided line.
fn places_on_line(
    alloc: Global,
    row: &Row<'_>,
    axes: &Axes<'_>,
    mask: &IndexArray<'_>,
) -> Result<Option<PlaceList>, AllocError>
    ensures { IfOk result (λ found. IfSome found (λ v. v ≡ chosen_places row.now axes.now
        (true_numbers 0 (map is_nonzero (numbers_of mask.now))))) }
{
    let Some(line) = line_of(row, axes) else {
        return Ok(None);
    };
    let Some(bytes) = mask_bytes(mask) else {
        return Ok(None);
    };
    let mask = RawBlock::from_slice(alloc, bytes)?;
    Ok(Some(PlaceList::of_trues(Trues { line, mask })))
}

/// Returns the selected byte offsets as a line and a mask, or `None` where the selection is no mask
/// over one line.
pub(crate) fn places_by_mask(
    alloc: Global,
    kept: &KeptWays<'_>,
    numbers: &IndexNumbers<'_, '_>,
    axes: &Axes<'_>,
) -> Result<Option<PlaceList>, AllocError>
    ensures { IfOk result (λ found. IfSome found (λ v. v
        ≡ places_beside kept.now axes.now (numbers_in numbers.now))) }
{
    let IndexNumbers::Trues(mask) = numbers else {
        return Ok(None);
    };
    if kept.before.len() != 1 {
        return Ok(None);
    }
    let row = Row {
        start: i128::from(kept.offset) + kept.before[0],
        ways: kept.behind,
        is_near: false,
    };
    places_on_line(alloc, &row, axes, mask)
}
