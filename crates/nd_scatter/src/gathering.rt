//! `gather`: a new array of the elements at selected byte offsets.
ghost use Rattle.std.specs.Prelude.{◌≡◌, ◌+◌, ◌*◌, ◌^◌, ◌≤◌, length, replicate, IfOk};
ghost use Rattle.std.specs.List.{All, flat_map};
ghost use Rattle.nd_model.specs.Arrays.Strides.{IsInLimits};
ghost use Rattle.nd_model.specs.Arrays.Tuple.{elements_of};
ghost use Rattle.nd_model.specs.Arrays.View.{One, contiguous, item_size};
ghost use Rattle.nd_types.specs.Types.{type_of};
ghost use Rattle.nd_element.specs.Elements.{canonical_at, canonical_bytes, canonical_structure};
ghost use Rattle.nd_index.specs.Advanced.Chosen.{view_at};

use crate::masked::{append_trues, inner_trues};
use crate::numbers::append_numbers;
use nd_block::{Filling, RawBlock};
use nd_element::write_structure;
use nd_index::advanced::ChosenPlaces;
use nd_places::PlaceList;
use nd_types::{Elem, ElemType, RecType};
use nd_view::View;
use std::alloc::{AllocError, Global};

// How many byte offsets are worked out at a time.
const MANY: usize = 512;

// The block of the `count` numbers at these byte offsets.
fn read_many(
    alloc: Global,
    elem: Elem,
    bytes: &[u8],
    places: &PlaceList,
    count: usize,
) -> Result<RawBlock, AllocError>
    requires count { length places.now ≡ count }
    requires few { count ≤ 2 ^ 24 }
    ensures { IfOk result (λ b. b ≡ flat_map (canonical_at (One elem) bytes.now) places.now) }
{
    let mut out = Filling::with_room(alloc, count * elem.size() as usize)?;
    if let Some(trues) = inner_trues(elem, places, bytes.len()) {
        out = append_trues(out, elem, bytes, trues);
        return Ok(out.finish());
    }
    let mut some = [0; MANY];
    let mut walk = places.walk();
    while let Some(part) = walk.next(&mut some) {
        out = append_numbers(out, elem, bytes, part);
    }
    Ok(out.finish())
}

// Writes the structures at these byte offsets one after another, over zeros that have room for
// them.
fn read_structures(out: &mut [u8], structure: &RecType, bytes: &[u8], places: &[u64])
    requires zeros { out.old ≡ replicate (length places.now * structure.now.1) 0 }
    requires ends { All (λ p. p + structure.now.1 ≤ 2 ^ 64) places.now }
    ensures { out.new ≡ flat_map (canonical_structure structure.now bytes.now) places.now }
{
    let size = structure.size() as usize;
    for (index, place) in places.iter().enumerate() {
        let at = index * size;
        write_structure(&mut out[at..at + size], bytes, *place, structure);
    }
}

// The block of the structures at these byte offsets.
fn read_records(
    alloc: Global,
    structure: &RecType,
    bytes: &[u8],
    places: &PlaceList,
) -> Result<RawBlock, AllocError>
    requires few { length places.now ≤ 2 ^ 24 }
    requires ends { All (λ p. p + structure.now.1 ≤ 2 ^ 64) places.now }
    ensures { IfOk result (λ b. b ≡ flat_map (canonical_structure structure.now bytes.now)
        places.now) }
{
    let mut room = Vec::new(alloc);
    let places = places.lend(&mut room)?;
    let mut block = RawBlock::zeros(alloc, places.len() * structure.size() as usize)?;
    read_structures(block.as_mut_slice(), structure, bytes, places);
    Ok(block)
}

// The block of the `count` elements at these byte offsets.
fn read_elements(
    alloc: Global,
    elem: &ElemType,
    bytes: &[u8],
    places: &PlaceList,
    count: usize,
) -> Result<RawBlock, AllocError>
    requires count { length places.now ≡ count }
    requires few { count ≤ 2 ^ 24 }
    requires ends { All (λ p. p + item_size (type_of elem.now) ≤ 2 ^ 64) places.now }
    ensures { IfOk result (λ b. b ≡ flat_map (canonical_at (type_of elem.now) bytes.now)
        places.now) }
{
    match elem {
        ElemType::One(elem) => read_many(alloc, *elem, bytes, places, count),
        ElemType::Rec(structure) => read_records(alloc, structure, bytes, places),
    }
}

/// Returns a new contiguous array of the selected elements of a view, and its block.
///
/// The array has the shape of `places` and the view's dtype: `x[[2, 0]]` of `[5 6 7]` gives
/// `[7 5]`. A Boolean becomes 0 or 1, and pad bytes become 0. A byte past the end reads as 0.
pub fn gather(
    alloc: Global,
    view: &View,
    bytes: &[u8],
    places: &ChosenPlaces,
) -> Result<(View, RawBlock), AllocError>
    requires limits { IsInLimits (item_size view.now.element) places.now.shape.items }
    requires count { length places.now.places ≡ elements_of places.now.shape.items }
    requires ends { All (λ p. p + item_size view.now.element ≤ 2 ^ 64) places.now.places }
    ensures array { IfOk result (λ r. r.0 ≡ contiguous view.now.element places.now.shape.items) }
    ensures bytes { IfOk result (λ r. r.1 ≡ canonical_bytes (view_at view.now places.now)
        bytes.now) }
{
    let array = View::contiguous(alloc, view.elem().try_clone()?, places.shape.as_slice())?;
    let block = read_elements(alloc, view.elem(), bytes, &places.places, array.count())?;
    Ok((array, block))
}
