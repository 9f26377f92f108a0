//! `convert_numbers` and `copy_elements`: the blocks of new contiguous arrays with the elements of
//! a view.
ghost use Rattle.std.specs.Prelude.{◌≡◌, map, IfOk};
ghost use Rattle.std.specs.List.{flat_map};
ghost use Rattle.nd_model.specs.Arrays.Content.{array_bytes, content_at, content_in_order};
ghost use Rattle.nd_model.specs.Making.Conversion.{converted_content};
ghost use Rattle.nd_model.specs.Arrays.View.{One, Structure};
ghost use Rattle.nd_element.specs.Elements.{canonical_structure};

use crate::conversion::numbers::convert_view;
use crate::conversion::structures::copy_view;
use nd_block::RawBlock;
use nd_types::{Elem, ElemType, RecType};
use nd_view::View;
use std::alloc::{AllocError, Global};

/// Returns the block of a contiguous array with the numbers of a view, converted to the dtype `to`
/// (`ndarray.astype`).
///
/// Each number is wrapped to the kind, in two's complement where that is signed; for a Boolean it
/// is tested for not being zero. `300` as `uint8` gives `44` (NumPy user guide, "Data types"). A
/// byte past the end reads as 0.
pub fn convert_numbers(
    alloc: Global,
    view: &View,
    from: Elem,
    bytes: &[u8],
    to: Elem,
) -> Result<RawBlock, AllocError>
    requires type_is { view.now.element ≡ One from }
    ensures { IfOk result (λ b. b ≡ array_bytes (One to) view.now.shape
        (λ i. converted_content (One to) (content_in_order view.now.shape
        (map (content_at (One from) bytes.now) view.now.places) i))) }
{
    // proof: the number of elements is bounded, by the clause of count().
    let _count = view.count();
    convert_view(alloc, to, bytes, from, view)
}

// The block of a contiguous array with the structures of a view.
fn copy_structures(
    alloc: Global,
    view: &View,
    structure: &RecType,
    bytes: &[u8],
) -> Result<RawBlock, AllocError>
    requires { view.now.element ≡ Structure structure.now.0 structure.now.1 }
    ensures { IfOk result (λ b. b ≡ flat_map (canonical_structure structure.now bytes.now)
        view.now.places) }
{
    let mut block = RawBlock::zeros(alloc, view.count() * structure.size() as usize)?;
    copy_view(block.as_mut_slice(), structure, bytes, view);
    Ok(block)
}

/// Returns the block of a contiguous array with the elements of a view in the view's own dtype
/// (`ndarray.copy`). A Boolean becomes 0 or 1, pad bytes become 0, and a byte past the end reads as
/// 0.
pub fn copy_elements(alloc: Global, view: &View, bytes: &[u8]) -> Result<RawBlock, AllocError>
    ensures { IfOk result (λ b. b ≡ array_bytes view.now.element view.now.shape
        (content_in_order view.now.shape
        (map (content_at view.now.element bytes.now) view.now.places))) }
{
    // proof: the number of elements is bounded, by the clause of count().
    let _count = view.count();
    match view.elem() {
        ElemType::One(elem) => convert_numbers(alloc, view, *elem, bytes, *elem),
        ElemType::Rec(structure) => copy_structures(alloc, view, structure, bytes),
    }
}
