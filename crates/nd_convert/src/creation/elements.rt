//! `repeat` and `list`: the blocks of new arrays whose elements are given.

ghost use Rattle.std.specs.Prelude.{◌≡◌, length, map, IfOk};
ghost use Rattle.std.specs.List.{flat_map};
ghost use Rattle.nd_model.specs.Arrays.Content.{Num, array_bytes, content_in_order};
ghost use Rattle.nd_model.specs.Arrays.Tuple.{indices};
ghost use Rattle.nd_model.specs.Arrays.View.{One, item_size};

use crate::creation::filling::fill_in_turn;
use nd_block::{Filling, RawBlock};
use nd_types::Elem;
use nd_view::View;
use std::alloc::{AllocError, Global};

/// Returns the block of a new contiguous array whose elements all have these bytes, as many as the
/// itemsize.
pub fn repeat(alloc: Global, view: &View, element: &[u8]) -> Result<RawBlock, AllocError>
    requires { length element.now ≡ item_size view.now.element }
    ensures { IfOk result (λ b. b ≡ flat_map (λ t. element.now) (indices view.now.shape)) }
{
    let size = view.elem().size() as usize;
    let count = view.count();
    let mut block = Filling::with_room(alloc, count * size)?;
    for _ in 0..count {
        block.push(element);
    }
    Ok(block.finish())
}

/// Returns the block of a new contiguous array with these numbers in C order (`np.array`). A number
/// outside the kind is wrapped.
pub fn list(
    alloc: Global,
    view: &View,
    elem: Elem,
    numbers: &[i128],
) -> Result<RawBlock, AllocError>
    requires { length numbers.now ≡ length view.now.places }
    ensures { IfOk result (λ b. b ≡ array_bytes (One elem) view.now.shape
        (content_in_order view.now.shape (map Num numbers.now))) }
{
    // proof: the number of elements is bounded, by the clause of count().
    let _count = view.count();
    let mut block = RawBlock::zeros(alloc, numbers.len() * elem.size() as usize)?;
    fill_in_turn(block.as_mut_slice(), elem, numbers);
    Ok(block)
}
