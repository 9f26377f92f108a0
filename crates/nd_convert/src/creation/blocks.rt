//! `zeros`, `full` and `range`: the blocks of new contiguous arrays.

ghost use Rattle.std.specs.Prelude.{◌≡◌, ◌≤◌, ◌^◌, ◌+ℤ◌, ◌*ℤ◌, pos, [], ◌∷◌, IfOk};
ghost use Rattle.nd_model.specs.Arrays.Content.{Num, array_bytes};
ghost use Rattle.nd_model.specs.Making.Creation.{zero_content};
ghost use Rattle.nd_model.specs.Arrays.Tuple.{first_index};
ghost use Rattle.nd_model.specs.Arrays.View.{One};

use crate::creation::filling::{fill, fill_up};
use nd_block::RawBlock;
use nd_types::Elem;
use nd_view::View;
use std::alloc::{AllocError, Global};

/// Returns the block of a new contiguous array whose numbers, those of fields too, are 0
/// (`np.zeros`).
pub fn zeros(alloc: Global, view: &View) -> Result<RawBlock, AllocError>
    ensures { IfOk result (λ b. b ≡ array_bytes view.now.element view.now.shape
        (λ t. zero_content view.now.element)) }
{
    RawBlock::zeros(alloc, view.count() * view.elem().size() as usize)
}

/// Returns the block of a new contiguous array of copies of one number (`np.full`). A number
/// outside the kind is wrapped: 300 as `uint8` is 44.
pub fn full(alloc: Global, view: &View, elem: Elem, number: i128) -> Result<RawBlock, AllocError>
    ensures { IfOk result (λ b. b ≡ array_bytes (One elem) view.now.shape (λ t. Num number)) }
{
    let count = view.count();
    let mut block = RawBlock::zeros(alloc, count * elem.size() as usize)?;
    fill(block.as_mut_slice(), elem, number, count);
    Ok(block)
}

/// Returns the block of a new array of one axis with `n` numbers that lie `step` apart
/// (`np.arange`). Three from 5 on by 2 are `5 7 9`. A number outside the kind is wrapped.
pub fn range(
    alloc: Global,
    elem: Elem,
    start: i128,
    step: i128,
    n: usize,
) -> Result<RawBlock, AllocError>
    requires { n ≤ 2 ^ 24 }
    ensures { IfOk result (λ b. b ≡ array_bytes (One elem) (n ∷ [])
        (λ t. Num (start +ℤ (pos (first_index t) *ℤ step)))) }
{
    let mut block = RawBlock::zeros(alloc, n * elem.size() as usize)?;
    fill_up(block.as_mut_slice(), elem, start, step, n);
    Ok(block)
}
