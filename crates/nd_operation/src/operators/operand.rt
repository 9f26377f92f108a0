//! `Operand` and `New`: values as operations take and make them. A value that is not used is an
//! operand as it stands.

ghost use Rattle.std.specs.Prelude.{length};
ghost use Rattle.nd_model.specs.Cells.Sound.{LiesIn};

use nd_block::RawBlock;
use nd_types::Num;
use nd_view::View;

/// The elements of an array or a row, with the block that they lie in.
#[derive(Clone, Copy)]
pub struct BorrowedArray<'v> {
    pub view: &'v View,
    pub block: &'v [u8],
    pub is_row: bool,
    ghost held: { LiesIn (length block.now) view.now },
}

/// An operand whose elements are used: a number, or all elements of an array or a row.
#[derive(Clone, Copy)]
pub enum Operand<'v> {
    Number(Num),
    Elements(BorrowedArray<'v>),
}

/// A result: a number, or a new array in a block of its own.
#[derive(Drop)]
pub enum New {
    Number(Num),
    Array(View, RawBlock),
}
