//! The elements of an array as an operand: its contents, its first number.

ghost use Rattle.std.specs.Prelude.{◌≡◌, map};
ghost use Rattle.nd_model.specs.Arrays.Content.{content_at, content_or, number_in};
ghost use Rattle.nd_operation.specs.Operators.Contents.{contents_over, operand_of};
ghost use Rattle.nd_operation.specs.Operators.New.{NewLies, operand_of_new};

use crate::operators::operand::{BorrowedArray, New, Operand};
use nd_element::number_in;
use nd_types::ElemType;

impl BorrowedArray<'_> {
    /// proof: the contents are those at the view's byte offsets in the block.
    pub fn soundness(&self)
        ensures { contents_over self.now.view.now self.now.block.now
            ≡ map (content_at self.now.view.now.element self.now.block.now)
            self.now.view.now.places }
    {
        match self.view.elem() {
            ElemType::One(_) => {}
            ElemType::Rec(structure) => {
                structure.fields();
            }
        }
    }

    /// Returns the first number, 0 where there is none.
    pub(crate) fn first_number(&self) -> i128
        ensures { result
            ≡ number_in (content_or (contents_over self.now.view.now self.now.block.now) 0) }
    {
        match self.view.elem() {
            ElemType::One(elem) if self.view.count() != 0 => {
                number_in(self.block, self.view.offset(), *elem)
            }
            _ => 0,
        }
    }
}

impl New {
    /// Returns the result as an operand of another operation, with all elements used.
    pub fn operand(&self) -> Operand<'_>
        requires { NewLies self.now }
        ensures { operand_of result ≡ operand_of_new self.now }
    {
        match self {
            New::Number(number) => Operand::Number(*number),
            New::Array(view, block) => Operand::Elements(BorrowedArray {
                view,
                block: block.as_slice(),
                is_row: false,
            }),
        }
    }
}
