//! `OwnElements`: an operand that lies in the target's block, which is written to between its
//! chunks.
ghost use Rattle.std.specs.Prelude.{◌≡◌, ◌*◌, ◌<◌, ◌≤◌, ◌++◌, length, take};
ghost use Rattle.nd_model.specs.Arrays.Element.{size_of};
ghost use Rattle.nd_types.specs.Kinds.{kind_of};
ghost use Rattle.nd_element.specs.Elements.{AreHeld, numbers_at};
ghost use Rattle.nd_ufunc.specs.Loops.Sides.{HasNumbers, Keeps, numbers_on};

use crate::loops::{Side, take_numbers};
use nd_assign::Walk;
use nd_types::{Elem, Kind};
use nd_view::View;

/// The elements that are left of a walk over the target's block.
#[derive(Drop)]
pub(crate) struct OwnElements<'v> {
    walk: Walk<'v>,
    elem: Elem,
    kind: Kind,
    ghost keeps: { Keeps elem.kind (kind_of kind) },
}

impl<'v> OwnElements<'v> {
    /// Begins with all elements of a view, whose numbers are converted to `kind`.
    pub(crate) fn new(view: &'v View, elem: Elem, kind: Kind) -> OwnElements<'v>
        requires { Keeps elem.kind (kind_of kind) }
        ensures walk { result.walk ≡ view.now.places }
        ensures elem { result.elem ≡ elem }
        ensures kind { result.kind ≡ kind }
    {
        OwnElements {
            walk: Walk::new(view),
            elem,
            kind,
        }
    }

    /// Takes the next `count` numbers, as the block holds them now.
    pub(crate) fn take<'b>(
        &mut self,
        buffer: &'b mut [u8],
        block: &'b [u8],
        count: usize,
    ) -> Side<'b>
        requires some { 0 < count }
        requires enough { count ≤ length self.old.walk }
        requires held { AreHeld self.old.elem block.now self.old.walk }
        requires buffer { count * size_of (kind_of self.old.kind) ≤ length buffer.old }
        ensures enough { HasNumbers result count }
        ensures elem { self.new.elem ≡ self.old.elem }
        ensures kind { self.new.kind ≡ self.old.kind }
        ensures walk { self.old.walk ≡ take count self.old.walk ++ self.new.walk }
        ensures numbers { numbers_on result count
            ≡ numbers_at self.old.elem block.now (take count self.old.walk) }
    {
        take_numbers(&mut self.walk, buffer, self.kind, block, self.elem, count)
    }
    /// Returns the itemsize of the converted numbers.
    pub(crate) fn size(&self) -> usize
        ensures value { result ≡ size_of (kind_of self.now.kind) }
        ensures range { (0 < result) × (result ≤ 8) }
    {
        self.kind.size() as usize
    }
}
