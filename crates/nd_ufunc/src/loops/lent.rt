//! `Lent`: an operand that is read where it lies, contiguous and of the wanted kind.
ghost use Rattle.std.specs.Prelude.{◌≡◌, ◌*◌, ◌≤◌, ◌++◌, length, IfSome};
ghost use Rattle.nd_model.specs.Arrays.Element.{size_of};
ghost use Rattle.nd_types.specs.Kinds.{kind_of};
ghost use Rattle.nd_element.specs.Elements.{AreHeld, numbers_at};
ghost use Rattle.nd_ufunc.specs.Loops.Sides.{HasNumbers, numbers_on};

use crate::loops::kernel::Side;
use crate::loops::parts::side_behind;
use crate::loops::reading::lend;
use nd_types::{Elem, Kind};
use nd_view::View;
use std::marker::Model;

/// What is left of contiguous numbers of the wanted kind. They need no buffer, so a chunk of any
/// length is borrowed. A clause sees the list of them.
#[derive(Drop)]
pub struct Lent<'v> {
    side: Side<'v>,
    count: usize,
}

impl<'v> Model for Lent<'v> {
    ghost use Rattle.std.specs.Prelude.{List, ℤ};
    ghost use Rattle.nd_ufunc.specs.Loops.Lending.{lent_left, IsLent};

    ghost Value = { List ℤ };

    ghost view = { lent_left };

    ghost invariant = { IsLent };
}

impl<'v> Lent<'v> {
    /// Begins with all elements of a view, or returns `None` where they are not contiguous
    /// little-endian numbers of this kind.
    pub fn new(view: &View, bytes: &'v [u8], elem: Elem, kind: Kind) -> Option<Lent<'v>>
        requires { AreHeld elem bytes.now view.now.places }
        ensures { IfSome result (λ l. l ≡ numbers_at elem bytes.now view.now.places) }
    {
        let run = view.contiguous_run(elem.size())?;
        let lent = lend(kind, bytes, elem, &run)?;
        Some(Lent {
            side: Side::Each(lent, kind),
            count: run.count() as usize,
        })
    }

    /// Takes the next `count` numbers.
    pub fn take(&mut self, count: usize) -> Side<'v>
        requires { count ≤ length self.old }
        ensures enough { HasNumbers result count }
        ensures split { self.old ≡ numbers_on result count ++ self.new }
    {
        let side = self.side;
        self.side = side_behind(side, count);
        self.count -= count;
        side
    }
}
