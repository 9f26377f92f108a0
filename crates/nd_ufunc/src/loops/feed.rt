//! `Feed`: reads the numbers of an operand in order, whatever its layout.
ghost use Rattle.std.specs.Prelude.{◌≡◌, ◌*◌, ◌^◌, ◌<◌, ◌≤◌, ◌++◌, length, IsTrue};
ghost use Rattle.nd_types.specs.Kinds.{kind_of};
ghost use Rattle.nd_element.specs.Elements.{AreHeld, numbers_at};
ghost use Rattle.nd_ufunc.specs.Loops.Feeds.{numbers_left, size_left};
ghost use Rattle.nd_ufunc.specs.Loops.Sides.{HasNumbers, Keeps, numbers_on};

use crate::loops::chunks::CHUNK;
use crate::loops::cycle::{Cycle, ROOM, period_of};
use crate::loops::elements::Elements;
use crate::loops::kernel::Side;
use crate::loops::laid_out::LaidOut;
use crate::loops::lent::Lent;
use crate::loops::repeated::Repeated;
use nd_types::{Elem, Kind};
use nd_view::View;

/// What is left of an operand's numbers: a scalar, once or laid out, a short broadcast period, a borrowed contiguous
/// slice, or strided elements that are converted a chunk at a time.
#[derive(Drop)]
pub enum Feed<'v> {
    Number(Repeated),
    LaidOut(LaidOut<'v>),
    Cycle(Cycle<'v>),
    Lent(Lent<'v>),
    All(Elements<'v>),
}

// Whether a period of numbers is short, and the `count` numbers of it fill the buffer of a cycle.
fn is_cycle(period: usize, size: usize, count: usize) -> bool
    requires { size * count ≤ 2 ^ 27 }
    ensures some { IsTrue result → 0 < period }
    ensures few { IsTrue result → period ≤ 64 }
    ensures many { IsTrue result → 8704 ≤ size * count }
{
    1 < period && period <= 64 && ROOM <= size * count
}

impl<'v> Feed<'v> {
    /// Begins with all elements of a view, converted to `kind`. A cycle keeps its numbers in
    /// `room`.
    pub fn of_view(
        view: &'v View,
        bytes: &'v [u8],
        elem: Elem,
        kind: Kind,
        room: &'v mut [u8; ROOM],
    ) -> Feed<'v>
        requires held { AreHeld elem bytes.now view.now.places }
        requires keeps { Keeps elem.kind (kind_of kind) }
        ensures { numbers_left result ≡ numbers_at elem bytes.now view.now.places }
    {
        let period = period_of(view);
        if is_cycle(period, kind.size() as usize, view.count()) {
            return Feed::Cycle(Cycle::new(view, bytes, elem, kind, period, room));
        }
        if let Some(lent) = Lent::new(view, bytes, elem, kind) {
            return Feed::Lent(lent);
        }
        Feed::All(Elements::new(view, bytes, elem, kind))
    }

    /// Takes the next `count` numbers, which may lie in the buffer.
    pub fn take<'b>(&mut self, buffer: &'b mut [u8; CHUNK], count: usize) -> Side<'b>
    where
        'v: 'b,
        requires some { 0 < count }
        requires enough { count ≤ length (numbers_left self.old) }
        requires buffer { count * size_left self.old ≤ 8192 }
        ensures enough { HasNumbers result count }
        ensures split { numbers_left self.old ≡ numbers_on result count ++ numbers_left self.new }
        ensures size { size_left self.new ≡ size_left self.old }
    {
        match self {
            Feed::Number(number) => Side::Same(number.take(count)),
            Feed::LaidOut(numbers) => numbers.take(count),
            Feed::Cycle(cycle) => cycle.take(count),
            Feed::Lent(lent) => lent.take(count),
            Feed::All(elements) => elements.take(buffer, count),
        }
    }

    /// Returns the itemsize of the converted numbers: 1 for a scalar and a borrowed slice, which
    /// take no room in the buffer.
    pub fn size(&self) -> usize
        ensures value { result ≡ size_left self.now }
        ensures range { (0 < result) × (result ≤ 8) }
    {
        match self {
            Feed::Number(_) | Feed::Lent(_) => 1,
            Feed::LaidOut(numbers) => numbers.size(),
            Feed::Cycle(cycle) => cycle.size(),
            Feed::All(elements) => elements.size(),
        }
    }
}
