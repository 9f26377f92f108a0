//! `Cycle`: an operand whose numbers repeat after a short period, as a row that is broadcast along
//! the first axis.
ghost use Rattle.std.specs.Prelude.{◌≡◌, ◌*◌, ◌<◌, ◌≤◌, ◌++◌, length};
ghost use Rattle.nd_model.specs.Arrays.Element.{size_of};
ghost use Rattle.nd_types.specs.Kinds.{kind_of};
ghost use Rattle.nd_element.specs.Elements.{AreHeld, numbers_at};
ghost use Rattle.nd_ufunc.specs.Loops.Sides.{HasNumbers, Keeps, numbers_on};
ghost use Rattle.nd_ufunc.specs.Loops.Turns.{IsInTurns};

use crate::loops::elements::gather;
use crate::loops::kernel::Side;
use crate::loops::reading::numbers_are_valid;
use nd_assign::Walk;
use nd_types::{Elem, Kind};
use nd_view::View;
use std::marker::Model;

/// The bytes of a cycle's buffer: a chunk, and one period of at most 64 numbers of 8 bytes.
pub const ROOM: usize = 8704;

/// The numbers of a view that repeat after `period` of them. Each chunk is borrowed from one
/// buffer, wherever in the period it begins. A clause sees the list of those that are left, and
/// their kind.
#[derive(Drop)]
pub struct Cycle<'v> {
    // the first numbers, as many as the buffer holds
    first: &'v [u8],
    kind: Kind,
    // after how many numbers they repeat
    period: usize,
    // how many are taken, and how many there are
    at: usize,
    count: usize,
}

impl<'v> Model for Cycle<'v> {
    ghost use Rattle.nd_ufunc.specs.Loops.ElementsLeft.{ElementsLeft};
    ghost use Rattle.nd_ufunc.specs.Loops.Cycles.{cycle_left, IsCycle};

    ghost Value = { ElementsLeft };

    ghost view = { cycle_left };

    ghost invariant = { IsCycle };
}

/// Returns after how many elements the byte offsets of a view repeat: the product of the lengths
/// behind the leading axes of stride 0. An empty view has period 0.
pub(crate) fn period_of(view: &View) -> usize
    ensures { IsInTurns result view.now.places }
{
    let (shape, strides) = (view.shape(), view.strides());
    let mut period = view.count();
    if period == 0 {
        return 0;
    }
    let mut axis = 0;
    while axis < shape.len() && strides[axis] == 0 {
        period /= shape[axis] as usize;
        axis += 1;
    }
    period
}

impl<'v> Cycle<'v> {
    /// Begins with all elements of a view, whose byte offsets repeat after `period`. The first ones
    /// are converted into `room`.
    pub fn new(
        view: &View,
        bytes: &[u8],
        elem: Elem,
        kind: Kind,
        period: usize,
        room: &'v mut [u8; ROOM],
    ) -> Cycle<'v>
        requires held { AreHeld elem bytes.now view.now.places }
        requires keeps { Keeps elem.kind (kind_of kind) }
        requires some { 0 < period }
        requires few { period ≤ 64 }
        requires many { 8704 ≤ size_of (kind_of kind) * length view.now.places }
        requires turns { IsInTurns period view.now.places }
        ensures numbers { result.numbers ≡ numbers_at elem bytes.now view.now.places }
        ensures kind { result.kind ≡ kind_of kind }
    {
        let size = kind.size() as usize;
        let some = ROOM / size;
        let mut walk = Walk::new(view);
        let run = walk.next(some as u64);
        numbers_are_valid(bytes, elem);
        gather(
            &mut room[..some * size],
            kind,
            bytes,
            elem,
            &run,
            &mut walk,
            some,
        );
        Cycle {
            first: &room[..],
            kind,
            period,
            at: 0,
            count: view.count(),
        }
    }

    /// Takes the next `count` numbers.
    pub fn take<'b>(&mut self, count: usize) -> Side<'b>
    where
        'v: 'b,
        requires enough { count ≤ length self.old.numbers }
        requires room { count * size_of self.old.kind ≤ 8192 }
        ensures enough { HasNumbers result count }
        ensures split { self.old.numbers ≡ numbers_on result count ++ self.new.numbers }
        ensures kind { self.new.kind ≡ self.old.kind }
    {
        let size = self.kind.size() as usize;
        let start = self.at % self.period * size;
        self.at += count;
        let first = self.first;
        Side::Each(&first[start..start + count * size], self.kind)
    }

    /// Returns the itemsize of the numbers.
    pub fn size(&self) -> usize
        ensures value { result ≡ size_of self.now.kind }
        ensures range { (0 < result) × (result ≤ 8) }
    {
        self.kind.size() as usize
    }
}
