//! `Elements`: the elements of a view as numbers, taken in C order a chunk at a time.
ghost use Rattle.std.specs.Prelude.{◌≡◌, ◌+◌, ◌*◌, ◌<◌, ◌≤◌, ◌++◌, length, take};
ghost use Rattle.nd_model.specs.Arrays.Element.{size_of};
ghost use Rattle.nd_model.specs.Making.Elementwise.{little};
ghost use Rattle.nd_types.specs.Kinds.{kind_of};
ghost use Rattle.nd_convert.specs.Conversion.Converted.{converted_bytes};
ghost use Rattle.nd_element.specs.Elements.{AreHeld, numbers_at};
ghost use Rattle.nd_ufunc.specs.Loops.Sides.{HasNumbers, Keeps, numbers_on};

use crate::loops::kernel::Side;
use crate::loops::reading::{numbers_are_valid, side_of};
use nd_assign::Walk;
use nd_convert::conversion::convert;
use nd_types::{Elem, Kind};
use nd_view::{Run, View};
use std::marker::Model;

/// The elements that are left of a walk over a view, and the kind that they are converted to. A
/// clause sees the list of the numbers, and the kind.
#[derive(Drop)]
pub struct Elements<'v> {
    bytes: &'v [u8],
    elem: Elem,
    kind: Kind,
    walk: Walk<'v>,
}

impl<'v> Model for Elements<'v> {
    ghost use Rattle.nd_ufunc.specs.Loops.ElementsLeft.{ElementsLeft, elements_left, AreElements};

    ghost Value = { ElementsLeft };

    ghost view = { elements_left };

    ghost invariant = { AreElements };
}

/// Converts the elements of a run, and the next elements of the walk, until `out` holds `count`
/// numbers.
pub(crate) fn gather(
    out: &mut [u8],
    kind: Kind,
    bytes: &[u8],
    elem: Elem,
    first: &Run,
    walk: &mut Walk<'_>,
    count: usize,
)
    requires out { length out.old ≡ count * size_of (kind_of kind) }
    requires first { length first.now ≤ count }
    requires enough { count ≤ length first.now + length walk.old }
    ensures walk { first.now ++ walk.old ≡ take count (first.now ++ walk.old) ++ walk.new }
    ensures bytes { out.new ≡ converted_bytes (little (kind_of kind)) elem bytes.now
        (take count (first.now ++ walk.old)) }
{
    let size = kind.size() as usize;
    let mut at = first.count() as usize;
    convert(
        &mut out[..at * size],
        Elem::little(kind),
        bytes,
        elem,
        first,
    );
    while at < count {
        let run = walk.next((count - at) as u64);
        let end = at + run.count() as usize;
        convert(
            &mut out[at * size..end * size],
            Elem::little(kind),
            bytes,
            elem,
            &run,
        );
        at = end;
    }
}

/// Takes the next `count` numbers of a walk. They are borrowed where they are contiguous and of
/// this kind already, else converted into the buffer.
pub fn take_numbers<'b>(
    walk: &mut Walk<'_>,
    buffer: &'b mut [u8],
    kind: Kind,
    bytes: &'b [u8],
    elem: Elem,
    count: usize,
) -> Side<'b>
    requires some { 0 < count }
    requires enough { count ≤ length walk.old }
    requires held { AreHeld elem bytes.now walk.old }
    requires keeps { Keeps elem.kind (kind_of kind) }
    requires buffer { count * size_of (kind_of kind) ≤ length buffer.old }
    ensures enough { HasNumbers result count }
    ensures walk { walk.old ≡ take count walk.old ++ walk.new }
    ensures numbers { numbers_on result count ≡ numbers_at elem bytes.now (take count walk.old) }
{
    let run = walk.next(count as u64);
    if run.count() == count as u64 {
        return side_of(buffer, kind, bytes, elem, &run);
    }
    numbers_are_valid(bytes, elem);
    let end = count * kind.size() as usize;
    gather(&mut buffer[..end], kind, bytes, elem, &run, walk, count);
    Side::Each(&buffer[..end], kind)
}

impl<'v> Elements<'v> {
    /// Begins with all elements of a view.
    pub fn new(view: &'v View, bytes: &'v [u8], elem: Elem, kind: Kind) -> Elements<'v>
        requires held { AreHeld elem bytes.now view.now.places }
        requires keeps { Keeps elem.kind (kind_of kind) }
        ensures numbers { result.numbers ≡ numbers_at elem bytes.now view.now.places }
        ensures kind { result.kind ≡ kind_of kind }
    {
        Elements {
            bytes,
            elem,
            kind,
            walk: Walk::new(view),
        }
    }

    /// Takes the next `count` numbers, which may lie in the buffer.
    pub fn take<'b>(&mut self, buffer: &'b mut [u8], count: usize) -> Side<'b>
    where
        'v: 'b,
        requires some { 0 < count }
        requires enough { count ≤ length self.old.numbers }
        requires buffer { count * size_of self.old.kind ≤ length buffer.old }
        ensures enough { HasNumbers result count }
        ensures split { self.old.numbers ≡ numbers_on result count ++ self.new.numbers }
        ensures kind { self.new.kind ≡ self.old.kind }
    {
        let bytes = self.bytes;
        take_numbers(&mut self.walk, buffer, self.kind, bytes, self.elem, count)
    }
    /// Returns the itemsize of the converted numbers.
    pub fn size(&self) -> usize
        ensures value { result ≡ size_of self.now.kind }
        ensures range { (0 < result) × (result ≤ 8) }
    {
        self.kind.size() as usize
    }
}
