//! `Stretched`: an operand, broadcast to the shape of the results.
ghost use Rattle.std.specs.Prelude.{◌≡◌, ◌≢◌, ℕ, None, true, IfOk, IfSome, IsTrue};
ghost use Rattle.nd_model.specs.Arrays.Broadcast.{broadcasts_to, broadcast_view};
ghost use Rattle.nd_model.specs.Arrays.Element as element;
ghost use Rattle.nd_model.specs.Making.Elementwise.{operand_sort};
ghost use Rattle.nd_model.specs.Making.Operand as operand;
ghost use Rattle.nd_model.specs.Arrays.Strides.{IsInLimits};
ghost use Rattle.nd_model.specs.Arrays.Tuple.{elements_of};
ghost use Rattle.nd_model.specs.Arrays.View.{One};
ghost use Rattle.nd_element.specs.Elements.{AreHeld, numbers_at};
ghost use Rattle.nd_types.specs.Kinds.{kind_of};
ghost use Rattle.nd_ufunc.specs.Elementwise.Arguments.{LiesInBlock, argument_of, numbers_beside};
ghost use Rattle.nd_ufunc.specs.Loops.Feeds.{numbers_left};
ghost use Rattle.nd_ufunc.specs.Loops.Sides.{HasNumbers, Keeps, numbers_on};
ghost use Rattle.nd_ufunc.specs.Elementwise.Stretched.{HasCount, IsHeld, stretched_numbers};

use crate::elementwise::argument::Argument;
use crate::loops::{Feed, LaidOut, ROOM, Repeated, Side, lend};
use crate::scalar::whole_number;
use nd_shape::broadcast_to;
use nd_types::{Elem, ElemType, Kind, fits, highest, lowest};
use nd_view::View;
use std::alloc::{AllocError, Global};

/// An operand, broadcast to a shape: one number for all elements, or elements in the bytes of their
/// block.
#[derive(Drop)]
pub(crate) enum Stretched<'v> {
    Number(i128),
    Elements(View, Elem, &'v [u8]),
}

/// Returns a view, broadcast to a shape, which is known to be possible.
pub(crate) fn stretch_view(
    alloc: Global,
    view: &View,
    elem: Elem,
    shape: &[u64],
) -> Result<View, AllocError>
    requires numbers { view.now.element ≡ One elem }
    requires limits { (k : element.Kind) → IsInLimits (element.size_of k) shape.now }
    requires fits { broadcasts_to view.now.shape shape.now ≡ true }
    ensures { IfOk result (λ v. v ≡ broadcast_view view.now shape.now) }
{
    // proof: `elem` stands in the clauses alone.
    let _elem = elem;
    match broadcast_to(alloc, view, shape)? {
        Ok(stretched) => Ok(stretched),
        Err(_) => unreachable!(),
    }
}

/// Returns an operand of numbers, broadcast to a shape, which is known to be possible.
pub(crate) fn stretch<'v>(
    alloc: Global,
    argument: Argument<'v>,
    shape: &[u64],
) -> Result<Stretched<'v>, AllocError>
    requires numbers { operand_sort (argument_of argument) ≢ None }
    requires lies { LiesInBlock argument }
    requires limits { (k : element.Kind) → IsInLimits (element.size_of k) shape.now }
    requires fits { broadcasts_to (operand.shape_of (argument_of argument)) shape.now ≡ true }
    ensures numbers { IfOk result (λ s. stretched_numbers s (elements_of shape.now)
        ≡ numbers_beside (argument_of argument.entry) shape.now) }
    ensures held { IfOk result IsHeld }
{
    match argument {
        Argument::Number(number) => Ok(Stretched::Number(whole_number(number))),
        Argument::Elements(view, bytes) => match view.elem() {
            ElemType::One(elem) => {
                let stretched = stretch_view(alloc, view, *elem, shape)?;
                Ok(Stretched::Elements(stretched, *elem, bytes))
            }
            ElemType::Rec(_) => unreachable!(),
        },
    }
}

// Whether a kind has each number of the kind `of`.
fn has_numbers_of(kind: Kind, of: Kind) -> bool
    ensures { IsTrue result → Keeps (kind_of of) (kind_of kind) }
{
    lowest(kind) <= lowest(of) && highest(of) <= highest(kind)
}

/// Returns the kind in which an operand is read: the wanted one where it has all its numbers, else
/// the operand's own.
pub(crate) fn side_kind(kind: Kind, own: Kind) -> Kind
    ensures { Keeps (kind_of own) (kind_of result) }
{
    if has_numbers_of(kind, own) { kind } else { own }
}

impl<'v> Stretched<'v> {
    /// Returns the elements of a view, which has the shape already. An error means want of memory.
    pub(crate) fn of_view(
        view: &View,
        elem: Elem,
        bytes: &'v [u8],
    ) -> Result<Stretched<'v>, AllocError>
        requires { AreHeld elem bytes.now view.now.places }
        ensures held { IfOk result IsHeld }
        ensures numbers { IfOk result (λ s. (count : ℕ) → stretched_numbers s count
            ≡ numbers_at elem bytes.now view.now.places) }
    {
        let view = view.try_clone()?;
        Ok(Stretched::Elements(view, elem, bytes))
    }

    /// Returns an operand of the same numbers. An error means want of memory.
    pub(crate) fn try_clone(&self) -> Result<Stretched<'v>, AllocError>
        requires { IsHeld self.now }
        ensures held { IfOk result IsHeld }
        ensures numbers { IfOk result (λ s. (count : ℕ) → stretched_numbers s count
            ≡ stretched_numbers self.now count) }
    {
        match self {
            Stretched::Number(number) => Ok(Stretched::Number(*number)),
            Stretched::Elements(view, elem, bytes) => Stretched::of_view(view, *elem, bytes),
        }
    }

    /// Returns all numbers where they lie, if they need not be gathered or converted: a number for
    /// all, or contiguous ones of `kind`, or of their own kind where that does not keep them.
    pub(crate) fn side(&self, kind: Kind) -> Option<Side<'v>>
        requires { IsHeld self.now }
        ensures enough { IfSome result (λ s. (count : ℕ) → HasCount self.now count
            → HasNumbers s count) }
        ensures numbers { IfSome result (λ s. (count : ℕ) → HasCount self.now count
            → numbers_on s count ≡ stretched_numbers self.now count) }
    {
        match self {
            Stretched::Number(number) => Some(Side::Same(*number)),
            Stretched::Elements(view, elem, bytes) => {
                let run = view.contiguous_run(elem.size())?;
                let kind = side_kind(kind, elem.kind());
                let lent = lend(kind, bytes, *elem, &run)?;
                Some(Side::Each(lent, kind))
            }
        }
    }

    /// Begins with all `count` numbers, converted to `kind` where that keeps them. A cycle keeps
    /// its numbers in `room`.
    pub(crate) fn begin<'b>(
        &'b self,
        kind: Kind,
        count: usize,
        room: &'b mut [u8; ROOM],
    ) -> Feed<'b>
        requires { IsHeld self.now }
        ensures { numbers_left result ≡ stretched_numbers self.now count }
    {
        match self {
            Stretched::Number(number) => Feed::Number(Repeated::new(*number, count)),
            Stretched::Elements(view, elem, bytes) => {
                let kind = side_kind(kind, elem.kind());
                Feed::of_view(view, bytes, *elem, kind, room)
            }
        }
    }

    /// Begins with all `count` numbers as [`Stretched::begin`], but a scalar that fits `kind` is
    /// laid out in `room`, for loops that are vectorised over two arrays alone.
    pub(crate) fn begin_laid_out<'b>(
        &'b self,
        kind: Kind,
        count: usize,
        room: &'b mut [u8; ROOM],
    ) -> Feed<'b>
        requires { IsHeld self.now }
        ensures { numbers_left result ≡ stretched_numbers self.now count }
    {
        match self {
            Stretched::Number(number) if fits(kind, *number) => {
                Feed::LaidOut(LaidOut::new(*number, kind, count, room))
            }
            _ => self.begin(kind, count, room),
        }
    }

    /// Returns the kind of the elements, `None` for a number.
    pub(crate) fn kind(&self) -> Option<Kind> {
        match self {
            Stretched::Number(_) => None,
            Stretched::Elements(_, elem, _) => Some(elem.kind()),
        }
    }
}
