//! `Beside`: the right operand of an operator whose target is written while operands are read.
ghost use Rattle.std.specs.Prelude.{◌≡◌, ◌≢◌, ℕ, List, ◌+◌, ◌*◌, ◌<◌, ◌≤◌, ◌++◌, length, drop, None, true, IfOk, IfSome, IsTrue, ◌↔◌};
ghost use Rattle.nd_model.specs.Arrays.Broadcast.{broadcast_view, broadcasts_to};
ghost use Rattle.nd_model.specs.Arrays.Element as element;
ghost use Rattle.nd_model.specs.Making.Elementwise.{operand_sort};
ghost use Rattle.nd_model.specs.Making.Operand as operand;
ghost use Rattle.nd_model.specs.Arrays.Strides.{IsInLimits};
ghost use Rattle.nd_model.specs.Arrays.Tuple.{elements_of};
ghost use Rattle.nd_model.specs.Arrays.View.{One};
ghost use Rattle.nd_ufunc.specs.Elementwise.Arguments.{numbers_beside};
ghost use Rattle.nd_ufunc.specs.Elementwise.Beside.{HeldBeside, IsBeside, IsFixedHeld, KeepsOffTarget, StaysBeside};
ghost use Rattle.nd_ufunc.specs.Elementwise.Beside.{IsOtherBeside, IsOwnBeside, KeepsOffBroadcast};
ghost use Rattle.nd_ufunc.specs.Elementwise.Beside.{beside_numbers, left_beside, size_beside};
ghost use Rattle.nd_ufunc.specs.Elementwise.Prepared.{IsRightSide, right_operand};
ghost use Rattle.nd_ufunc.specs.Elementwise.Stretched.{IsHeld, stretched_numbers};
ghost use Rattle.nd_ufunc.specs.Loops.Sides.{HasNumbers, numbers_on};

use crate::elementwise::apart::{spread_keeps_off, view_keeps_off};
use crate::elementwise::in_place::RightSide;
use crate::elementwise::own::OwnElements;
use crate::elementwise::spread::{OtherSpread, Spread, SpreadElements};
use crate::elementwise::stretched::{Stretched, side_kind, stretch_view};
use crate::loops::{CHUNK, Feed, ROOM, Side};
use crate::scalar::whole_number;
use nd_types::{Elem, ElemType, Kind};
use nd_view::{View, element_count};
use std::alloc::{AllocError, Global};

/// The right operand, broadcast to the target's shape: numbers that no write to the target changes,
/// or elements of the target's own block. A view of the target's shape is borrowed, and one of many
/// axes is walked in the target's shape.
#[derive(Drop)]
pub(crate) enum Beside<'v> {
    Fixed(Stretched<'v>),
    FixedAlike(&'v View, Elem, &'v [u8]),
    FixedSpread(&'v View, &'v [u64], Elem, &'v [u8]),
    Own(View, Elem),
    OwnAlike(&'v View, Elem),
    OwnSpread(&'v View, &'v [u64], Elem),
}

/// What is left to read of the right operand.
#[derive(Drop)]
pub(crate) enum LeftBeside<'v> {
    Fixed(Feed<'v>),
    FixedSpread(OtherSpread<'v>),
    Own(OwnElements<'v>),
    OwnSpread(SpreadElements<'v>),
}

impl<'v> LeftBeside<'v> {
    /// Takes the next `count` numbers, as the block holds them now. They may lie in the buffer.
    pub(crate) fn take<'b>(
        &mut self,
        buffer: &'b mut [u8; CHUNK],
        block: &'b [u8],
        count: usize,
    ) -> Side<'b>
    where
        'v: 'b,
        requires some { 0 < count }
        requires enough { count ≤ length (left_beside self.old block.now) }
        requires held { HeldBeside self.old (length block.now) }
        requires buffer { count * size_beside self.old ≤ 8192 }
        ensures enough { HasNumbers result count }
        ensures numbers { left_beside self.old block.now
            ≡ numbers_on result count ++ left_beside self.new block.now }
        ensures further { (bytes : List ℕ) → left_beside self.new bytes
            ≡ drop count (left_beside self.old bytes) }
        ensures size { size_beside self.new ≡ size_beside self.old }
        ensures held { (len : ℕ) → HeldBeside self.old len → HeldBeside self.new len }
        ensures stays { (first step at : ℕ) → StaysBeside self.old first step at
            → StaysBeside self.new first step (at + count) }
    {
        match self {
            LeftBeside::Fixed(feed) => feed.take(buffer, count),
            LeftBeside::FixedSpread(elements) => elements.take(buffer, count),
            LeftBeside::Own(elements) => elements.take(buffer, block, count),
            LeftBeside::OwnSpread(elements) => elements.take(buffer, block, count),
        }
    }
    /// Returns the itemsize of the converted numbers: 1 for a scalar, which takes no room in the
    /// buffer.
    pub(crate) fn size(&self) -> usize
        ensures value { result ≡ size_beside self.now }
        ensures range { (0 < result) × (result ≤ 8) }
    {
        match self {
            LeftBeside::Fixed(feed) => feed.size(),
            LeftBeside::FixedSpread(elements) => elements.size(),
            LeftBeside::Own(elements) => elements.size(),
            LeftBeside::OwnSpread(elements) => elements.size(),
        }
    }
}

impl<'v> Beside<'v> {
    /// Begins with all `count` numbers, converted to `kind` where that keeps them. A cycle keeps
    /// its numbers in `room`.
    pub(crate) fn begin<'b>(
        &'b self,
        kind: Kind,
        count: usize,
        room: &'b mut [u8; ROOM],
    ) -> LeftBeside<'b>
        requires fixed { IsFixedHeld self.now }
        ensures numbers { (bytes : List ℕ) → left_beside result bytes
            ≡ beside_numbers self.now count bytes }
        ensures held { (len : ℕ) → IsBeside self.now len → HeldBeside result len }
        ensures stays { (first step : ℕ) → KeepsOffTarget self.now first step
            → StaysBeside result first step 0 }
    {
        match self {
            Beside::Fixed(numbers) => LeftBeside::Fixed(numbers.begin(kind, count, room)),
            Beside::FixedAlike(view, elem, bytes) => {
                let kind = side_kind(kind, elem.kind());
                LeftBeside::Fixed(Feed::of_view(view, bytes, *elem, kind, room))
            }
            Beside::FixedSpread(view, shape, elem, bytes) => {
                let kind = side_kind(kind, elem.kind());
                let elements = SpreadElements::new(view, shape, *elem, kind);
                LeftBeside::FixedSpread(OtherSpread::new(elements, bytes))
            }
            Beside::Own(view, elem) => {
                let kind = side_kind(kind, elem.kind());
                LeftBeside::Own(OwnElements::new(view, *elem, kind))
            }
            Beside::OwnAlike(view, elem) => {
                let kind = side_kind(kind, elem.kind());
                LeftBeside::Own(OwnElements::new(view, *elem, kind))
            }
            Beside::OwnSpread(view, shape, elem) => {
                let kind = side_kind(kind, elem.kind());
                LeftBeside::OwnSpread(SpreadElements::new(view, shape, *elem, kind))
            }
        }
    }

    /// Returns the operand as results of a new array are worked out from it, where the target's
    /// block has these bytes. `None` where it is walked in the target's shape. An error means want
    /// of memory.
    pub(crate) fn stretched<'b>(
        &'b self,
        block: &'b [u8],
    ) -> Result<Option<Stretched<'b>>, AllocError>
        requires { IsBeside self.now (length block.now) }
        ensures held { IfOk result (λ found. IfSome found IsHeld) }
        ensures numbers { IfOk result (λ found. IfSome found (λ s. (count : ℕ)
            → stretched_numbers s count ≡ beside_numbers self.now count block.now)) }
    {
        match self {
            Beside::Fixed(numbers) => Ok(Some(numbers.try_clone()?)),
            Beside::FixedAlike(view, elem, bytes) => {
                Ok(Some(Stretched::of_view(view, *elem, bytes)?))
            }
            Beside::Own(view, elem) => Ok(Some(Stretched::of_view(view, *elem, block)?)),
            Beside::OwnAlike(view, elem) => Ok(Some(Stretched::of_view(view, *elem, block)?)),
            Beside::FixedSpread(_, _, _, _) | Beside::OwnSpread(_, _, _) => Ok(None),
        }
    }

    /// Returns whether writing the target from its first element on overwrites nothing that is
    /// still to be read. The target begins at byte offset `first`, its elements lie `step` bytes
    /// apart.
    pub(crate) fn keeps_off(&self, first: u64, step: u64) -> bool
        requires fixed { IsFixedHeld self.now }
        requires step { step ≤ 8 }
        ensures { IsTrue result ↔ KeepsOffTarget self.now first step }
    {
        match self {
            Beside::Fixed(_) | Beside::FixedAlike(_, _, _) | Beside::FixedSpread(_, _, _, _) =>
                true,
            Beside::Own(view, elem) => view_keeps_off(view, elem.size(), first, step),
            Beside::OwnAlike(view, elem) => view_keeps_off(view, elem.size(), first, step),
            Beside::OwnSpread(view, shape, elem) => {
                let mut places = Spread::new(view, shape);
                spread_keeps_off(&mut places, element_count(shape), elem.size(), first, step)
            }
        }
    }

    /// Returns the kind of the elements, `None` for a number.
    pub(crate) fn kind(&self) -> Option<Kind> {
        match self {
            Beside::Fixed(numbers) => numbers.kind(),
            Beside::FixedAlike(_, elem, _) | Beside::OwnAlike(_, elem) => Some(elem.kind()),
            Beside::FixedSpread(_, _, elem, _) | Beside::OwnSpread(_, _, elem) => Some(elem.kind()),
            Beside::Own(_, elem) => Some(elem.kind()),
        }
    }
}

// The most axes of a view whose shape and strides lie in the view itself.
const FEW_AXES: usize = 8;

// The view in another shape, or `None` where it would take memory, or memory is refused.
fn small_broadcast(alloc: Global, view: &View, elem: Elem, shape: &[u64]) -> Option<View>
    requires element { view.now.element ≡ One elem }
    requires limits { (k : element.Kind) → IsInLimits (element.size_of k) shape.now }
    requires fits { broadcasts_to view.now.shape shape.now ≡ true }
    ensures { IfSome result (λ v. v ≡ broadcast_view view.now shape.now) }
{
    if shape.len() > FEW_AXES {
        return None;
    }
    match stretch_view(alloc, view, elem, shape) {
        Ok(stretched) => Some(stretched),
        Err(_) => None,
    }
}

// Elements of the target's block, broadcast to the target's shape, which is known to be possible.
fn own_beside<'v>(alloc: Global, view: &'v View, elem: Elem, shape: &'v [u64]) -> Beside<'v>
    requires element { view.now.element ≡ One elem }
    requires count { length view.now.places ≡ elements_of view.now.shape }
    requires limits { (k : element.Kind) → IsInLimits (element.size_of k) shape.now }
    requires fits { broadcasts_to view.now.shape shape.now ≡ true }
    ensures { IsOwnBeside result elem (broadcast_view view.now shape.now).places }
{
    if view.shape() == shape {
        return Beside::OwnAlike(view, elem);
    }
    match small_broadcast(alloc, view, elem, shape) {
        Some(stretched) => Beside::Own(stretched, elem),
        None => Beside::OwnSpread(view, shape, elem),
    }
}

// Elements of another block, broadcast to the target's shape, which is known to be possible.
fn other_beside<'v>(
    alloc: Global,
    view: &'v View,
    elem: Elem,
    bytes: &'v [u8],
    shape: &'v [u64],
) -> Beside<'v>
    requires element { view.now.element ≡ One elem }
    requires count { length view.now.places ≡ elements_of view.now.shape }
    requires limits { (k : element.Kind) → IsInLimits (element.size_of k) shape.now }
    requires fits { broadcasts_to view.now.shape shape.now ≡ true }
    ensures { IsOtherBeside result elem bytes.now (broadcast_view view.now shape.now).places }
{
    if view.shape() == shape {
        return Beside::FixedAlike(view, elem, bytes);
    }
    match small_broadcast(alloc, view, elem, shape) {
        Some(stretched) => Beside::Fixed(Stretched::Elements(stretched, elem, bytes)),
        None => Beside::FixedSpread(view, shape, elem, bytes),
    }
}

/// Returns the right operand, broadcast to the target's shape, which is known to be possible. No
/// memory is needed.
pub(crate) fn beside_of<'v>(
    alloc: Global,
    right: RightSide<'v>,
    shape: &'v [u64],
    block: &[u8],
) -> Beside<'v>
    requires right { IsRightSide (length block.now) right }
    requires numbers { operand_sort (right_operand right block.now) ≢ None }
    requires limits { (k : element.Kind) → IsInLimits (element.size_of k) shape.now }
    requires fits { broadcasts_to (operand.shape_of (right_operand right block.now)) shape.now
        ≡ true }
    ensures numbers { (bytes : List ℕ) → length bytes ≡ length block.now
        → beside_numbers result (elements_of shape.now) bytes
        ≡ numbers_beside (right_operand right.entry bytes) shape.now }
    ensures fixed { IsFixedHeld result }
    ensures held { IsBeside result (length block.now) }
    ensures off { (first step : ℕ) → KeepsOffBroadcast right.entry shape.now first step
        → KeepsOffTarget result first step }
{
    match right {
        RightSide::Number(number) => Beside::Fixed(Stretched::Number(whole_number(number))),
        RightSide::Own(view) => match view.elem() {
            ElemType::One(elem) => own_beside(alloc, view, *elem, shape),
            ElemType::Rec(_) => unreachable!(),
        },
        RightSide::Other(view, bytes) => match view.elem() {
            ElemType::One(elem) => other_beside(alloc, view, *elem, bytes, shape),
            ElemType::Rec(_) => unreachable!(),
        },
    }
}
