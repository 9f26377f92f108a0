//! `Spread`: the byte offsets of a view's elements in a greater shape, found row by row. It takes
//! no memory, whatever the number of axes.
ghost use Rattle.std.specs.Prelude.{◌≡◌, ◌≢◌, ◌+◌, ◌-◌, ◌*◌, ◌%◌, ◌^◌, ◌<◌, ◌≤◌, ◌∷◌, ◌++◌, length, take, drop, slice_index, true};
ghost use Rattle.nd_model.specs.Arrays.Broadcast.{broadcast_view, broadcasts_to, can_stretch, last_axes};
ghost use Rattle.nd_model.specs.Arrays.Element.{size_of};
ghost use Rattle.nd_model.specs.Arrays.Tuple.{elements_of};
ghost use Rattle.nd_model.specs.Making.Elementwise.{little};
ghost use Rattle.nd_types.specs.Kinds.{kind_of};
ghost use Rattle.nd_convert.specs.Conversion.Converted.{converted_bytes};
ghost use Rattle.nd_element.specs.Elements.{AreHeld, numbers_at};
ghost use Rattle.nd_ufunc.specs.Elementwise.Spread as spreads;
ghost use Rattle.nd_ufunc.specs.Elementwise.Spread.{AreRows};
ghost use Rattle.nd_ufunc.specs.Loops.Sides.{HasNumbers, Keeps, numbers_on};

use crate::loops::{Side, numbers_are_valid};
use nd_block::{store_at, value_at};
use nd_types::{Elem, Kind, wrap};
use nd_view::{View, element_count};
use std::marker::Model;

/// The byte offsets of a view's elements, broadcast to a shape, that are left in C order. A clause
/// sees their list.
#[derive(Drop)]
pub(crate) struct Spread<'v> {
    view: &'v View,
    shape: &'v [u64],
    row: Row,
    // how many are taken
    at: u64,
    // the byte offset that was taken last
    place: u64,
    // how many are left in its row
    more: u64,
}

// The rows of a broadcast, which lie along its last axis whose length is not 1.
#[derive(Clone, Copy)]
struct Row {
    length: u64,
    stride: i128,
}

impl<'v> Model for Spread<'v> {
    ghost use Rattle.std.specs.Prelude.{List, ℕ};

    ghost Value = { List ℕ };

    ghost use Rattle.nd_ufunc.specs.Elementwise.Spread.{IsSpread, left_of};

    ghost view = { left_of };

    ghost invariant = { IsSpread };
}

// The index of an axis of this length beside an index of a longer one: 0 where the length is 1.
fn own_index(length: u64, index: u64) -> u64
    ensures { result ≡ spreads.own_index length index }
{
    if length == 1 { 0 } else { index }
}

// The flat index of the element that stands at flat index `at` of a greater shape of as many axes.
fn aligned_number(own: &[u64], shape: &[u64], at: u64) -> u64
    requires axes { length own.now ≡ length shape.now }
    requires fits { can_stretch own.now shape.now ≡ true }
    requires inside { at < elements_of shape.now }
    requires few { elements_of shape.now ≤ 2 ^ 24 }
    requires own_few { elements_of own.now ≤ 2 ^ 24 }
    ensures { result ≡ spreads.own_number own.now shape.now at }
{
    let mut each = element_count(shape);
    let mut own_each = element_count(own);
    let mut left = at;
    let mut found = 0;
    for (axis, length) in shape.iter().enumerate() {
        each /= *length;
        own_each /= own[axis];
        found += own_index(own[axis], left / each) * own_each;
        left %= each;
    }
    found
}

// The flat index of the element that stands at flat index `at` of a greater shape.
fn spread_number(own: &[u64], shape: &[u64], at: u64) -> u64
    requires fits { broadcasts_to own.now shape.now ≡ true }
    requires inside { at < elements_of shape.now }
    requires few { elements_of shape.now ≤ 2 ^ 24 }
    requires own_few { elements_of own.now ≤ 2 ^ 24 }
    ensures { result ≡ spreads.own_number own.now (last_axes own.now shape.now)
        (at % elements_of (last_axes own.now shape.now)) }
{
    let behind = &shape[shape.len() - own.len()..];
    aligned_number(own, behind, at % element_count(behind))
}

// The byte offset of the element that stands at flat index `at` of a greater shape.
#[inline(never)]
fn spread_place(view: &View, shape: &[u64], at: u64) -> u64
    requires fits { broadcasts_to view.now.shape shape.now ≡ true }
    requires inside { at < elements_of shape.now }
    requires few { elements_of shape.now ≤ 2 ^ 24 }
    ensures { result ≡ slice_index (broadcast_view view.now shape.now).places at }
{
    // proof: the number of elements is bounded, by the clause of count().
    let _count = view.count();
    view.place_of(spread_number(view.shape(), shape, at))
}

// The number of axes up to the last one whose length is not 1.
fn row_axes(shape: &[u64]) -> usize
    ensures within { result ≤ length shape.now }
    ensures ones { elements_of (drop result shape.now) ≡ 1 }
    ensures last { 0 < result → slice_index shape.now (result - 1) ≢ 1 }
{
    let mut axes = shape.len();
    while axes > 0 && shape[axes - 1] == 1 {
        axes -= 1;
    }
    axes
}

// A view's stride along an axis of a greater shape: 0 where its own axis has length 1 or is
// missing.
fn broadcast_stride(own: &[u64], strides: &[i128], lacking: usize, axis: usize) -> i128
    requires axes { length strides.now ≡ length own.now }
    requires inside { axis < lacking + length own.now }
    ensures { result ≡ spreads.broadcast_stride own.now strides.now lacking axis }
{
    if axis < lacking || own[axis - lacking] == 1 {
        0
    } else {
        strides[axis - lacking]
    }
}

// The rows of a view, broadcast to a shape.
fn row_of(view: &View, shape: &[u64]) -> Row
    requires fits { broadcasts_to view.now.shape shape.now ≡ true }
    ensures rows { AreRows (broadcast_view view.now shape.now).places result.length result.stride }
    ensures some { 0 < elements_of shape.now → 0 < result.length }
{
    // proof: an element has bytes, by the clause of size().
    let _size = view.elem().size();
    let strides = view.held_strides();
    let axes = row_axes(shape);
    if axes == 0 {
        return Row {
            length: 1,
            stride: 0,
        };
    }
    let own = view.shape();
    Row {
        length: shape[axes - 1],
        stride: broadcast_stride(own, strides, shape.len() - own.len(), axes - 1),
    }
}

impl<'v> Spread<'v> {
    /// Begins with all elements of a view, broadcast to a shape.
    pub(crate) fn new(view: &'v View, shape: &'v [u64]) -> Spread<'v>
        requires fits { broadcasts_to view.now.shape shape.now ≡ true }
        requires few { elements_of shape.now ≤ 2 ^ 24 }
        ensures { result ≡ (broadcast_view view.now shape.now).places }
    {
        Spread {
            view,
            shape,
            row: row_of(view, shape),
            at: 0,
            place: 0,
            more: 0,
        }
    }

    /// Takes the next byte offset.
    #[inline(always)]
    pub(crate) fn next(&mut self) -> u64
        requires { 0 < length self.old }
        ensures { self.old ≡ result ∷ self.new }
    {
        if self.more == 0 {
            self.place = spread_place(self.view, self.shape, self.at);
            self.more = self.row.length - self.at % self.row.length;
        } else {
            self.place = (i128::from(self.place) + self.row.stride) as u64;
        }
        self.at += 1;
        self.more -= 1;
        self.place
    }
}

// Converts the next `count` numbers, contiguous.
fn gather_spread(
    out: &mut [u8],
    to: Elem,
    bytes: &[u8],
    elem: Elem,
    spread: &mut Spread<'_>,
    count: usize,
)
    requires out { length out.old ≡ count * size_of to.kind }
    requires enough { count ≤ length spread.old }
    requires held { AreHeld elem bytes.now spread.old }
    ensures split { spread.old ≡ take count spread.old ++ spread.new }
    ensures bytes { out.new ≡ converted_bytes to elem bytes.now (take count spread.old) }
{
    // proof: the numbers of bytes are bounded, by the clause of len().
    let _len = bytes.len();
    let size = to.size() as usize;
    for index in 0..count {
        let place = spread.next();
        let number = value_at(bytes, place as usize, elem);
        store_at(out, index * size, to, wrap(to.kind(), number));
    }
}

/// The numbers that are left of a view's elements, broadcast to a shape.
#[derive(Drop)]
pub(crate) struct SpreadElements<'v> {
    walk: Spread<'v>,
    elem: Elem,
    kind: Kind,
    ghost keeps: { Keeps elem.kind (kind_of kind) },
}

impl<'v> SpreadElements<'v> {
    /// Begins with all elements, whose numbers are converted to `kind`.
    pub(crate) fn new(
        view: &'v View,
        shape: &'v [u64],
        elem: Elem,
        kind: Kind,
    ) -> SpreadElements<'v>
        requires fits { broadcasts_to view.now.shape shape.now ≡ true }
        requires few { elements_of shape.now ≤ 2 ^ 24 }
        requires keeps { Keeps elem.kind (kind_of kind) }
        ensures walk { result.walk ≡ (broadcast_view view.now shape.now).places }
        ensures elem { result.elem ≡ elem }
        ensures kind { result.kind ≡ kind }
    {
        SpreadElements {
            walk: Spread::new(view, shape),
            elem,
            kind,
        }
    }

    /// Takes the next `count` numbers, as these bytes hold them now.
    pub(crate) fn take<'b>(&mut self, buffer: &'b mut [u8], bytes: &[u8], count: usize) -> Side<'b>
        requires some { 0 < count }
        requires enough { count ≤ length self.old.walk }
        requires held { AreHeld self.old.elem bytes.now self.old.walk }
        requires buffer { count * size_of (kind_of self.old.kind) ≤ length buffer.old }
        ensures enough { HasNumbers result count }
        ensures elem { self.new.elem ≡ self.old.elem }
        ensures kind { self.new.kind ≡ self.old.kind }
        ensures walk { self.old.walk ≡ take count self.old.walk ++ self.new.walk }
        ensures numbers { numbers_on result count
            ≡ numbers_at self.old.elem bytes.now (take count self.old.walk) }
    {
        let elem = self.elem;
        numbers_are_valid(bytes, elem);
        let to = Elem::little(self.kind);
        let end = count * self.kind.size() as usize;
        gather_spread(&mut buffer[..end], to, bytes, elem, &mut self.walk, count);
        Side::Each(&buffer[..end], self.kind)
    }

    /// Returns the itemsize of the converted numbers.
    pub(crate) fn size(&self) -> usize
        ensures value { result ≡ size_of (kind_of self.now.kind) }
        ensures range { (0 < result) × (result ≤ 8) }
    {
        self.kind.size() as usize
    }
}

/// The numbers that are left of another block's elements, broadcast to a shape.
#[derive(Drop)]
pub(crate) struct OtherSpread<'v> {
    elements: SpreadElements<'v>,
    bytes: &'v [u8],
}

impl<'v> OtherSpread<'v> {
    /// Begins with all of these elements, which lie in these bytes.
    pub(crate) fn new(elements: SpreadElements<'v>, bytes: &'v [u8]) -> OtherSpread<'v>
        ensures elements { result.elements ≡ elements.entry }
        ensures bytes { result.bytes.now ≡ bytes.now }
    {
        OtherSpread { elements, bytes }
    }

    /// Takes the next `count` numbers.
    pub(crate) fn take<'b>(&mut self, buffer: &'b mut [u8], count: usize) -> Side<'b>
        requires some { 0 < count }
        requires enough { count ≤ length self.old.elements.walk }
        requires held { AreHeld self.old.elements.elem self.old.bytes.now
            self.old.elements.walk }
        requires buffer { count * size_of (kind_of self.old.elements.kind) ≤ length buffer.old }
        ensures enough { HasNumbers result count }
        ensures bytes { self.new.bytes.now ≡ self.old.bytes.now }
        ensures elem { self.new.elements.elem ≡ self.old.elements.elem }
        ensures kind { self.new.elements.kind ≡ self.old.elements.kind }
        ensures walk { self.old.elements.walk
            ≡ take count self.old.elements.walk ++ self.new.elements.walk }
        ensures numbers { numbers_on result count ≡ numbers_at self.old.elements.elem
            self.old.bytes.now (take count self.old.elements.walk) }
    {
        let bytes = self.bytes;
        self.elements.take(buffer, bytes, count)
    }

    /// Returns the itemsize of the converted numbers.
    pub(crate) fn size(&self) -> usize
        ensures value { result ≡ size_of (kind_of self.now.elements.kind) }
        ensures range { (0 < result) × (result ≤ 8) }
    {
        self.elements.size()
    }
}
