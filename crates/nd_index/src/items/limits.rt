//! `shape_fault` and `bounds_fault`: the refusals of an index that depend on the lengths of the
//! axes.
ghost use Rattle.std.specs.Prelude.{◌≡◌, ◌≤◌, ◌^◌, false, length, true, IsTrue, MatchOption};
ghost use Rattle.std.specs.List.{All};
ghost use Rattle.std.specs.Option.{option_map};
ghost use Rattle.nd_model.specs.Indexing.Advanced as model;
ghost use Rattle.nd_model.specs.Indexing.Advanced.{axes_in, first_fault};
ghost use Rattle.nd_index.specs.Basic.Items as basic;
ghost use Rattle.nd_model.specs.Arrays.Element.{size_of};
ghost use Rattle.nd_model.specs.Indexing.Selecting.{counted_from, has_zero_step, is_within};
ghost use Rattle.nd_element.specs.Elements.{numbers_at};
ghost use Rattle.nd_index.specs.Items.Faults.{fault_of};
ghost use Rattle.nd_index.specs.Items.Items.{item_of, items_of, numbers_of};
ghost use Rattle.nd_index.specs.Items.Packed.{IsPacked};

use crate::basic::{BasicItem, length_of};
use crate::items::fault::ItemFault;
use crate::items::item::{IndexArray, Item, axes_of};
use crate::items::reading::{is_packed, read_at};
use nd_element::is_elem;
use nd_types::{Elem, Kind};
use nd_view::Run;

// The position of an integer index, or `None` where it is out of bounds.
fn position(length: u64, index: i128) -> Option<u64>
    requires { length ≤ 2 ^ 32 }
    ensures { MatchOption result (is_within length index ≡ false) (λ k.
        (is_within length index ≡ true) × (k ≡ counted_from length index) × (k ≤ 2 ^ 32)) }
{
    let end = i128::from(length);
    if index >= end || index < -end {
        return None;
    }
    Some(if index < 0 { index + end } else { index } as u64)
}

/// Returns the position of an index that is within bounds; a negative one counts from the end.
///
/// `inside_position(5, -2)` is 3.
#[inline(always)]
pub fn inside_position(length: u64, index: i128) -> u64
    requires { counted_from length index ≤ 2 ^ 32 }
    ensures { result ≡ counted_from length index }
{
    let place = if index < 0 {
        index + i128::from(length)
    } else {
        index
    };
    place.unsigned_abs() as u64
}

// The first axis of a mask, counted from `first`, where its length is another one.
fn mask_fault(sizes: &[u64], first: usize, shape: &[u64]) -> Option<ItemFault>
    requires { first ≤ 2 ^ 32 }
    ensures { option_map fault_of result ≡ model.mask_fault sizes.now first shape.now }
{
    for (number, length) in shape.iter().enumerate() {
        if length_of(sizes, first + number) != *length {
            return Some(ItemFault::MaskShape {
                axis: first + number,
            });
        }
    }
    None
}

fn is_zero_step(item: &BasicItem) -> bool
    ensures { result ≡ has_zero_step (basic.item_of item.now) }
{
    match item {
        BasicItem::Slice {
            step: Some(step),
            ..
        } => *step == 0,
        _ => false,
    }
}

// Why an item whose first axis is `axis` is refused: a step of 0, or the shape of a mask.
fn shape_fault_of(sizes: &[u64], axis: usize, item: &Item<'_>) -> Option<ItemFault>
    requires { axis ≤ 2 ^ 32 }
    ensures { option_map fault_of result ≡ model.shape_fault sizes.now axis (item_of item.now) }
{
    match item {
        Item::Basic(item) if is_zero_step(item) => { Some(ItemFault::ZeroStep) }
        Item::Mask(array) => mask_fault(sizes, axis, array.view.shape()),
        _ => None,
    }
}

/// Returns why an index is refused: its first step of 0, or first mask whose shape is not that of
/// the axes it covers.
pub fn shape_fault(sizes: &[u64], missing: usize, items: &[Item<'_>]) -> Option<ItemFault>
    requires { axes_in missing (items_of items.now) ≤ 64 }
    ensures { option_map fault_of result ≡ first_fault (model.shape_fault sizes.now) missing 0
        (items_of items.now) }
{
    let mut axis = 0;
    for item in items {
        if let Some(fault) = shape_fault_of(sizes, axis, item) {
            return Some(fault);
        }
        axis += axes_of(item, missing);
    }
    None
}

fn number_fault(axis: usize, size: u64, index: i128) -> Option<ItemFault>
    requires { size ≤ 2 ^ 32 }
    ensures { option_map fault_of result ≡ model.number_fault axis size index }
{
    match position(size, index) {
        Some(_) => None,
        None => Some(ItemFault::OutOfBounds { axis, index, size }),
    }
}

// The first number of a run that is out of bounds.
#[inline(always)]
fn outside_each(
    axis: usize,
    size: u64,
    elem: Elem,
    bytes: &[u8],
    run: &Run,
    packed: bool,
) -> Option<ItemFault>
    requires size { size ≤ 2 ^ 32 }
    requires packed { IsTrue packed → IsPacked (size_of elem.kind) (length bytes.now) run.now }
    ensures { option_map fault_of result ≡ model.outside_fault axis size
        (numbers_at elem bytes.now run.now) }
{
    for at in 0..run.count() {
        let number = read_at(bytes, run, at, elem, packed);
        if let Some(fault) = number_fault(axis, size, number) {
            return Some(fault);
        }
    }
    None
}

// The first number of a run that is out of bounds, by a loop specialised for contiguous `int64`.
fn outside_in(axis: usize, size: u64, elem: Elem, bytes: &[u8], run: &Run) -> Option<ItemFault>
    requires { size ≤ 2 ^ 32 }
    ensures { option_map fault_of result ≡ model.outside_fault axis size
        (numbers_at elem bytes.now run.now) }
{
    let known = Elem::little(Kind::I64);
    if is_elem(elem, known) && is_packed(run, 8, bytes.len()) {
        outside_each(axis, size, known, bytes, run, true)
    } else {
        outside_each(axis, size, elem, bytes, run, false)
    }
}

// The first number of an array that is out of bounds.
fn outside_fault(axis: usize, size: u64, array: &IndexArray<'_>) -> Option<ItemFault>
    requires { size ≤ 2 ^ 32 }
    ensures { option_map fault_of result ≡ model.outside_fault axis size (numbers_of array.now) }
{
    let mut runs = array.view.runs();
    while let Some(run) = runs.next() {
        if let Some(fault) = outside_in(axis, size, *array.elem, array.bytes, &run) {
            return Some(fault);
        }
    }
    None
}

// Why an item whose first axis is `axis` is refused: a number out of bounds.
fn bounds_fault_of(sizes: &[u64], axis: usize, item: &Item<'_>) -> Option<ItemFault>
    requires { All (λ n. n ≤ 2 ^ 32) sizes.now }
    ensures { option_map fault_of result ≡ model.bounds_fault sizes.now axis (item_of item.now) }
{
    let size = length_of(sizes, axis);
    match item {
        Item::Basic(BasicItem::At(index)) => number_fault(axis, size, *index),
        Item::Numbers(array) => outside_fault(axis, size, array),
        _ => None,
    }
}

/// Returns why an index is refused: its first number out of bounds.
pub fn bounds_fault(sizes: &[u64], missing: usize, items: &[Item<'_>]) -> Option<ItemFault>
    requires axes { axes_in missing (items_of items.now) ≤ 64 }
    requires lengths { All (λ n. n ≤ 2 ^ 32) sizes.now }
    ensures { option_map fault_of result ≡ first_fault (model.bounds_fault sizes.now) missing 0
        (items_of items.now) }
{
    let mut axis = 0;
    for item in items {
        if let Some(fault) = bounds_fault_of(sizes, axis, item) {
            return Some(fault);
        }
        axis += axes_of(item, missing);
    }
    None
}
