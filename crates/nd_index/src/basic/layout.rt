//! `Layout`: the shape, strides and offset that the items of an index select.
ghost use Rattle.std.specs.Prelude.{◌≡◌, ◌+◌, ◌*◌, ◌<◌, ◌≤◌, ◌^◌, ◌++◌, [], ◌∷◌, pos, ◌+ℤ◌, ◌*ℤ◌, false, length, slice_index, unsigned_abs, IfOk, OnOk};
ghost use Rattle.std.specs.List.{All, list_any};
ghost use Rattle.std.specs.Option.{option_map};
ghost use Rattle.nd_model.specs.Cells.Fault.{Index};
ghost use Rattle.nd_model.specs.Indexing.Selecting as model;
ghost use Rattle.nd_model.specs.Indexing.Selecting.{axes_in, first_outside, pick_of, picked_shape, picks_of};
ghost use Rattle.nd_index.specs.Basic.Faults.{fault_of};
ghost use Rattle.nd_index.specs.Basic.FullIndexes.{items_in};
ghost use Rattle.nd_index.specs.Basic.Items.{item_of};
ghost use Rattle.nd_index.specs.Basic.Layouts.{IsInside, picked_strides, picked_way};

use crate::basic::fault::SelectFault;
use crate::basic::full_index::FullIndex;
use crate::basic::item::{BasicItem, axes_of};
use crate::basic::positions::{position, slice_positions};
use nd_view::stride_of;
use smallvec::SmallVec;
use std::alloc::{AllocError, Global};

/// Returns the length of an axis, 0 where there is no such axis.
pub fn length_of(shape: &[u64], axis: usize) -> u64
    ensures { result ≡ slice_index shape.now axis }
{
    match shape.get(axis) {
        Some(length) => *length,
        None => 0,
    }
}

// Why an item that begins at `axis`, of this length, is refused.
fn item_fault(item: &BasicItem, axis: usize, length: u64) -> Option<SelectFault>
    requires { length ≤ 2 ^ 32 }
    ensures { option_map fault_of result ≡ option_map Index
        (model.outside_of axis length (item_of item.now) None) }
{
    let BasicItem::At(index) = item else {
        return None;
    };
    match position(length, *index) {
        Some(_) => None,
        None => Some(SelectFault::OutOfBounds {
            axis,
            index: *index,
            size: length,
        }),
    }
}

/// Returns why an index is refused: its first integer that is out of bounds.
pub(crate) fn outside_fault(index: &FullIndex<'_>, shape: &[u64]) -> Option<SelectFault>
    requires axes { axes_in (items_in index.now) ≡ length shape.now }
    requires missing { index.now.missing ≤ 32 }
    requires lengths { All (λ n. n ≤ 2 ^ 32) shape.now }
    ensures { option_map fault_of result ≡ option_map Index (first_outside (items_in index.now) 0
        shape.now) }
{
    let mut axis = 0;
    for number in 0..index.len() {
        let item = index.item(number);
        if let Some(fault) = item_fault(&item, axis, length_of(shape, axis)) {
            return Some(fault);
        }
        axis += axes_of(&item);
    }
    None
}

// The bytes that `by` strides are.
fn scale(by: i128, stride: i128) -> i128
    requires by { unsigned_abs by ≤ 2 ^ 32 }
    requires stride { unsigned_abs stride < 2 ^ 64 }
    ensures value { result ≡ by *ℤ stride }
    ensures limit { unsigned_abs result ≤ 2 ^ 96 }
{
    by * stride
}

// The byte offset `by` strides behind another.
fn shift(offset: i128, by: u64, stride: i128) -> i128
    requires offset { unsigned_abs offset < 2 ^ 120 }
    requires by { by ≤ 2 ^ 32 }
    requires stride { unsigned_abs stride < 2 ^ 64 }
    ensures value { result ≡ offset +ℤ ((pos by *ℤ stride) +ℤ pos 0) }
    ensures limit { unsigned_abs result ≤ unsigned_abs offset + 2 ^ 96 }
{
    offset + scale(i128::from(by), stride)
}

/// The lengths and strides of a view, and the byte offset of its first element, which is meant only
/// where there is one.
#[derive(Drop)]
pub(crate) struct Layout {
    pub(crate) lengths: SmallVec<u64, 32>,
    pub(crate) strides: SmallVec<i128, 32>,
    pub(crate) offset: i128,
}

impl Layout {
    // Adds what an item selects that begins at an axis of this length and stride.
    fn add(&mut self, item: &BasicItem, length: u64, stride: i128) -> Result<(), AllocError>
        requires step { model.has_zero_step (item_of item.now) ≡ false }
        requires inside { IsInside length (item_of item.now) }
        requires length { length ≤ 2 ^ 32 }
        requires stride { unsigned_abs stride < 2 ^ 64 }
        requires offset { unsigned_abs self.old.offset < 2 ^ 120 }
        ensures lengths { OnOk result (self.new.lengths.items ≡ self.old.lengths.items
            ++ picked_shape (pick_of length (item_of item.now) [])) }
        ensures strides { OnOk result (self.new.strides.items ≡ self.old.strides.items
            ++ picked_strides (pick_of length (item_of item.now) []) (stride ∷ [])) }
        ensures offset { OnOk result (self.new.offset ≡ self.old.offset +ℤ picked_way
            (pick_of length (item_of item.now) []) (stride ∷ [])) }
        ensures near { OnOk result (unsigned_abs self.new.offset ≤ unsigned_abs self.old.offset
            + model.axes_of (item_of item.now) * 2 ^ 96) }
    {
        match item {
            BasicItem::At(index) => {
                let place = position(length, *index).unwrap_or(0);
                self.offset = shift(self.offset, place, stride);
            }
            BasicItem::Slice { start, stop, step } => {
                let chosen = slice_positions(length, *start, *stop, *step);
                self.lengths.push(chosen.count)?;
                self.strides.push(scale(chosen.step, stride))?;
                self.offset = shift(self.offset, chosen.first, stride);
            }
            BasicItem::Ellipsis => {}
            BasicItem::NewAxis => {
                self.lengths.push(1)?;
                self.strides.push(0)?;
            }
        }
        Ok(())
    }
}

/// Returns what an index selects of axes with these lengths and strides, whose first element has
/// this byte offset.
pub(crate) fn lay_out(
    alloc: Global,
    index: &FullIndex<'_>,
    shape: &[u64],
    strides: &[i128],
    offset: u64,
) -> Result<Layout, AllocError>
    requires axes { axes_in (items_in index.now) ≡ length shape.now }
    requires most { length shape.now ≤ 32 }
    requires missing { index.now.missing ≤ 32 }
    requires each { length strides.now ≡ length shape.now }
    requires lengths { All (λ n. n ≤ 2 ^ 32) shape.now }
    requires range { All (λ s. unsigned_abs s < 2 ^ 64) strides.now }
    requires steps { list_any model.has_zero_step (items_in index.now) ≡ false }
    requires inside { first_outside (items_in index.now) 0 shape.now ≡ None }
    ensures lengths { IfOk result (λ v. v.lengths.items ≡ picked_shape
        (picks_of (items_in index.now) shape.now)) }
    ensures strides { IfOk result (λ v. v.strides.items ≡ picked_strides
        (picks_of (items_in index.now) shape.now) strides.now) }
    ensures offset { IfOk result (λ v. v.offset ≡ pos offset +ℤ picked_way
        (picks_of (items_in index.now) shape.now) strides.now) }
{
    let mut layout = Layout {
        lengths: SmallVec::new(alloc),
        strides: SmallVec::new(alloc),
        offset: i128::from(offset),
    };
    let mut axis = 0;
    for number in 0..index.len() {
        let item = index.item(number);
        layout.add(&item, length_of(shape, axis), stride_of(strides, axis))?;
        axis += axes_of(&item);
    }
    Ok(layout)
}
