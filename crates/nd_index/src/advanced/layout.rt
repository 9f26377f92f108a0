//! `chosen_shape`: the shape of a selection, from the kept axes and the broadcast shape of the
//! arrays.
ghost use Rattle.std.specs.Prelude.{◌≡◌, ◌≤◌, length, IfOk};
ghost use Rattle.std.specs.List.{list_any};
ghost use Rattle.nd_model.specs.Indexing.Advanced as model;
ghost use Rattle.nd_index.specs.Items.Items.{item_of, items_of};
ghost use Rattle.nd_index.specs.Advanced.Takes.{axes_taken, takes_of};
ghost use Rattle.nd_index.specs.Advanced.TakenWays as ways;

use crate::advanced::takes::Take;
use crate::basic::{BasicItem, length_of};
use crate::items::Item;
use nd_view::{Shape, stride_of};
use smallvec::SmallVec;
use std::alloc::{AllocError, Global};

fn is_array(item: &Item<'_>) -> bool
    ensures { result ≡ model.is_array (item_of item.now) }
{
    matches!(
        item,
        Item::Basic(BasicItem::At(_)) | Item::Numbers(_) | Item::Mask(_)
    )
}

// The items from the first array on.
fn from_array<'s, 'i>(items: &'s [Item<'i>]) -> &'s [Item<'i>]
    ensures { items_of result.now ≡ model.from_array (items_of items.now) }
{
    for (number, item) in items.iter().enumerate() {
        if is_array(item) {
            return &items[number..];
        }
    }
    &[]
}

// The items from the first on that is no array.
fn behind_arrays<'s, 'i>(items: &'s [Item<'i>]) -> &'s [Item<'i>]
    ensures { items_of result.now ≡ model.behind_arrays (items_of items.now) }
{
    for (number, item) in items.iter().enumerate() {
        if !is_array(item) {
            return &items[number..];
        }
    }
    &[]
}

fn has_array(items: &[Item<'_>]) -> bool
    ensures { result ≡ list_any model.is_array (items_of items.now) }
{
    for item in items {
        if is_array(item) {
            return true;
        }
    }
    false
}

// The number of kept axes before those of the first array.
fn count_before(takes: &[Take<'_, '_>]) -> usize
    ensures { result ≡ model.kept_before (takes_of takes.now) }
{
    let mut count = 0;
    for take in takes {
        match take {
            Take::Whole | Take::Added => count += 1,
            Take::Spread(_) => return count,
        }
    }
    count
}

/// Returns the number of kept axes before those of the arrays: 0 where the arrays are not adjacent.
pub(crate) fn place_for(items: &[Item<'_>], takes: &[Take<'_, '_>]) -> usize
    ensures { result ≡ model.place_for (items_of items.now) (takes_of takes.now) }
{
    if has_array(behind_arrays(from_array(items))) {
        0
    } else {
        count_before(takes)
    }
}

/// The lengths of the kept axes.
pub(crate) fn kept_shape(
    alloc: Global,
    takes: &[Take<'_, '_>],
    sizes: &[u64],
) -> Result<Shape, AllocError>
    requires { axes_taken (takes_of takes.now) ≤ 64 }
    ensures { IfOk result (λ v. v.items ≡ model.kept_shape (takes_of takes.now) sizes.now) }
{
    let mut kept = SmallVec::new(alloc);
    let mut axis = 0;
    for take in takes {
        match take {
            Take::Whole => {
                kept.push(length_of(sizes, axis))?;
                axis += 1;
            }
            Take::Added => kept.push(1)?,
            Take::Spread(spread) => axis += spread.axes,
        }
    }
    Ok(kept)
}

/// The strides of the kept axes. A new axis has stride 0.
pub(crate) fn kept_strides(
    alloc: Global,
    takes: &[Take<'_, '_>],
    strides: &[i128],
) -> Result<SmallVec<i128, 8>, AllocError>
    requires { axes_taken (takes_of takes.now) ≤ 64 }
    ensures { IfOk result (λ v. v.items ≡ ways.kept_strides (takes_of takes.now) strides.now) }
{
    let mut kept = SmallVec::new(alloc);
    let mut axis = 0;
    for take in takes {
        match take {
            Take::Whole => {
                kept.push(stride_of(strides, axis))?;
                axis += 1;
            }
            Take::Added => kept.push(0)?,
            Take::Spread(spread) => axis += spread.axes,
        }
    }
    Ok(kept)
}

/// The shape of the selection: `at` kept axes, those of the arrays, and the other kept ones.
pub(crate) fn chosen_shape(
    alloc: Global,
    at: usize,
    many: &[u64],
    kept: &[u64],
) -> Result<Shape, AllocError>
    requires { at ≤ length kept.now }
    ensures { IfOk result (λ v. v.items ≡ model.chosen_shape at many.now kept.now) }
{
    let mut shape = SmallVec::from_slice(alloc, &kept[..at])?;
    shape.extend_from_slice(many)?;
    shape.extend_from_slice(&kept[at..])?;
    Ok(shape)
}
