//! `common_shape`: the broadcast shape of the arrays of an advanced index.
ghost use Rattle.std.specs.Prelude.{◌≡◌, ◌^◌, ◌≤◌, [], length, map, Some, IfOk};
ghost use Rattle.std.specs.Option.{option_map};
ghost use Rattle.nd_model.specs.Indexing.Advanced as model;
ghost use Rattle.nd_index.specs.Items.Counts.{true_count};
ghost use Rattle.nd_index.specs.Items.Items.{item_of, items_of, numbers_of};

use crate::items::item::{IndexArray, Item};
use crate::items::reading::{is_packed, read_at};
use nd_element::is_elem;
use nd_places::count_trues;
use nd_shape::broadcast;
use nd_types::{Elem, Kind};
use nd_view::{Run, Shape};
use smallvec::SmallVec;
use std::alloc::{AllocError, Global};

// How many numbers of a run are not 0.
fn count_each(elem: Elem, bytes: &[u8], run: &Run) -> u64
    requires { length run.now ≤ 2 ^ 24 }
    ensures { result ≡ true_count elem bytes.now run.now }
{
    let mut count = 0;
    for at in 0..run.count() {
        if read_at(bytes, run, at, elem, false) != 0 {
            count += 1;
        }
    }
    count
}

// How many numbers of a run are not 0, by a specialised loop for contiguous Booleans.
fn count_in(elem: Elem, bytes: &[u8], run: &Run) -> u64
    requires { length run.now ≤ 2 ^ 24 }
    ensures { result ≡ true_count elem bytes.now run.now }
{
    if is_elem(elem, Elem::little(Kind::Bool)) && is_packed(run, 1, bytes.len()) {
        let start = run.start() as usize;
        count_trues(&bytes[start..start + run.count() as usize])
    } else {
        count_each(elem, bytes, run)
    }
}

/// Returns how many elements of a mask are true.
pub fn count_true(mask: &IndexArray<'_>) -> u64
    ensures value { result ≡ length (model.true_numbers 0
        (map model.is_nonzero (numbers_of mask.now))) }
    ensures few { result ≤ 2 ^ 24 }
{
    // proof: the number of elements is bounded, by the clause of count().
    let _count = mask.view.count();
    let mut count = 0;
    let mut runs = mask.view.runs();
    while let Some(run) = runs.next() {
        count += count_in(*mask.elem, mask.bytes, &run);
    }
    count
}

// The shape to which a shape and an item broadcast, or `None` where they do not.
fn join(alloc: Global, shape: &[u64], item: &Item<'_>) -> Result<Option<Shape>, AllocError>
    ensures { IfOk result (λ found. option_map (λ v. v.items) found
        ≡ model.joined_shape shape.now (item_of item.now)) }
{
    match item {
        Item::Basic(_) => Ok(Some(SmallVec::from_slice(alloc, shape)?)),
        Item::Numbers(array) => broadcast(alloc, shape, array.view.shape()),
        Item::Mask(mask) => broadcast(alloc, shape, &[count_true(mask)]),
    }
}

/// Returns the shape to which all arrays broadcast, or `None` where they do not. A mask counts as
/// one axis of its true elements, integers as shape ().
///
/// Arrays of the shapes (2, 1) and (3,) broadcast to (2, 3), and those of (2,) and (3,) to none.
pub fn common_shape(alloc: Global, items: &[Item<'_>]) -> Result<Option<Shape>, AllocError>
    ensures { IfOk result (λ found. option_map (λ v. v.items) found
        ≡ model.common_shape (Some []) (items_of items.now)) }
{
    let mut shape = SmallVec::new(alloc);
    for item in items {
        match join(alloc, shape.as_slice(), item)? {
            Some(joined) => shape = joined,
            None => return Ok(None),
        }
    }
    Ok(Some(shape))
}
