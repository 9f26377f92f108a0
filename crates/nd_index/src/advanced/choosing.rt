//! `choose_places`: the shape and the byte offsets of the elements that an advanced index selects.
ghost use Rattle.std.specs.Prelude.{◌≡◌, ℕ, ◌+◌, ◌^◌, ◌<◌, ◌≤◌, List, pos, ◌+ℤ◌, unsigned_abs, length, map, IfOk};
ghost use Rattle.std.specs.List.{All, flat_map};
ghost use Rattle.nd_model.specs.Indexing.Advanced as model;
ghost use Rattle.nd_model.specs.Indexing.Selected.{HoldsAll};
ghost use Rattle.nd_model.specs.Indexing.Selecting as selecting;
ghost use Rattle.nd_model.specs.Arrays.Strides.{IsInLimits};
ghost use Rattle.nd_model.specs.Arrays.Tuple.{elements_of, indices};
ghost use Rattle.nd_model.specs.Arrays.View.{item_size, place_of};
ghost use Rattle.nd_view.specs.Indexes.{IsIndex};
ghost use Rattle.nd_index.specs.Advanced.Chosen.{view_at};
ghost use Rattle.nd_index.specs.Items.Faults.{Makes};
ghost use Rattle.nd_index.specs.Items.Items.{items_of};
ghost use Rattle.nd_index.specs.Advanced.Takes.{axes_taken, kept_in, takes_of};
ghost use Rattle.nd_index.specs.Advanced.TakenWays.{way_taken};
ghost use Rattle.nd_places.specs.Near.{place_on};

use crate::advanced::arrays::array_ways;
use crate::advanced::direct::direct_places;
use crate::advanced::layout::{chosen_shape, kept_shape, kept_strides, place_for};
use crate::advanced::sole::sole_array;
use crate::advanced::takes::{Take, takes};
use crate::basic::select;
use crate::items::{
    FancyFault, Item, ItemFault, bounds_fault, common_shape, count_axes, count_ellipses,
    shape_fault, slices_of,
};
use crate::offsets::{Axes, KeptWays, places_on, ways_of};
use nd_places::PlaceList;
use nd_view::{Shape, View, element_count, limit_fault};
use std::alloc::{AllocError, Global};

/// The elements that an advanced index selects.
#[derive(Drop)]
pub struct ChosenPlaces {
    /// The lengths of the axes of the selection.
    pub shape: Shape,
    /// The byte offsets of the elements in C order.
    pub places: PlaceList,
}

// The byte offsets of all selected elements, `count` of them. `many` is the broadcast shape of the
// arrays.
fn array_places(
    alloc: Global,
    takes: &[Take<'_, '_>],
    sizes: &[u64],
    strides: &[i128],
    many: &[u64],
    count: usize,
    kept: &KeptWays<'_>,
) -> Result<PlaceList, AllocError>
    requires taken { axes_taken (takes_of takes.now) ≤ length sizes.now }
    requires axes { length strides.now ≡ length sizes.now }
    requires most { length sizes.now ≤ 32 }
    requires some { 0 < elements_of sizes.now }
    requires few { elements_of sizes.now ≤ 2 ^ 24 }
    requires range { All (λ s. unsigned_abs s < 2 ^ 64) strides.now }
    requires many { length many.now ≤ 32 }
    requires limits { All (λ n. n ≤ 2 ^ 32) many.now }
    ensures { IfOk result (λ v. v ≡ flat_map (λ b. flat_map (λ a. map (λ z. place_on
        (((pos kept.now.offset +ℤ b) +ℤ a) +ℤ z)) kept.now.behind.now)
        (map (way_taken (takes_of takes.now) sizes.now strides.now) (indices many.now)))
        kept.now.before.now) }
{
    if let Some(sole) = sole_array(takes, many) {
        let end = sole.axis + sole.spread.axes;
        let axes = Axes::new(&sizes[sole.axis..end], &strides[sole.axis..end]);
        return direct_places(alloc, count, kept, &sole.spread.numbers, &axes);
    }
    let arrays = array_ways(alloc, takes, sizes, strides, many)?;
    let (offset, arrays) = (kept.offset, arrays.as_slice());
    let places = places_on(alloc, count, offset, kept.before, arrays, kept.behind)?;
    Ok(PlaceList::of_each(places))
}

// The byte offsets of all index tuples of a shape. The arrays' axes, `axes` of them, stand behind
// `at` kept ones.
fn all_places(
    alloc: Global,
    view: &View,
    takes: &[Take<'_, '_>],
    at: usize,
    axes: usize,
    shape: &[u64],
) -> Result<PlaceList, AllocError>
    requires taken { axes_taken (takes_of takes.now) ≡ length view.now.shape }
    requires kept { kept_in (takes_of takes.now) + axes ≡ length shape.now }
    requires at { at ≤ kept_in (takes_of takes.now) }
    requires tuples { (t : List ℕ) → IsIndex shape.now t → IsIndex view.now.shape
        (model.chosen_source (takes_of takes.now) view.now.shape at axes t) }
    requires limits { IsInLimits (item_size view.now.element) shape.now }
    ensures value { IfOk result (λ v. v ≡ map (λ t. place_of view.now
        (model.chosen_source (takes_of takes.now) view.now.shape at axes t))
        (indices shape.now)) }
    ensures limit { IfOk result (λ v. All (λ p. p + item_size view.now.element ≤ 2 ^ 64) v) }
{
    if shape.contains(&0) {
        return Ok(PlaceList::of_each(Vec::new(alloc)));
    }
    // proof: the number of elements and the itemsize are within their limits, by the clauses of
    // count() and size().
    let _count = view.count();
    let _size = view.elem().size();
    let sizes = view.shape();
    let strides = view.held_strides();
    let kept = kept_strides(alloc, takes, strides)?;
    let end = at + axes;
    let before = ways_of(alloc, &shape[..at], &kept.as_slice()[..at])?;
    let behind = ways_of(alloc, &shape[end..], &kept.as_slice()[at..])?;
    let ways = KeptWays {
        offset: view.offset(),
        before: before.as_slice(),
        behind: behind.as_slice(),
    };
    let count = element_count(shape) as usize;
    array_places(alloc, takes, sizes, strides, &shape[at..end], count, &ways)
}

// The view that the slices of an index select, with all other axes whole.
fn slice_view(alloc: Global, view: &View, items: &[Item<'_>]) -> Result<View, FancyFault>
    requires { length (model.slices_in (items_of items.now)) ≤ 33 }
    ensures { Makes (λ g. g) result (selecting.select (model.slices_in (items_of items.now))
        view.now) }
{
    let slices = slices_of(items);
    let sliced = select(alloc, view, slices.as_slice())??;
    Ok(sliced)
}

// The selection of a view to which the slices are applied already. `many` is the broadcast shape of
// the arrays.
fn choose(
    alloc: Global,
    view: &View,
    items: &[Item<'_>],
    takes: &[Take<'_, '_>],
    many: &[u64],
) -> Result<ChosenPlaces, FancyFault>
    requires taken { axes_taken (takes_of takes.now) ≡ length view.now.shape }
    requires tuples { (t : List ℕ) → (let at = model.place_for (items_of items.now)
        (takes_of takes.now) in IsIndex (model.chosen_shape at many.now (model.kept_shape
        (takes_of takes.now) view.now.shape)) t → IsIndex view.now.shape (model.chosen_source
        (takes_of takes.now) view.now.shape at (length many.now) t)) }
    ensures value { Makes (view_at view.now) result (model.chosen_view (items_of items.now)
        (takes_of takes.now) many.now view.now) }
    ensures limit { IfOk result (λ p. All (λ q. q + item_size view.now.element ≤ 2 ^ 64)
        p.places) }
    ensures limits { IfOk result (λ p. IsInLimits (item_size view.now.element) p.shape.items) }
    ensures count { IfOk result (λ p. length p.places ≡ elements_of p.shape.items) }
{
    let kept = kept_shape(alloc, takes, view.shape())?;
    let at = place_for(items, takes);
    let shape = chosen_shape(alloc, at, many, kept.as_slice())?;
    if let Some(fault) = limit_fault(view.elem().size(), shape.as_slice()) {
        return Err(FancyFault::View(fault));
    }
    let places = all_places(alloc, view, takes, at, many.len(), shape.as_slice())?;
    Ok(ChosenPlaces { shape, places })
}

// The selection by items that stand for no more axes than the array has; `...` stands for `missing`
// axes.
fn choose_items(
    alloc: Global,
    view: &View,
    missing: usize,
    items: &[Item<'_>],
) -> Result<ChosenPlaces, FancyFault>
    requires axes { model.axes_in missing (items_of items.now) ≤ length view.now.shape }
    requires missing { model.axes_in 0 (items_of items.now) + missing ≡ length view.now.shape }
    requires ellipses { model.ellipses_in (items_of items.now) < 2 }
    requires whole { All HoldsAll (items_of items.now) }
    ensures value { Makes (view_at view.now) result (model.choose_filled missing
        (items_of items.now) view.now) }
    ensures limit { IfOk result (λ p. All (λ q. q + item_size view.now.element ≤ 2 ^ 64)
        p.places) }
    ensures limits { IfOk result (λ p. IsInLimits (item_size view.now.element) p.shape.items) }
    ensures count { IfOk result (λ p. length p.places ≡ elements_of p.shape.items) }
{
    let sizes = view.shape();
    if let Some(fault) = shape_fault(sizes, missing, items) {
        return Err(FancyFault::Index(fault));
    }
    let Some(many) = common_shape(alloc, items)? else {
        return Err(FancyFault::Index(ItemFault::IndexShapes));
    };
    if let Some(fault) = bounds_fault(sizes, missing, items) {
        return Err(FancyFault::Index(fault));
    }
    let sliced = slice_view(alloc, view, items)?;
    let takes = takes(alloc, sizes, missing, items)?;
    choose(alloc, &sliced, items, takes.as_slice(), many.as_slice())
}

/// Returns the shape of the selection and the byte offsets of its elements in C order (NumPy user
/// guide, "Advanced indexing").
///
/// In an array of shape (4, 5), `[[0, 2], 1:3]` selects a shape of (2, 2). `[:, mask]` selects one
/// of (4, n), for n true elements.
///
/// Refused in this order: `TwoEllipses`; `TooManyIndices`; from left to right `ZeroStep` and
/// `MaskShape`; `IndexShapes`; from left to right `OutOfBounds`, in each array at the first in C
/// order, also for an empty selection; `TooManyAxes`; `TooManyElements`.
pub fn choose_places(
    alloc: Global,
    view: &View,
    items: &[Item<'_>],
) -> Result<ChosenPlaces, FancyFault>
    ensures value { Makes (view_at view.now) result (model.choose (items_of items.now)
        view.now) }
    ensures limit { IfOk result (λ p. All (λ q. q + item_size view.now.element ≤ 2 ^ 64)
        p.places) }
    ensures limits { IfOk result (λ p. IsInLimits (item_size view.now.element) p.shape.items) }
    ensures count { IfOk result (λ p. length p.places ≡ elements_of p.shape.items) }
{
    if count_ellipses(items) > 1 {
        return Err(FancyFault::Index(ItemFault::TwoEllipses));
    }
    let axes = count_axes(items);
    let most = view.shape().len();
    if axes > most as u128 {
        return Err(FancyFault::Index(ItemFault::TooManyIndices));
    }
    choose_items(alloc, view, most - axes as usize, items)
}
