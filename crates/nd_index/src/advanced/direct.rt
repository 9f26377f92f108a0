//! `direct_places`: the byte offsets that a sole array selects, worked out while its numbers are
//! read.
ghost use Rattle.std.specs.Prelude.{◌≡◌, ◌+◌, ◌++◌, ◌^◌, ◌<◌, ◌≤◌, pos, ◌+ℤ◌, unsigned_abs, length, map, IfOk, IsTrue, OnOk};
ghost use Rattle.std.specs.List.{All, flat_map};
ghost use Rattle.nd_model.specs.Arrays.Element.{size_of};
ghost use Rattle.nd_model.specs.Indexing.Selecting.{counted_from};
ghost use Rattle.nd_element.specs.Elements.{numbers_at};
ghost use Rattle.nd_index.specs.Offsets.RowPlaces.{chosen_places, places_beside, row_places};
ghost use Rattle.nd_index.specs.Advanced.IndexNumbers.{numbers_in};
ghost use Rattle.nd_index.specs.Items.Items.{numbers_of};
ghost use Rattle.nd_index.specs.Items.Packed.{IsPacked};
ghost use Rattle.nd_places.specs.Near.{place_on};

use crate::advanced::by_mask::places_by_mask;
use crate::advanced::by_rows::places_by_rows;
use crate::advanced::index_numbers::IndexNumbers;
use crate::advanced::masks::push_mask;
use crate::items::{IndexArray, inside_position, is_packed, read_at};
use crate::offsets::{
    Axes, KeptWays, Row, are_near, is_near, place_on, push_near_places, push_places,
};
use nd_places::PlaceList;
use nd_types::{Elem, Kind};
use nd_view::Run;
use std::alloc::{AllocError, Global};

/// Appends the byte offsets of a row, moved by `way`.
#[inline(always)]
pub(crate) fn push_row(places: &mut Vec<u64>, row: &Row<'_>, way: i128) -> Result<(), AllocError>
    requires { unsigned_abs way ≤ 2 ^ 112 }
    ensures { OnOk result (places.new.items ≡ places.old.items ++ row_places row.now way) }
{
    let start = row.start + way;
    if row.ways.len() == 1 {
        places.push(place_on(start + row.ways[0]))?;
        return Ok(());
    }
    if row.is_near && is_near(start) {
        return push_near_places(places, start as i64, row.ways);
    }
    push_places(places, start, row.ways)
}

// Appends the byte offsets for the positions of a run of numbers, on an axis of length `size`.
#[inline(always)]
fn push_each_position(
    places: &mut Vec<u64>,
    row: &Row<'_>,
    axes: &Axes<'_>,
    size: u64,
    elem: Elem,
    bytes: &[u8],
    run: &Run,
    packed: bool,
) -> Result<(), AllocError>
    requires packed { IsTrue packed → IsPacked (size_of elem.kind) (length bytes.now) run.now }
    requires numbers { All (λ k. k ≤ 2 ^ 32) (map (counted_from size)
        (numbers_at elem bytes.now run.now)) }
    ensures { OnOk result (places.new.items ≡ places.old.items ++ chosen_places row.now axes.now
        (map (counted_from size) (numbers_at elem bytes.now run.now))) }
{
    for at in 0..run.count() {
        let number = read_at(bytes, run, at, elem, packed);
        let position = inside_position(size, number);
        push_row(places, row, axes.way(position))?;
    }
    Ok(())
}

// Appends them by a loop specialised for contiguous `int64`, and by the general one otherwise.
fn push_positions(
    places: &mut Vec<u64>,
    row: &Row<'_>,
    axes: &Axes<'_>,
    size: u64,
    elem: Elem,
    bytes: &[u8],
    run: &Run,
) -> Result<(), AllocError>
    requires { All (λ k. k ≤ 2 ^ 32) (map (counted_from size) (numbers_at elem bytes.now run.now)) }
    ensures { OnOk result (places.new.items ≡ places.old.items ++ chosen_places row.now axes.now
        (map (counted_from size) (numbers_at elem bytes.now run.now))) }
{
    let known = Elem::little(Kind::I64);
    if elem == known && is_packed(run, 8, bytes.len()) {
        push_each_position(places, row, axes, size, known, bytes, run, true)
    } else {
        push_each_position(places, row, axes, size, elem, bytes, run, false)
    }
}

// Appends the byte offsets that the positions of an array select.
fn push_array(
    places: &mut Vec<u64>,
    row: &Row<'_>,
    axes: &Axes<'_>,
    size: u64,
    array: &IndexArray<'_>,
) -> Result<(), AllocError>
    requires { All (λ k. k ≤ 2 ^ 32) (map (counted_from size) (numbers_of array.now)) }
    ensures { OnOk result (places.new.items ≡ places.old.items ++ chosen_places row.now axes.now
        (map (counted_from size) (numbers_of array.now))) }
{
    let mut runs = array.view.runs();
    while let Some(run) = runs.next() {
        push_positions(places, row, axes, size, *array.elem, array.bytes, &run)?;
    }
    Ok(())
}

// Appends the byte offsets that these numbers select.
fn push_chosen(
    places: &mut Vec<u64>,
    row: &Row<'_>,
    axes: &Axes<'_>,
    numbers: &IndexNumbers<'_, '_>,
) -> Result<(), AllocError>
    requires { All (λ k. k ≤ 2 ^ 32) (numbers_in numbers.now) }
    ensures { OnOk result (places.new.items ≡ places.old.items ++ chosen_places row.now axes.now
        (numbers_in numbers.now)) }
{
    match numbers {
        IndexNumbers::One(number) => push_row(places, row, axes.way(*number)),
        IndexNumbers::Positions(size, array) => push_array(places, row, axes, *size, array),
        IndexNumbers::Trues(mask) => push_mask(places, row, axes, mask),
    }
}

// Returns the selected byte offsets one by one, for all kept axes before and behind those of the
// array.
fn each_place(
    alloc: Global,
    count: usize,
    kept: &KeptWays<'_>,
    numbers: &IndexNumbers<'_, '_>,
    axes: &Axes<'_>,
) -> Result<Vec<u64>, AllocError>
    requires { All (λ k. k ≤ 2 ^ 32) (numbers_in numbers.now) }
    ensures { IfOk result (λ v. v.items
        ≡ places_beside kept.now axes.now (numbers_in numbers.now)) }
{
    let mut places = Vec::with_capacity(alloc, count)?;
    let is_near = are_near(kept.behind);
    for way in kept.before {
        let row = Row {
            start: i128::from(kept.offset) + *way,
            ways: kept.behind,
            is_near,
        };
        push_chosen(&mut places, &row, axes, numbers)?;
    }
    Ok(places)
}

/// Returns the selected byte offsets, for all kept axes before and behind those of the array. A
/// mask over a line and long rows are kept compactly.
pub(crate) fn direct_places(
    alloc: Global,
    count: usize,
    kept: &KeptWays<'_>,
    numbers: &IndexNumbers<'_, '_>,
    axes: &Axes<'_>,
) -> Result<PlaceList, AllocError>
    requires { All (λ k. k ≤ 2 ^ 32) (numbers_in numbers.now) }
    ensures { IfOk result (λ v. v ≡ places_beside kept.now axes.now (numbers_in numbers.now)) }
{
    if let Some(places) = places_by_mask(alloc, kept, numbers, axes)? {
        return Ok(places);
    }
    if let Some(places) = places_by_rows(alloc, kept, numbers, axes)? {
        return Ok(places);
    }
    let places = each_place(alloc, count, kept, numbers, axes)?;
    Ok(PlaceList::of_each(places))
}
