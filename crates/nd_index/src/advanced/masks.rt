//! `push_mask`: the byte offsets that a mask selects. Flat indices are found some hundreds at a
//! time, in a loop without a branch.
ghost use Rattle.std.specs.Prelude.{◌≡◌, ◌+◌, ◌++◌, ◌^◌, ◌≤◌, if◌then◌else◌, length, map, take, IsTrue, OnOk};
ghost use Rattle.std.specs.List.{All};
ghost use Rattle.nd_model.specs.Indexing.Advanced.{is_nonzero, true_numbers};
ghost use Rattle.nd_model.specs.Arrays.Element.{size_of};
ghost use Rattle.nd_element.specs.Elements.{numbers_at};
ghost use Rattle.nd_index.specs.Offsets.RowPlaces.{chosen_places};
ghost use Rattle.nd_index.specs.Items.Items.{numbers_of};
ghost use Rattle.nd_index.specs.Items.Packed.{IsPacked};

use crate::advanced::direct::push_row;
use crate::items::{IndexArray, is_packed, read_at};
use crate::offsets::{Axes, Front, Row, line_of, push_on_line};
use nd_types::{Elem, Kind};
use nd_view::Run;
use std::alloc::AllocError;

// The elements of a mask that are looked at at a time.
const PART: usize = 512;

// By how much an element of a mask advances the count of true ones.
#[inline(always)]
fn count_of_element(number: i128) -> usize
    ensures { result ≡ (if is_nonzero number then 1 else 0) }
{
    if number == 0 { 0 } else { 1 }
}

// Writes the flat indices of the true elements of a run, and returns their number. `first` is the
// index of its first element.
#[inline(always)]
fn write_each_true(
    numbers: &mut [u64],
    first: u64,
    elem: Elem,
    bytes: &[u8],
    run: &Run,
    packed: bool,
) -> usize
    requires room { length run.now ≤ length numbers.old }
    requires packed { IsTrue packed → IsPacked (size_of elem.kind) (length bytes.now) run.now }
    requires range { first + length run.now ≤ 2 ^ 32 }
    ensures len { length numbers.new ≡ length numbers.old }
    ensures few { result ≤ length numbers.new }
    ensures numbers { take result numbers.new ≡ true_numbers first (map is_nonzero
        (numbers_at elem bytes.now run.now)) }
{
    let mut count = 0;
    for at in 0..run.count() {
        numbers[count] = first + at;
        count += count_of_element(read_at(bytes, run, at, elem, packed));
    }
    count
}

// Writes them by a loop specialised for contiguous Booleans, and by the general one otherwise.
fn write_true_numbers(numbers: &mut [u64], first: u64, mask: &IndexArray<'_>, run: &Run) -> usize
    requires room { length run.now ≤ length numbers.old }
    requires range { first + length run.now ≤ 2 ^ 32 }
    ensures len { length numbers.new ≡ length numbers.old }
    ensures few { result ≤ length numbers.new }
    ensures numbers { take result numbers.new ≡ true_numbers first (map is_nonzero
        (numbers_at mask.now.elem.now mask.now.bytes.now run.now)) }
{
    let known = Elem::little(Kind::Bool);
    if *mask.elem == known && is_packed(run, 1, mask.bytes.len()) {
        write_each_true(numbers, first, known, mask.bytes, run, true)
    } else {
        write_each_true(numbers, first, *mask.elem, mask.bytes, run, false)
    }
}

// Appends the byte offsets that these flat indices select. Divisions are left to the first of those
// in each block.
fn push_in_blocks(
    places: &mut Vec<u64>,
    row: &Row<'_>,
    axes: &Axes<'_>,
    numbers: &[u64],
) -> Result<(), AllocError>
    requires { All (λ k. k ≤ 2 ^ 32) numbers.now }
    ensures { OnOk result (places.new.items ≡ places.old.items
        ++ chosen_places row.now axes.now numbers.now) }
{
    let block = axes.even_block();
    let mut front = Front {
        number: 0,
        way: axes.way(0),
    };
    for number in numbers {
        front = axes.front_of(block, front, *number);
        let behind = (*number - front.number) as i64 * block.step;
        push_row(places, row, front.way + i128::from(behind))?;
    }
    Ok(())
}

// Appends the byte offsets that these flat indices select.
fn push_numbers(
    places: &mut Vec<u64>,
    row: &Row<'_>,
    axes: &Axes<'_>,
    numbers: &[u64],
) -> Result<(), AllocError>
    requires { All (λ k. k ≤ 2 ^ 32) numbers.now }
    ensures { OnOk result (places.new.items ≡ places.old.items
        ++ chosen_places row.now axes.now numbers.now) }
{
    if let Some(line) = line_of(row, axes) {
        return push_on_line(places, line, numbers);
    }
    push_in_blocks(places, row, axes, numbers)
}

// Appends the byte offsets that the true elements of a run select. `first` is the index of its
// first element.
fn push_trues(
    places: &mut Vec<u64>,
    row: &Row<'_>,
    axes: &Axes<'_>,
    first: u64,
    mask: &IndexArray<'_>,
    run: &Run,
) -> Result<(), AllocError>
    requires { first + length run.now ≤ 2 ^ 32 }
    ensures { OnOk result (places.new.items ≡ places.old.items ++ chosen_places row.now axes.now
        (true_numbers first (map is_nonzero
        (numbers_at mask.now.elem.now mask.now.bytes.now run.now)))) }
{
    let mut numbers = [0; PART];
    let mut at = 0;
    while at < run.count() {
        let part = run.part(at, (run.count() - at).min(PART as u64));
        let count = write_true_numbers(&mut numbers, first + at, mask, &part);
        push_numbers(places, row, axes, &numbers[..count])?;
        at += part.count();
    }
    Ok(())
}

/// Appends the byte offsets that the true elements of a mask select.
pub(crate) fn push_mask(
    places: &mut Vec<u64>,
    row: &Row<'_>,
    axes: &Axes<'_>,
    mask: &IndexArray<'_>,
) -> Result<(), AllocError>
    ensures { OnOk result (places.new.items ≡ places.old.items ++ chosen_places row.now axes.now
        (true_numbers 0 (map is_nonzero (numbers_of mask.now)))) }
{
    // proof: the number of elements is bounded, by the clause of count().
    let _count = mask.view.count();
    let mut first = 0;
    let mut runs = mask.view.runs();
    while let Some(run) = runs.next() {
        push_trues(places, row, axes, first, mask, &run)?;
        first += run.count();
    }
    Ok(())
}
