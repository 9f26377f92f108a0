//! `places_by_rows`: a selection of whole rows, kept as the byte offset at which each row begins.
ghost use Rattle.std.specs.Prelude.{◌≡◌, ◌^◌, ◌≤◌, ◌++◌, pos, ◌+ℤ◌, unsigned_abs, length, map, IfOk, IfSome, IsTrue};
ghost use Rattle.std.specs.List.{All, flat_map};
ghost use Rattle.nd_index.specs.Offsets.RowPlaces.{places_beside, way_on};
ghost use Rattle.nd_index.specs.Advanced.IndexNumbers.{numbers_in};
ghost use Rattle.nd_places.specs.Near.{IsNear};

use crate::advanced::index_numbers::IndexNumbers;
use crate::offsets::{Axes, KeptWays, is_near};
use nd_places::{PlaceList, Rows};
use std::alloc::{AllocError, Global};

// The least length of a row that is kept by its beginning.
const LONG: usize = 16;

// The offsets, where all of them fit 64 bits with room to add.
fn near_ways(alloc: Global, ways: &[i128]) -> Result<Option<Vec<i64>>, AllocError>
    ensures { IfOk result (λ found. IfSome found (λ v. (v.items ≡ ways.now)
        × All IsNear v.items)) }
{
    let mut near = Vec::with_capacity(alloc, ways.len())?;
    for way in ways {
        if !is_near(*way) {
            return Ok(None);
        }
        near.push(*way as i64)?;
    }
    Ok(Some(near))
}

// Appends the offsets at which the rows of these numbers begin. Returns false where one is not
// near.
fn push_starts(
    starts: &mut Vec<i64>,
    start: i128,
    axes: &Axes<'_>,
    numbers: &[u64],
) -> Result<bool, AllocError>
    requires start { unsigned_abs start ≤ 2 ^ 114 }
    requires numbers { All (λ k. k ≤ 2 ^ 32) numbers.now }
    requires near { All IsNear starts.old.items }
    ensures { IfOk result (λ all. IsTrue all → (All IsNear starts.new.items) × (starts.new.items
        ≡ starts.old.items ++ map (λ k. start +ℤ way_on axes.now k) numbers.now)) }
{
    for number in numbers {
        let way = start + axes.way(*number);
        if !is_near(way) {
            return Ok(false);
        }
        starts.push(way as i64)?;
    }
    Ok(true)
}

// Returns the offsets at which rows begin, for all kept axes before those of the array, or `None`
// where one is not near.
fn row_starts(
    alloc: Global,
    kept: &KeptWays<'_>,
    numbers: &[u64],
    axes: &Axes<'_>,
) -> Result<Option<Vec<i64>>, AllocError>
    requires { All (λ k. k ≤ 2 ^ 32) numbers.now }
    ensures { IfOk result (λ found. IfSome found (λ v. (All IsNear v.items) × (v.items
        ≡ flat_map (λ b. map (λ k. (pos kept.now.offset +ℤ b) +ℤ way_on axes.now k) numbers.now)
        kept.now.before.now))) }
{
    let mut starts = Vec::with_capacity(alloc, numbers.len())?;
    for way in kept.before {
        if !push_starts(&mut starts, i128::from(kept.offset) + *way, axes, numbers)? {
            return Ok(None);
        }
    }
    Ok(Some(starts))
}

/// Returns the selected byte offsets as rows, or `None` where the rows are short or an offset is
/// not near.
pub(crate) fn places_by_rows(
    alloc: Global,
    kept: &KeptWays<'_>,
    numbers: &IndexNumbers<'_, '_>,
    axes: &Axes<'_>,
) -> Result<Option<PlaceList>, AllocError>
    requires { All (λ k. k ≤ 2 ^ 32) (numbers_in numbers.now) }
    ensures { IfOk result (λ found. IfSome found (λ v. v
        ≡ places_beside kept.now axes.now (numbers_in numbers.now))) }
{
    if kept.behind.len() < LONG {
        return Ok(None);
    }
    let Some(ways) = near_ways(alloc, kept.behind)? else {
        return Ok(None);
    };
    let numbers = numbers.list(alloc)?;
    let Some(starts) = row_starts(alloc, kept, numbers.as_slice(), axes)? else {
        return Ok(None);
    };
    Ok(Some(PlaceList::of_rows(Rows { starts, ways })))
}
