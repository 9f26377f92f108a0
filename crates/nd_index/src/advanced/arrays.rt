//! `array_ways`: the byte offsets that the arrays of an index add up to, for each index tuple of
//! their broadcast shape.
ghost use Rattle.std.specs.Prelude.{◌≡◌, ℕ, ℤ, ◌+◌, ◌^◌, ◌<◌, ◌≤◌, List, pos, ◌+ℤ◌, unsigned_abs, drop, length, map, slice_index_or, IfOk, IsTrue, ◌↔◌};
ghost use Rattle.std.specs.List.{All};
ghost use Rattle.nd_model.specs.Arrays.Tuple.{elements_of, indices};
ghost use Rattle.nd_index.specs.Advanced.Takes.{axes_taken, axes_taken_by, spread_of, take_of, takes_of};
ghost use Rattle.nd_index.specs.Advanced.TakenWays.{way_by, way_taken};
ghost use Rattle.nd_index.specs.Offsets.Ways.{AreNear, sums_at, sums_of};

use crate::advanced::spread::Spread;
use crate::advanced::takes::Take;
use crate::offsets::{own_numbers, ways_of, ways_to};
use smallvec::SmallVec;
use std::alloc::{AllocError, Global};

// The offset of this index, 0 where there is none.
fn way_at(ways: &[i128], number: i128) -> i128
    ensures { result ≡ slice_index_or ways.now (unsigned_abs number) (pos 0) }
{
    let number = number.unsigned_abs();
    if number < ways.len() as u128 {
        ways[number as usize]
    } else {
        0
    }
}

// Adds to each offset that of an array, which is looked up in `own` by its number.
fn add_ways(
    alloc: Global,
    ways: &[i128],
    own: &[i128],
    numbers: &[i128],
) -> Result<Vec<i128>, AllocError>
    requires each { length numbers.now ≡ length ways.now }
    requires near { AreNear ways.now × AreNear own.now }
    ensures { IfOk result (λ v. v.items ≡ sums_at own.now ways.now numbers.now) }
{
    let mut sums = Vec::with_capacity(alloc, ways.len())?;
    for (at, way) in ways.iter().enumerate() {
        sums.push(*way + way_at(own, numbers[at]))?;
    }
    Ok(sums)
}

/// Whether both shapes are equal, so that nothing is broadcast.
pub(crate) fn is_same_shape(shape: &[u64], many: &[u64]) -> bool
    ensures { IsTrue result ↔ (shape.now ≡ many.now) }
{
    shape == many
}

// Adds to each offset the one of the same index.
fn add_each(alloc: Global, ways: &[i128], own: &[i128]) -> Result<Vec<i128>, AllocError>
    requires each { length own.now ≡ length ways.now }
    requires near { AreNear ways.now × AreNear own.now }
    ensures { IfOk result (λ v. v.items ≡ sums_of ways.now own.now) }
{
    let mut sums = Vec::with_capacity(alloc, ways.len())?;
    for (at, way) in ways.iter().enumerate() {
        sums.push(*way + own[at])?;
    }
    Ok(sums)
}

// Adds the offsets of an array whose first axis is `axis`.
fn add_array(
    alloc: Global,
    ways: &[i128],
    many: &[u64],
    spread: &Spread<'_, '_>,
    sizes: &[u64],
    strides: &[i128],
    axis: usize,
) -> Result<Vec<i128>, AllocError>
    requires each { length ways.now ≡ elements_of many.now }
    requires near { AreNear ways.now }
    requires numbers { 0 < spread.now.count }
    requires within { axis + spread.now.axes ≤ length sizes.now }
    requires axes { length strides.now ≡ length sizes.now }
    requires most { length sizes.now ≤ 32 }
    requires some { 0 < elements_of sizes.now }
    requires few { elements_of sizes.now ≤ 2 ^ 24 }
    requires range { All (λ s. unsigned_abs s < 2 ^ 64) strides.now }
    requires many { length many.now ≤ 32 }
    requires limits { All (λ n. n ≤ 2 ^ 32) many.now }
    ensures { IfOk result (λ v. (f : List ℕ → ℤ) → ways.now ≡ map f (indices many.now)
        → v.items ≡ map (λ m. f m +ℤ way_by (spread_of spread.now) (drop axis sizes.now)
        (drop axis strides.now) m) (indices many.now)) }
{
    let end = axis + spread.axes;
    let lengths = &sizes[axis..end];
    let steps = &strides[axis..end];
    let chosen = spread.numbers.list(alloc)?;
    let own = ways_to(alloc, chosen.as_slice(), lengths, steps)?;
    if is_same_shape(spread.shape.as_slice(), many) {
        return add_each(alloc, ways, own.as_slice());
    }
    let numbers = own_numbers(alloc, spread.shape.as_slice(), spread.count, many)?;
    add_ways(alloc, ways, own.as_slice(), numbers.as_slice())
}

// Adds the offsets of what is taken from `axis` on. Whole axes add nothing, and neither does an
// empty array.
fn add_take(
    alloc: Global,
    ways: Vec<i128>,
    many: &[u64],
    take: &Take<'_, '_>,
    sizes: &[u64],
    strides: &[i128],
    axis: usize,
) -> Result<Vec<i128>, AllocError>
    requires each { length ways.items ≡ elements_of many.now }
    requires near { AreNear ways.items }
    requires within { axis + axes_taken_by (take_of take.now) ≤ length sizes.now }
    requires axes { length strides.now ≡ length sizes.now }
    requires most { length sizes.now ≤ 32 }
    requires some { 0 < elements_of sizes.now }
    requires few { elements_of sizes.now ≤ 2 ^ 24 }
    requires range { All (λ s. unsigned_abs s < 2 ^ 64) strides.now }
    requires many { length many.now ≤ 32 }
    requires limits { All (λ n. n ≤ 2 ^ 32) many.now }
    ensures { IfOk result (λ v. (f : List ℕ → ℤ) → ways.items ≡ map f (indices many.now)
        → v.items ≡ map (λ m. f m +ℤ way_by (take_of take.now) (drop axis sizes.now)
        (drop axis strides.now) m) (indices many.now)) }
{
    let Take::Spread(spread) = take else {
        return Ok(ways);
    };
    if spread.count == 0 {
        return Ok(ways);
    }
    add_array(alloc, ways.as_slice(), many, spread, sizes, strides, axis)
}

/// Returns the sum of the arrays' offsets for each index tuple of their broadcast shape `many`, on
/// axes with these lengths and strides.
pub(crate) fn array_ways(
    alloc: Global,
    takes: &[Take<'_, '_>],
    sizes: &[u64],
    strides: &[i128],
    many: &[u64],
) -> Result<Vec<i128>, AllocError>
    requires taken { axes_taken (takes_of takes.now) ≤ length sizes.now }
    requires axes { length strides.now ≡ length sizes.now }
    requires most { length sizes.now ≤ 32 }
    requires some { 0 < elements_of sizes.now }
    requires few { elements_of sizes.now ≤ 2 ^ 24 }
    requires range { All (λ s. unsigned_abs s < 2 ^ 64) strides.now }
    requires many { length many.now ≤ 32 }
    requires limits { All (λ n. n ≤ 2 ^ 32) many.now }
    ensures { IfOk result (λ v. v.items ≡ map (way_taken (takes_of takes.now) sizes.now strides.now)
        (indices many.now)) }
{
    let none: SmallVec<i128, 8> = SmallVec::from_elem(alloc, 0, many.len())?;
    let mut ways = ways_of(alloc, many, none.as_slice())?;
    let mut axis = 0;
    for take in takes {
        ways = add_take(alloc, ways, many, take, sizes, strides, axis)?;
        axis += take.axes();
    }
    Ok(ways)
}
