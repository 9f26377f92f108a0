//! `push_near_places`: byte offsets worked out in 64 bits, which is faster, where all terms are
//! small enough.
ghost use Rattle.std.specs.Prelude.{◌≡◌, ℕ, ◌++◌, ◌^◌, ◌≤◌, [], ◌∷◌, pos, ◌+ℤ◌, ◌*ℤ◌, unsigned_abs, map, OnOk, IsTrue, ◌↔◌, MatchOption};
ghost use Rattle.std.specs.List.{All};
ghost use Rattle.nd_index.specs.Offsets.RowPlaces.{IsOnLine, row_places, way_on};
ghost use Rattle.nd_places.specs.Near.{IsNear, place_on};

use crate::offsets::axes::Axes;
use crate::offsets::row::Row;
use nd_places::{StridedLine, near_place};
use std::alloc::AllocError;

// The greatest distance in bytes whose sums fit 64 bits.
const NEAR: u128 = 1 << 61;

/// Returns whether an offset is near: small enough for sums of 64 bits.
pub fn is_near(way: i128) -> bool
    ensures { IsTrue result ↔ IsNear way }
{
    way.unsigned_abs() <= NEAR
}

/// Returns whether all offsets are near.
pub fn are_near(ways: &[i128]) -> bool
    ensures { IsTrue result ↔ All IsNear ways.now }
{
    for way in ways {
        if !is_near(*way) {
            return false;
        }
    }
    true
}

/// Appends the byte offsets at distances `ways` from `start`, all of which are near.
#[inline(never)]
pub fn push_near_places(places: &mut Vec<u64>, start: i64, ways: &[i128]) -> Result<(), AllocError>
    requires start { IsNear start }
    requires near { All IsNear ways.now }
    ensures { OnOk result (places.new.items ≡ places.old.items
        ++ map (λ z. place_on (start +ℤ z)) ways.now) }
{
    for way in ways {
        places.push(near_place(start + *way as i64))?;
    }
    Ok(())
}

/// Returns the strided line on which the elements of some axes lie in C order, as contiguous ones do.
/// `None` where there is none, where each index selects several elements, or where they are not near.
pub fn line_of(row: &Row<'_>, axes: &Axes<'_>) -> Option<StridedLine>
    ensures { MatchOption result (IsOnLine row.now axes.now → ⊥)
        (λ l. (k : ℕ) → row_places row.now (way_on axes.now k)
        ≡ place_on (l.start +ℤ (pos k *ℤ l.step)) ∷ []) }
{
    let step = axes.step?;
    if row.ways.len() != 1 {
        return None;
    }
    let start = row.start + row.ways[0];
    if !is_near(start) {
        return None;
    }
    Some(StridedLine {
        start: start as i64,
        step,
    })
}

/// Appends the byte offsets of the elements of a line that have these indices.
#[inline(never)]
pub fn push_on_line(
    places: &mut Vec<u64>,
    line: StridedLine,
    numbers: &[u64],
) -> Result<(), AllocError>
    requires { All (λ k. k ≤ 2 ^ 32) numbers.now }
    ensures { OnOk result (places.new.items ≡ places.old.items
        ++ map (λ k. place_on (line.start +ℤ (pos k *ℤ line.step))) numbers.now) }
{
    for number in numbers {
        places.push(near_place(line.start + *number as i64 * line.step))?;
    }
    Ok(())
}
