//! `places_on`: byte offsets in a block, as sums of the offsets of axes and arrays.
ghost use Rattle.std.specs.Prelude.{◌≡◌, ◌++◌, ◌^◌, ◌≤◌, pos, ◌+ℤ◌, unsigned_abs, map, IfOk, OnOk};
ghost use Rattle.std.specs.List.{flat_map};
ghost use Rattle.nd_places.specs.Near.{place_on};
ghost use Rattle.nd_index.specs.Offsets.Ways.{AreNear};

use std::alloc::{AllocError, Global};

/// Returns the byte offset at a distance from a block's first byte, and 0 where that is no offset.
#[inline(always)]
pub fn place_on(way: i128) -> u64
    ensures { result ≡ place_on way }
{
    if way < 0 || way > i128::from(u64::MAX) {
        return 0;
    }
    way as u64
}

/// Appends the byte offsets at distances `ways` from `start`.
#[inline(never)]
pub fn push_places(places: &mut Vec<u64>, start: i128, ways: &[i128]) -> Result<(), AllocError>
    requires start { unsigned_abs start ≤ 2 ^ 116 }
    requires near { AreNear ways.now }
    ensures { OnOk result (places.new.items ≡ places.old.items
        ++ map (λ z. place_on (start +ℤ z)) ways.now) }
{
    for way in ways {
        places.push(place_on(start + *way))?;
    }
    Ok(())
}

// Appends those byte offsets for each offset of the arrays.
fn push_rows(
    places: &mut Vec<u64>,
    start: i128,
    arrays: &[i128],
    ways: &[i128],
) -> Result<(), AllocError>
    requires start { unsigned_abs start ≤ 2 ^ 114 }
    requires near { AreNear arrays.now × AreNear ways.now }
    ensures { OnOk result (places.new.items ≡ places.old.items ++ flat_map (λ a.
        map (λ z. place_on ((start +ℤ a) +ℤ z)) ways.now) arrays.now) }
{
    for array in arrays {
        push_places(places, start + *array, ways)?;
    }
    Ok(())
}

/// Returns the byte offsets of all selected elements: `offset`, plus one of `before`, one of
/// `arrays` and one of `behind`, in C order. All are in bytes; room is made for `count`.
pub fn places_on(
    alloc: Global,
    count: usize,
    offset: u64,
    before: &[i128],
    arrays: &[i128],
    behind: &[i128],
) -> Result<Vec<u64>, AllocError>
    requires near { AreNear before.now × AreNear arrays.now × AreNear behind.now }
    ensures { IfOk result (λ v. v.items ≡ flat_map (λ b. flat_map (λ a. map (λ z. place_on
        (((pos offset +ℤ b) +ℤ a) +ℤ z)) behind.now) arrays.now) before.now) }
{
    let mut places = Vec::with_capacity(alloc, count)?;
    for way in before {
        push_rows(&mut places, i128::from(offset) + *way, arrays, behind)?;
    }
    Ok(places)
}
