//! `set_bits` and `is_set`: sets of byte offsets as bits in the words of pages.
ghost use Rattle.std.specs.Prelude.{◌≡◌, ℕ, ◌+◌, ◌-◌, ◌*◌, ◌^◌, ◌<◌, ◌≤◌, ◌||◌, ◌&&◌, not, nat_le, nat_lt, nat_eq, false, true, length, slice_index, IsTrue, OnOk};
ghost use Rattle.std.specs.Int.{bit_at};
ghost use Rattle.std.specs.List.{All, flat_map};
ghost use Rattle.nd_model.specs.Cells.Session.{is_in};
ghost use Rattle.nd_model.specs.Arrays.Tuple.{count_up};
ghost use Rattle.nd_marks.specs.Marks.{has_bit, in_grid, in_grids, in_strip, in_word, pages_of, word_at};

use crate::grid::Grid;
use crate::pages::{PLACES, Pages, add_word, next_index, word_of};
use crate::strip::Strip;
use crate::walk::next_set;
use std::alloc::AllocError;

/// The word of the lowest `count` bits.
fn ones(count: u64) -> u64
    requires { count ≤ 64 }
    ensures { result ≡ 2 ^ count - 1 }
{
    if count == 64 {
        u64::MAX
    } else {
        (1 << count) - 1
    }
}

/// The word of the bits `from..to`.
fn mask(from: u64, to: u64) -> u64
    requires { (from ≤ to) × (to ≤ 64) }
    ensures { result ≡ 2 ^ to - 2 ^ from }
{
    ones(to) - ones(from)
}

/// Returns whether the bit of a byte offset is set.
pub(crate) fn is_set(pages: &[Vec<u64>], place: u64) -> bool
    ensures { result ≡ has_bit (pages_of pages.now) place }
{
    (word_of(pages, u128::from(place / 64)) >> (place % 64)) & 1 == 1
}

/// Returns whether a bit of `from..to` is set. A page that is not there is passed over at once.
pub(crate) fn any_set(pages: &[Vec<u64>], from: u128, to: u128) -> bool
    ensures none { result ≡ false → (p : ℕ) → from ≤ p → p < to
        → has_bit (pages_of pages.now) p ≡ false }
    ensures some { IsTrue result
        → ((p : ℕ) × (from ≤ p) × (p < to) × IsTrue (has_bit (pages_of pages.now) p)) }
{
    let end = to.min(pages.len() as u128 * PLACES);
    let mut at = from;
    while at < end {
        let index = at / 64;
        let set = next_set(word_of(pages, index), (at % 64) as u64);
        if set.from < set.to {
            return index * 64 + u128::from(set.from) < end;
        }
        at = next_index(pages, index) * 64;
    }
    false
}

/// Returns whether all bits of `from..to` are set. A whole word is compared at once.
pub(crate) fn are_set(pages: &[Vec<u64>], from: u64, to: u64) -> bool
    ensures { IsTrue result → (p : ℕ) → from ≤ p → p < to
        → has_bit (pages_of pages.now) p ≡ true }
{
    let mut at = from;
    while at < to {
        if at % 64 == 0 && to - at >= 64 {
            if word_of(pages, u128::from(at / 64)) != u64::MAX {
                return false;
            }
            at += 64;
        } else {
            if !is_set(pages, at) {
                return false;
            }
            at += 1;
        }
    }
    true
}

/// Sets the bits `from..to` of a word, except those of `except`.
fn set_word(pages: &mut Pages, at: u64, from: u64, to: u64, except: u64) -> Result<(), AllocError>
    requires { (from ≤ to) × (to ≤ 64) }
    ensures { OnOk result ((q i : ℕ) → i < 64
        → in_word (word_at (pages_of pages.new.items) q) i
        ≡ (in_word (word_at (pages_of pages.old.items) q) i
        || (nat_eq q at && ((nat_le from i && nat_lt i to) && not (in_word except i))))) }
{
    add_word(pages, at, mask(from, to) & !except)?;
    Ok(())
}

/// Sets the bits of the byte offsets `from..to`, except those of `except`.
pub(crate) fn set_bits(
    pages: &mut Pages,
    from: u128,
    to: u128,
    except: &[Vec<u64>],
) -> Result<(), AllocError>
    requires { to ≤ 2 ^ 65 }
    ensures { OnOk result ((p : ℕ) → has_bit (pages_of pages.new.items) p
        ≡ (has_bit (pages_of pages.old.items) p || ((nat_le from p && nat_lt p to)
        && not (has_bit (pages_of except.now) p)))) }
{
    if to <= from {
        return Ok(());
    }
    let first = (from / 64) as u64;
    let end = ((to - 1) / 64 + 1) as u64;
    for at in first..end {
        let low = u128::from(at) * 64;
        let start = (from.max(low) - low) as u64;
        let stop = (to - low).min(64) as u64;
        set_word(pages, at, start, stop, word_of(except, u128::from(at)))?;
    }
    Ok(())
}

/// The word of `size` bits from bit `start` on. Those past its end are left out.
#[inline(always)]
pub(crate) fn first_part(start: u64, size: u64) -> u64
    requires { (start < 64) × (size ≤ 64) }
    ensures { (i : ℕ) → i < 64
        → in_word result i ≡ (nat_le start i && nat_lt i (start + size)) }
{
    ones(size) << start
}

/// The next word of such bits, with those that are past the end of the first.
#[inline(always)]
fn second_part(start: u64, size: u64) -> u64
    requires { (start < 64) × ((size ≤ 64) × (64 < start + size)) }
    ensures { (i : ℕ) → in_word result i ≡ nat_lt (i + 64) (start + size) }
{
    ones(size) >> (64 - start)
}

/// Sets the bits of `size` byte offsets from `first` on: by one OR where they lie in one word.
#[inline(always)]
pub(crate) fn set_run(pages: &mut Pages, first: u64, size: u64) -> Result<(), AllocError>
    requires { (0 < size) × (size ≤ 64) }
    ensures { OnOk result ((p : ℕ) → has_bit (pages_of pages.new.items) p
        ≡ (has_bit (pages_of pages.old.items) p || (nat_le first p && nat_lt p (first + size)))) }
{
    let at = first / 64;
    let start = first % 64;
    add_word(pages, at, first_part(start, size))?;
    if start + size > 64 {
        add_word(pages, at + 1, second_part(start, size))?;
    }
    Ok(())
}

/// Sets the bits of `size` byte offsets from each of these on.
#[inline(always)]
fn set_each(pages: &mut Pages, places: &[u64], size: u64) -> Result<(), AllocError>
    requires { (0 < size) × (size ≤ 64) }
    ensures { OnOk result ((p : ℕ) → has_bit (pages_of pages.new.items) p
        ≡ (has_bit (pages_of pages.old.items) p
        || is_in p (flat_map (λ q. count_up q size) places.now))) }
{
    for place in places {
        set_run(pages, *place, size)?;
    }
    Ok(())
}

/// Sets the bits of `size` byte offsets from each of these on. A usual itemsize has a loop of its
/// own.
fn set_runs(pages: &mut Pages, places: &[u64], size: u64) -> Result<(), AllocError>
    requires { (0 < size) × (size ≤ 64) }
    ensures { OnOk result ((p : ℕ) → has_bit (pages_of pages.new.items) p
        ≡ (has_bit (pages_of pages.old.items) p
        || is_in p (flat_map (λ q. count_up q size) places.now))) }
{
    match size {
        1 => set_each(pages, places, 1),
        2 => set_each(pages, places, 2),
        4 => set_each(pages, places, 4),
        8 => set_each(pages, places, 8),
        _ => set_each(pages, places, size),
    }
}

/// Returns whether elements of `size` bytes at these byte offsets are contiguous.
pub(crate) fn are_adjacent(places: &[u64], size: u64) -> bool
    ensures { IsTrue result → (k : ℕ) → k < length places.now
        → slice_index places.now k ≡ slice_index places.now 0 + k * size }
{
    for at in 1..places.len() {
        let before = places[at - 1];
        if places[at] < before || places[at] - before != size {
            return false;
        }
    }
    true
}

/// Sets the bits of the numbers of `size` bytes at these byte offsets: as one range where they are
/// contiguous.
pub(crate) fn set_numbers(pages: &mut Pages, places: &[u64], size: u64) -> Result<(), AllocError>
    requires size { (0 < size) × (size ≤ 64) }
    requires near { All (λ p. p + size ≤ 2 ^ 64) places.now }
    ensures { OnOk result ((p : ℕ) → has_bit (pages_of pages.new.items) p
        ≡ (has_bit (pages_of pages.old.items) p
        || is_in p (flat_map (λ q. count_up q size) places.now))) }
{
    let Some(first) = places.first() else {
        return Ok(());
    };
    if are_adjacent(places, size) {
        let from = u128::from(*first);
        let to = from + places.len() as u128 * u128::from(size);
        set_bits(pages, from, to, &[])?;
        return Ok(());
    }
    set_runs(pages, places, size)
}

/// Sets the bits of all rows of a strip.
fn set_strip(pages: &mut Pages, strip: &Strip) -> Result<(), AllocError>
    ensures { OnOk result ((p : ℕ) → has_bit (pages_of pages.new.items) p
        ≡ (has_bit (pages_of pages.old.items) p || in_strip strip.now p)) }
{
    for number in 0..strip.count() {
        let from = strip.start(number);
        set_bits(pages, from, from + u128::from(strip.width()), &[])?;
    }
    Ok(())
}

/// Sets the bits of all rows of a grid.
pub(crate) fn set_grid(pages: &mut Pages, grid: &Grid) -> Result<(), AllocError>
    ensures { OnOk result ((p : ℕ) → has_bit (pages_of pages.new.items) p
        ≡ (has_bit (pages_of pages.old.items) p || in_grid grid.now p)) }
{
    for number in 0..grid.lines() {
        set_strip(pages, &grid.line(number))?;
    }
    Ok(())
}

/// Sets the bits of all rows of these grids.
pub(crate) fn set_grids(pages: &mut Pages, grids: &[Grid]) -> Result<(), AllocError>
    ensures { OnOk result ((p : ℕ) → has_bit (pages_of pages.new.items) p
        ≡ (has_bit (pages_of pages.old.items) p || in_grids grids.now p)) }
{
    for grid in grids {
        set_grid(pages, grid)?;
    }
    Ok(())
}
