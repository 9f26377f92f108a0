//! `set_trues`: sets the bits of the elements of a contiguous line that a mask selects, a word at a
//! time.
ghost use Rattle.std.specs.Prelude.{◌≡◌, ℕ, ◌+◌, ◌*◌, ◌/◌, ◌^◌, ◌<◌, ◌≤◌, ◌||◌, ◌&&◌, not, nat_le, nat_lt, nat_eq, length, slice_index, IfOk, OnOk};
ghost use Rattle.nd_marks.specs.Marks.{has_bit, in_word, in_trues, pages_of};

use crate::pages::{Pages, add_word};
use crate::words::{first_part, set_run};
use std::alloc::AllocError;

/// The word of `size` bits from bit `start` on where the byte of a mask is true, and else 0.
#[inline(always)]
fn chosen_bits(byte: u8, start: u64, size: u64) -> u64
    requires { (start < 64) × (size ≤ 64) }
    ensures { (i : ℕ) → i < 64 → in_word result i
        ≡ (not (nat_eq byte 0) && (nat_le start i && nat_lt i (start + size))) }
{
    if byte == 0 {
        0
    } else {
        first_part(start, size)
    }
}

/// The word of the elements that a mask selects, of `size` bytes each, from bit 0 on.
#[inline(always)]
fn word_of_trues(mask: &[u8], size: u64) -> u64
    requires size { 0 < size }
    requires room { length mask.now * size ≤ 64 }
    ensures { (i : ℕ) → i < 64
        → in_word result i ≡ not (nat_eq (slice_index mask.now (i / size)) 0) }
{
    let mut word = 0;
    for (at, byte) in mask.iter().enumerate() {
        word = word | chosen_bits(*byte, at as u64 * size, size);
    }
    word
}

/// Sets the bits of an element of `size` bytes, where its byte of a mask is true.
#[inline(always)]
fn set_true(pages: &mut Pages, place: u64, size: u64, byte: u8) -> Result<(), AllocError>
    requires { (0 < size) × (size ≤ 64) }
    ensures { OnOk result ((p : ℕ) → has_bit (pages_of pages.new.items) p
        ≡ (has_bit (pages_of pages.old.items) p
        || (not (nat_eq byte 0) && (nat_le place p && nat_lt p (place + size))))) }
{
    if byte != 0 {
        set_run(pages, place, size)?;
    }
    Ok(())
}

/// Sets the bits of selected elements from element `at` on, and returns up to which: as many as
/// fill a word where a word begins there, else of one.
#[inline(always)]
fn set_next(
    pages: &mut Pages,
    start: u64,
    size: u64,
    mask: &[u8],
    at: usize,
) -> Result<usize, AllocError>
    requires size { (0 < size) × (size ≤ 64) }
    requires at { at < length mask.now }
    requires near { start + length mask.now * size ≤ 2 ^ 64 }
    ensures more { IfOk result (λ next. (at < next) × (next ≤ length mask.now)) }
    ensures bits { IfOk result (λ next. (p : ℕ) → has_bit (pages_of pages.new.items) p
        ≡ (has_bit (pages_of pages.old.items) p || (nat_le (start + at * size) p
        && (nat_lt p (start + next * size) && in_trues start size mask.now p)))) }
{
    let place = start + at as u64 * size;
    let many = (64 / size) as usize;
    if place % 64 == 0 && many as u64 * size == 64 && mask.len() - at >= many {
        let word = word_of_trues(&mask[at..at + many], size);
        add_word(pages, place / 64, word)?;
        return Ok(at + many);
    }
    set_true(pages, place, size, mask[at])?;
    Ok(at + 1)
}

/// Sets the bits of all selected elements.
#[inline(always)]
fn set_line(pages: &mut Pages, start: u64, size: u64, mask: &[u8]) -> Result<(), AllocError>
    requires size { (0 < size) × (size ≤ 64) }
    requires near { start + length mask.now * size ≤ 2 ^ 64 }
    ensures { OnOk result ((p : ℕ) → has_bit (pages_of pages.new.items) p
        ≡ (has_bit (pages_of pages.old.items) p || in_trues start size mask.now p)) }
{
    let mut at = 0;
    while at < mask.len() {
        at = set_next(pages, start, size, mask, at)?;
    }
    Ok(())
}

/// Sets the bits of the elements of `size` bytes that a mask selects of a contiguous line from byte
/// offset `start` on, by a loop specialised for a usual itemsize.
pub(crate) fn set_trues(
    pages: &mut Pages,
    start: u64,
    size: u64,
    mask: &[u8],
) -> Result<(), AllocError>
    requires size { (0 < size) × (size ≤ 64) }
    requires near { start + length mask.now * size ≤ 2 ^ 64 }
    ensures { OnOk result ((p : ℕ) → has_bit (pages_of pages.new.items) p
        ≡ (has_bit (pages_of pages.old.items) p || in_trues start size mask.now p)) }
{
    match size {
        1 => set_line(pages, start, 1, mask),
        2 => set_line(pages, start, 2, mask),
        4 => set_line(pages, start, 4, mask),
        8 => set_line(pages, start, 8, mask),
        _ => set_line(pages, start, size, mask),
    }
}
