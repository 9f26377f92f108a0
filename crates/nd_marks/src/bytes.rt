//! `is_same_grids` and `patch_grids`: compares and copies the bytes of blocks at marked byte
//! offsets, row by row and word by word.
ghost use Rattle.std.specs.Prelude.{◌≡◌, ℕ, ◌+◌, ◌-◌, ◌*◌, ◌^◌, ◌<◌, ◌≤◌, ◌++◌, ◌&&◌, ◌↔◌, OnOk, if◌then◌else◌, IsTrue, true, nat_eq, nat_le, nat_lt, length, map, slice_index};
ghost use Rattle.std.specs.Int.{bit_at, from_le_bytes, to_le_bytes, w16, w32, w64};
ghost use Rattle.nd_model.specs.Arrays.Element.{bytes_at};
ghost use Rattle.nd_marks.specs.Kept.{row_places, rows_left};
ghost use Rattle.nd_marks.specs.Marks.{has_bit, in_grid, in_grids, in_strip, in_word, pages_of};

use crate::grid::Grid;
use crate::pages::{WORDS, next_index, word_of};
use crate::strip::Strip;
use std::alloc::AllocError;

/// How many rows are copied to a buffer before they are appended.
const ROWS: u64 = 64;

/// How many bytes the buffer has: those of rows of the greatest itemsize.
const BUFFER: usize = 8 * ROWS as usize;

/// Returns the byte at a byte offset, 0 past the end.
pub(crate) fn byte_at(bytes: &[u8], place: u128) -> u8
    ensures { result ≡ slice_index bytes.now place }
{
    if place < bytes.len() as u128 {
        bytes[place as usize]
    } else {
        0
    }
}

/// Whether both have equal bytes in a range that lies in both.
fn is_same_inside(a: &[u8], b: &[u8], start: usize, end: usize) -> bool
    requires { (start ≤ end) × (end ≤ length a.now) × (end ≤ length b.now) }
    ensures { IsTrue result
        ↔ ((p : ℕ) → start ≤ p → p < end → slice_index a.now p ≡ slice_index b.now p) }
{
    a[start..end] == b[start..end]
}

/// Whether both have equal bytes in a range, compared one by one.
fn is_same_outside(a: &[u8], b: &[u8], from: u128, to: u128) -> bool
    ensures { IsTrue result
        ↔ ((p : ℕ) → from ≤ p → p < to → slice_index a.now p ≡ slice_index b.now p) }
{
    let end = to.min(a.len().max(b.len()) as u128);
    for place in from..end {
        if byte_at(a, place) != byte_at(b, place) {
            return false;
        }
    }
    true
}

/// Returns whether both have equal bytes in `from..to`. A byte past an end reads as 0.
pub(crate) fn is_same_range(a: &[u8], b: &[u8], from: u128, to: u128) -> bool
    ensures { IsTrue result
        ↔ ((p : ℕ) → from ≤ p → p < to → slice_index a.now p ≡ slice_index b.now p) }
{
    let both = a.len().min(b.len());
    let end = to.min(both as u128) as usize;
    let start = from.min(end as u128) as usize;
    is_same_inside(a, b, start, end) && is_same_outside(a, b, from.max(both as u128), to)
}

/// Whether both have equal bytes at the set bits of a word. A word of all bits is a range.
fn is_same_word(a: &[u8], b: &[u8], word: u64, low: u128) -> bool
    requires { low < 2 ^ 100 }
    ensures { IsTrue result ↔ ((i : ℕ) → i < 64 → in_word word i ≡ true
        → slice_index a.now (low + i) ≡ slice_index b.now (low + i)) }
{
    if word == 0 {
        return true;
    }
    if word == u64::MAX {
        return is_same_range(a, b, low, low + 64);
    }
    for bit in 0..64_u64 {
        if (word >> bit) & 1 == 1
            && byte_at(a, low + u128::from(bit)) != byte_at(b, low + u128::from(bit))
        {
            return false;
        }
    }
    true
}

/// Returns whether both have equal bytes at all set bits.
pub(crate) fn is_same_pages(a: &[u8], b: &[u8], pages: &[Vec<u64>]) -> bool
    ensures { IsTrue result ↔ ((p : ℕ) → has_bit (pages_of pages.now) p ≡ true
        → slice_index a.now p ≡ slice_index b.now p) }
{
    let end = pages.len() as u128 * WORDS as u128;
    let mut at = 0;
    while at < end {
        if !is_same_word(a, b, word_of(pages, at), at * 64) {
            return false;
        }
        at = next_index(pages, at);
    }
    true
}

/// Copies the bytes of a range that lies in both.
#[inline(always)]
fn patch_inside(target: &mut [u8], source: &[u8], start: usize, end: usize)
    requires { (start ≤ end) × (end ≤ length target.old) × (end ≤ length source.now) }
    ensures len { length target.new ≡ length target.old }
    ensures bytes { (p : ℕ) → p < length target.old
        → slice_index target.new p ≡ (if nat_le start p && nat_lt p end
        then slice_index source.now p else slice_index target.old p) }
{
    target[start..end].copy_from_slice(&source[start..end]);
}

/// Copies the bytes of a range one by one.
fn patch_outside(target: &mut [u8], source: &[u8], from: u128, to: u128)
    ensures len { length target.new ≡ length target.old }
    ensures bytes { (p : ℕ) → p < length target.old
        → slice_index target.new p ≡ (if nat_le from p && nat_lt p to
        then slice_index source.now p else slice_index target.old p) }
{
    let end = to.min(target.len() as u128);
    if end <= from {
        return;
    }
    for place in from..end {
        target[place as usize] = byte_at(source, place);
    }
}

/// Copies the bytes of `from..to`. Bytes past the target's end are skipped.
pub(crate) fn patch_range(target: &mut [u8], source: &[u8], from: u128, to: u128)
    ensures len { length target.new ≡ length target.old }
    ensures bytes { (p : ℕ) → p < length target.old
        → slice_index target.new p ≡ (if nat_le from p && nat_lt p to
        then slice_index source.now p else slice_index target.old p) }
{
    let both = target.len().min(source.len());
    let end = to.min(both as u128) as usize;
    let start = from.min(end as u128) as usize;
    patch_inside(target, source, start, end);
    patch_outside(target, source, from.max(both as u128), to);
}

/// Copies the bytes at the set bits of a word.
fn patch_word(target: &mut [u8], source: &[u8], word: u64, low: u128)
    requires { low < 2 ^ 100 }
    ensures len { length target.new ≡ length target.old }
    ensures bytes { (p : ℕ) → p < length target.old
        → slice_index target.new p
        ≡ (if (nat_le low p && nat_lt p (low + 64)) && in_word word (p - low)
        then slice_index source.now p else slice_index target.old p) }
{
    if word == 0 {
        return;
    }
    if word == u64::MAX {
        patch_range(target, source, low, low + 64);
        return;
    }
    for bit in 0..64_u64 {
        let place = low + u128::from(bit);
        if (word >> bit) & 1 == 1 && place < target.len() as u128 {
            target[place as usize] = byte_at(source, place);
        }
    }
}

/// Copies the bytes at all set bits.
pub(crate) fn patch_pages(target: &mut [u8], source: &[u8], pages: &[Vec<u64>])
    ensures len { length target.new ≡ length target.old }
    ensures bytes { (p : ℕ) → p < length target.old
        → slice_index target.new p ≡ (if has_bit (pages_of pages.now) p
        then slice_index source.now p else slice_index target.old p) }
{
    let end = pages.len() as u128 * WORDS as u128;
    let mut at = 0;
    while at < end {
        patch_word(target, source, word_of(pages, at), at * 64);
        at = next_index(pages, at);
    }
}

/// The 16 bits from a byte offset on. The bytes are copied together, so that they are one load.
#[inline(always)]
fn bits16(bytes: &[u8], from: usize) -> u16
    requires { from + 2 ≤ length bytes.now }
    ensures value { result ≡ from_le_bytes w16 (bytes_at bytes.now from 2) }
    ensures bytes { to_le_bytes w16 result ≡ bytes_at bytes.now from 2 }
{
    let mut run = [0; 2];
    run.copy_from_slice(&bytes[from..from + 2]);
    u16::from_le_bytes(run)
}

/// The 32 bits from a byte offset on.
#[inline(always)]
fn bits32(bytes: &[u8], from: usize) -> u32
    requires { from + 4 ≤ length bytes.now }
    ensures value { result ≡ from_le_bytes w32 (bytes_at bytes.now from 4) }
    ensures bytes { to_le_bytes w32 result ≡ bytes_at bytes.now from 4 }
{
    let mut run = [0; 4];
    run.copy_from_slice(&bytes[from..from + 4]);
    u32::from_le_bytes(run)
}

/// The 64 bits from a byte offset on.
#[inline(always)]
fn bits64(bytes: &[u8], from: usize) -> u64
    requires { from + 8 ≤ length bytes.now }
    ensures value { result ≡ from_le_bytes w64 (bytes_at bytes.now from 8) }
    ensures bytes { to_le_bytes w64 result ≡ bytes_at bytes.now from 8 }
{
    let mut run = [0; 8];
    run.copy_from_slice(&bytes[from..from + 8]);
    u64::from_le_bytes(run)
}

/// Appends the bytes of a row. A row as wide as a usual itemsize is appended as one number.
#[inline(always)]
pub(crate) fn append_row(
    bytes: &mut Vec<u8>,
    block: &[u8],
    from: usize,
    width: usize,
) -> Result<(), AllocError>
    requires { from + width ≤ length block.now }
    ensures { OnOk result (bytes.new.items ≡ bytes.old.items ++ bytes_at block.now from width) }
{
    match width {
        1 => bytes.extend_from_slice(&[block[from]]),
        2 => bytes.extend_from_slice(&bits16(block, from).to_le_bytes()),
        4 => bytes.extend_from_slice(&bits32(block, from).to_le_bytes()),
        8 => bytes.extend_from_slice(&bits64(block, from).to_le_bytes()),
        _ => bytes.extend_from_slice(&block[from..from + width]),
    }
}

/// Copies the bytes of a row. A row as wide as a usual itemsize is copied as one number.
#[inline(always)]
fn copy_row(target: &mut [u8], block: &[u8], from: usize, width: usize)
    requires target { length target.old ≡ width }
    requires inside { from + width ≤ length block.now }
    ensures { target.new ≡ bytes_at block.now from width }
{
    match width {
        1 => target[0] = block[from],
        2 => target.copy_from_slice(&bits16(block, from).to_le_bytes()),
        4 => target.copy_from_slice(&bits32(block, from).to_le_bytes()),
        8 => target.copy_from_slice(&bits64(block, from).to_le_bytes()),
        _ => target.copy_from_slice(&block[from..from + width]),
    }
}

/// Copies the bytes of rows of a block, one row behind the other.
#[inline(always)]
fn copy_rows(target: &mut [u8], block: &[u8], first: usize, step: u64, count: usize, width: usize)
    requires target { length target.old ≡ count * width }
    requires inside { (k : ℕ) → k < count → first + k * step + width ≤ length block.now }
    ensures { target.new ≡ map (slice_index block.now) (row_places first width step count) }
{
    for row in 0..count {
        let at = row * width;
        copy_row(
            &mut target[at..at + width],
            block,
            first + row * step as usize,
            width,
        );
    }
}

/// Appends the bytes of all rows of a strip of this width that lies in the block. They are copied to
/// a buffer first, and appended as many at a time as it has room for.
#[inline(always)]
fn append_each(
    bytes: &mut Vec<u8>,
    block: &[u8],
    strip: &Strip,
    width: usize,
) -> Result<(), AllocError>
    requires width { width ≡ strip.now.width }
    requires narrow { width ≤ 8 }
    requires inside { (k : ℕ) → k < strip.now.count
        → strip.now.first + k * strip.now.step + strip.now.width ≤ length block.now }
    ensures { OnOk result (bytes.new.items
        ≡ bytes.old.items ++ map (slice_index block.now) (rows_left strip.now 0)) }
{
    let mut buffer = [0; BUFFER];
    let (step, all) = (strip.step(), strip.count());
    let mut number = 0;
    while number < all {
        let count = (all - number).min(ROWS);
        let part = &mut buffer[..count as usize * width];
        copy_rows(
            part,
            block,
            strip.offset(number),
            step,
            count as usize,
            width,
        );
        bytes.extend_from_slice(part)?;
        number += count;
    }
    Ok(())
}

/// Appends the bytes of all rows of a strip that lies in the block, one by one.
fn append_wide(bytes: &mut Vec<u8>, block: &[u8], strip: &Strip) -> Result<(), AllocError>
    requires { (k : ℕ) → k < strip.now.count
        → strip.now.first + k * strip.now.step + strip.now.width ≤ length block.now }
    ensures { OnOk result (bytes.new.items
        ≡ bytes.old.items ++ map (slice_index block.now) (rows_left strip.now 0)) }
{
    for number in 0..strip.count() {
        append_row(bytes, block, strip.offset(number), strip.width() as usize)?;
    }
    Ok(())
}

/// Appends the bytes of all rows of a strip that lies in the block, by loops specialised for the
/// usual itemsizes.
pub(crate) fn append_rows(
    bytes: &mut Vec<u8>,
    block: &[u8],
    strip: &Strip,
) -> Result<(), AllocError>
    requires { (k : ℕ) → k < strip.now.count
        → strip.now.first + k * strip.now.step + strip.now.width ≤ length block.now }
    ensures { OnOk result (bytes.new.items
        ≡ bytes.old.items ++ map (slice_index block.now) (rows_left strip.now 0)) }
{
    match strip.width() {
        1 => append_each(bytes, block, strip, 1),
        2 => append_each(bytes, block, strip, 2),
        3 => append_each(bytes, block, strip, 3),
        4 => append_each(bytes, block, strip, 4),
        8 => append_each(bytes, block, strip, 8),
        _ => append_wide(bytes, block, strip),
    }
}

/// Whether both have equal bytes in a row that lies in both. A row as wide as a usual itemsize is
/// compared as one number.
#[inline(always)]
fn is_same_row(a: &[u8], b: &[u8], from: usize, width: usize) -> bool
    requires { (from + width ≤ length a.now) × (from + width ≤ length b.now) }
    ensures { IsTrue result
        ↔ ((p : ℕ) → from ≤ p → p < from + width → slice_index a.now p ≡ slice_index b.now p) }
{
    match width {
        1 => a[from] == b[from],
        2 => bits16(a, from) == bits16(b, from),
        3 => is_same_inside(a, b, from, from + 3),
        4 => bits32(a, from) == bits32(b, from),
        8 => bits64(a, from) == bits64(b, from),
        _ => is_same_inside(a, b, from, from + width),
    }
}

/// Whether both have equal bytes in all rows of a strip that lies in both.
fn is_same_rows(a: &[u8], b: &[u8], strip: &Strip) -> bool
    requires a { (k : ℕ) → k < strip.now.count
        → strip.now.first + k * strip.now.step + strip.now.width ≤ length a.now }
    requires b { (k : ℕ) → k < strip.now.count
        → strip.now.first + k * strip.now.step + strip.now.width ≤ length b.now }
    ensures { IsTrue result ↔ ((p : ℕ) → in_strip strip.now p ≡ true
        → slice_index a.now p ≡ slice_index b.now p) }
{
    let width = strip.width() as usize;
    for number in 0..strip.count() {
        if !is_same_row(a, b, strip.offset(number), width) {
            return false;
        }
    }
    true
}

/// Whether both have equal bytes in all rows of a strip.
fn is_same_strip(a: &[u8], b: &[u8], strip: &Strip) -> bool
    ensures { IsTrue result ↔ ((p : ℕ) → in_strip strip.now p ≡ true
        → slice_index a.now p ≡ slice_index b.now p) }
{
    if strip.lies_in(a.len()) && strip.lies_in(b.len()) {
        return is_same_rows(a, b, strip);
    }
    let width = u128::from(strip.width());
    for number in 0..strip.count() {
        let from = strip.start(number);
        if !is_same_range(a, b, from, from + width) {
            return false;
        }
    }
    true
}

/// Returns whether both have equal bytes in all rows of a grid.
pub(crate) fn is_same_grid(a: &[u8], b: &[u8], grid: &Grid) -> bool
    ensures { IsTrue result ↔ ((p : ℕ) → in_grid grid.now p ≡ true
        → slice_index a.now p ≡ slice_index b.now p) }
{
    for number in 0..grid.lines() {
        if !is_same_strip(a, b, &grid.line(number)) {
            return false;
        }
    }
    true
}

/// Returns whether both have equal bytes in all rows of all grids.
pub(crate) fn is_same_grids(a: &[u8], b: &[u8], grids: &[Grid]) -> bool
    ensures { IsTrue result ↔ ((p : ℕ) → in_grids grids.now p ≡ true
        → slice_index a.now p ≡ slice_index b.now p) }
{
    for grid in grids {
        if !is_same_grid(a, b, grid) {
            return false;
        }
    }
    true
}

/// Copies the bytes of a row that lies in both. A row as wide as a usual itemsize is copied as one
/// number.
#[inline(always)]
fn patch_row(target: &mut [u8], source: &[u8], from: usize, width: usize)
    requires { (from + width ≤ length target.old) × (from + width ≤ length source.now) }
    ensures len { length target.new ≡ length target.old }
    ensures bytes { (p : ℕ) → p < length target.old
        → slice_index target.new p ≡ (if nat_le from p && nat_lt p (from + width)
        then slice_index source.now p else slice_index target.old p) }
{
    match width {
        1 => patch_inside(target, source, from, from + 1),
        2 => patch_inside(target, source, from, from + 2),
        3 => patch_inside(target, source, from, from + 3),
        4 => patch_inside(target, source, from, from + 4),
        8 => patch_inside(target, source, from, from + 8),
        _ => patch_inside(target, source, from, from + width),
    }
}

/// Copies the bytes of all rows of a strip that lies in both.
fn patch_rows(target: &mut [u8], source: &[u8], strip: &Strip)
    requires target { (k : ℕ) → k < strip.now.count
        → strip.now.first + k * strip.now.step + strip.now.width ≤ length target.old }
    requires source { (k : ℕ) → k < strip.now.count
        → strip.now.first + k * strip.now.step + strip.now.width ≤ length source.now }
    ensures len { length target.new ≡ length target.old }
    ensures bytes { (p : ℕ) → p < length target.old
        → slice_index target.new p ≡ (if in_strip strip.now p
        then slice_index source.now p else slice_index target.old p) }
{
    let width = strip.width() as usize;
    for number in 0..strip.count() {
        patch_row(target, source, strip.offset(number), width);
    }
}

/// Copies the bytes of all rows of a strip.
fn patch_strip(target: &mut [u8], source: &[u8], strip: &Strip)
    ensures len { length target.new ≡ length target.old }
    ensures bytes { (p : ℕ) → p < length target.old
        → slice_index target.new p ≡ (if in_strip strip.now p
        then slice_index source.now p else slice_index target.old p) }
{
    if strip.lies_in(target.len()) && strip.lies_in(source.len()) {
        patch_rows(target, source, strip);
        return;
    }
    let width = u128::from(strip.width());
    for number in 0..strip.count() {
        let from = strip.start(number);
        patch_range(target, source, from, from + width);
    }
}

/// Copies the bytes of all rows of a grid.
pub(crate) fn patch_grid(target: &mut [u8], source: &[u8], grid: &Grid)
    ensures len { length target.new ≡ length target.old }
    ensures bytes { (p : ℕ) → p < length target.old
        → slice_index target.new p ≡ (if in_grid grid.now p
        then slice_index source.now p else slice_index target.old p) }
{
    for number in 0..grid.lines() {
        patch_strip(target, source, &grid.line(number));
    }
}

/// Copies the bytes of all rows of all grids.
pub(crate) fn patch_grids(target: &mut [u8], source: &[u8], grids: &[Grid])
    ensures len { length target.new ≡ length target.old }
    ensures bytes { (p : ℕ) → p < length target.old
        → slice_index target.new p ≡ (if in_grids grids.now p
        then slice_index source.now p else slice_index target.old p) }
{
    for grid in grids {
        patch_grid(target, source, grid);
    }
}
