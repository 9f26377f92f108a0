//! `KeptBytes`: bytes of a block at marked byte offsets, kept without the block.

ghost use Rattle.std.specs.Prelude.{◌≡◌, ℕ, ◌+◌, ◌-◌, ◌^◌, ◌<◌, ◌≤◌, ◌++◌, ◌&&◌, ◌↔◌, if◌then◌else◌, ◌/◌, ◌%◌, false, is_some, IfOk, IsTrue, MatchOption, None, OnOk, Option, Some, length, map, nat_le, nat_lt, slice_index, unwrap_or};
ghost use Rattle.nd_marks.specs.Kept.{bits_left, byte_for, grids_places, is_few, kept_at, lines_left, places_in, rows_left};
ghost use Rattle.nd_marks.specs.Marks.{holds, in_word, pages_of};
ghost use Rattle.nd_model.specs.Arrays.Tuple.{count_up};

use crate::bytes::{append_row, append_rows, byte_at};
use crate::grid::Grid;
use crate::marks::Marks;
use crate::strip::Strip;
use crate::walk::next_bits;
use std::alloc::{AllocError, Global};
use std::marker::Model;

/// The bytes of a block at marked byte offsets, and no other byte of it. A clause sees the byte at
/// each offset, `None` where it is not marked.
#[derive(Drop)]
pub struct KeptBytes {
    marks: Marks,
    // one for each byte offset of a walk over the marks
    bytes: Vec<u8>,
}

impl Model for KeptBytes {
    ghost use Rattle.nd_marks.specs.Kept.{KeptData};

    ghost Value = { KeptData };

    ghost use Rattle.nd_marks.specs.Kept.{IsKept, kept_of};

    ghost view = { kept_of };

    ghost invariant = { IsKept };
}

/// Appends the bytes of a range one by one.
fn append_outside(
    bytes: &mut Vec<u8>,
    block: &[u8],
    from: u128,
    width: u64,
) -> Result<(), AllocError>
    requires { from + width ≤ 2 ^ 127 }
    ensures { OnOk result (bytes.new.items
        ≡ bytes.old.items ++ map (slice_index block.now) (count_up from width)) }
{
    for at in 0..width {
        bytes.push(byte_at(block, from + u128::from(at)))?;
    }
    Ok(())
}

/// Appends the bytes of a range. A byte offset past the end has a 0.
#[inline(always)]
fn append_range(bytes: &mut Vec<u8>, block: &[u8], from: u128, width: u64) -> Result<(), AllocError>
    requires { from + width ≤ 2 ^ 127 }
    ensures { OnOk result (bytes.new.items
        ≡ bytes.old.items ++ map (slice_index block.now) (count_up from width)) }
{
    let end = from + u128::from(width);
    if end > block.len() as u128 {
        return append_outside(bytes, block, from, width);
    }
    append_row(bytes, block, from as usize, width as usize)
}

/// Appends the bytes of all rows of a strip.
fn append_strip(bytes: &mut Vec<u8>, block: &[u8], strip: &Strip) -> Result<(), AllocError>
    ensures { OnOk result (bytes.new.items
        ≡ bytes.old.items ++ map (slice_index block.now) (rows_left strip.now 0)) }
{
    if strip.lies_in(block.len()) {
        return append_rows(bytes, block, strip);
    }
    for number in 0..strip.count() {
        append_range(bytes, block, strip.start(number), strip.width())?;
    }
    Ok(())
}

/// Appends the bytes of all rows of a grid.
fn append_grid(bytes: &mut Vec<u8>, block: &[u8], grid: &Grid) -> Result<(), AllocError>
    ensures { OnOk result (bytes.new.items
        ≡ bytes.old.items ++ map (slice_index block.now) (lines_left grid.now 0)) }
{
    for number in 0..grid.lines() {
        append_strip(bytes, block, &grid.line(number))?;
    }
    Ok(())
}

/// Appends the bytes of all rows of all grids.
fn append_grids(bytes: &mut Vec<u8>, block: &[u8], grids: &[Grid]) -> Result<(), AllocError>
    ensures { OnOk result (bytes.new.items
        ≡ bytes.old.items ++ map (slice_index block.now) (grids_places grids.now)) }
{
    for grid in grids {
        append_grid(bytes, block, grid)?;
    }
    Ok(())
}

/// Appends the bytes at all set bits, a run of them at a time.
fn append_bits(bytes: &mut Vec<u8>, block: &[u8], pages: &[Vec<u64>]) -> Result<(), AllocError>
    ensures { OnOk result (bytes.new.items
        ≡ bytes.old.items ++ map (slice_index block.now) (bits_left (pages_of pages.now) 0)) }
{
    let mut at = 0;
    while let Some(range) = next_bits(pages, &mut at) {
        append_range(bytes, block, range.from, range.width)?;
    }
    Ok(())
}

/// The bytes of a block at the byte offsets of a walk over a set.
fn gather(alloc: Global, marks: &Marks, block: &[u8], count: usize) -> Result<Vec<u8>, AllocError>
    ensures { IfOk result (λ v. v.items ≡ map (slice_index block.now) (places_in marks.now)) }
{
    let mut bytes = Vec::with_capacity(alloc, count)?;
    append_grid(&mut bytes, block, marks.last())?;
    append_grids(&mut bytes, block, marks.grids())?;
    append_bits(&mut bytes, block, marks.pages())?;
    Ok(bytes)
}

/// Whether the block has these bytes from a byte offset on, looked at one by one.
fn has_outside(block: &[u8], from: u128, bytes: &[u8]) -> bool
    requires { from ≤ 2 ^ 126 }
    ensures { IsTrue result ↔ ((i : ℕ) → i < length bytes.now
        → slice_index block.now (from + i) ≡ slice_index bytes.now i) }
{
    for at in 0..bytes.len() {
        if byte_at(block, from + at as u128) != bytes[at] {
            return false;
        }
    }
    true
}

/// Whether the block has these bytes from a byte offset on. A byte offset past the end has a 0.
fn has_range(block: &[u8], from: u128, bytes: &[u8]) -> bool
    requires { from ≤ 2 ^ 126 }
    ensures { IsTrue result ↔ ((i : ℕ) → i < length bytes.now
        → slice_index block.now (from + i) ≡ slice_index bytes.now i) }
{
    let end = from + bytes.len() as u128;
    if end > block.len() as u128 {
        return has_outside(block, from, bytes);
    }
    &block[from as usize..end as usize] == bytes
}

/// Puts bytes into the block from a byte offset on. What is past the end is passed over.
fn put_range(block: &mut [u8], from: u128, bytes: &[u8])
    requires { from ≤ 2 ^ 126 }
    ensures len { length block.new ≡ length block.old }
    ensures bytes { (p : ℕ) → p < length block.old → slice_index block.new p
        ≡ (if nat_le from p && nat_lt p (from + length bytes.now)
        then slice_index bytes.now (p - from) else slice_index block.old p) }
{
    let from = from.min(block.len() as u128) as usize;
    let count = bytes.len().min(block.len() - from);
    block[from..from + count].copy_from_slice(&bytes[..count]);
}

/// Whether `a` from an index on and `b` have the same bytes, as far as both go.
fn is_same_behind(a: &[u8], skip: u128, b: &[u8]) -> bool
    requires { skip ≤ 2 ^ 126 }
    ensures { IsTrue result ↔ ((i : ℕ) → skip + i < length a.now → i < length b.now
        → slice_index a.now (skip + i) ≡ slice_index b.now i) }
{
    if skip >= a.len() as u128 {
        return true;
    }
    let count = b.len().min(a.len() - skip as usize);
    has_range(a, skip, &b[..count])
}

/// Whether bytes from byte offset `base` on and bytes from `from` on are the same where they
/// overlap.
fn is_same_overlap(a: &[u8], base: u128, b: &[u8], from: u128) -> bool
    requires { (base ≤ 2 ^ 126) × (from ≤ 2 ^ 126) }
    ensures { IsTrue result ↔ ((i : ℕ) → i < length a.now → from ≤ base + i
        → base + i < from + length b.now
        → slice_index a.now i ≡ slice_index b.now (base + i - from)) }
{
    if base <= from {
        is_same_behind(a, from - base, b)
    } else {
        is_same_behind(b, base - from, a)
    }
}

/// Puts bytes from byte offset `from` on into those from `base` on, where they overlap.
fn put_overlap(block: &mut [u8], base: u128, bytes: &[u8], from: u128)
    requires { (base ≤ 2 ^ 126) × (from ≤ 2 ^ 126) }
    ensures len { length block.new ≡ length block.old }
    ensures bytes { (i : ℕ) → i < length block.old → slice_index block.new i
        ≡ (if nat_le from (base + i) && nat_lt (base + i) (from + length bytes.now)
        then slice_index bytes.now (base + i - from) else slice_index block.old i) }
{
    if base <= from {
        put_range(block, from - base, bytes);
        return;
    }
    let skip = base - from;
    if skip < bytes.len() as u128 {
        put_range(block, 0, &bytes[skip as usize..]);
    }
}

/// Whether a block has these bytes from a byte offset on, where they are marked.
fn has_marked(marks: &Marks, block: &[u8], from: u128, bytes: &[u8]) -> bool
    requires { from ≤ 2 ^ 126 }
    ensures { IsTrue result ↔ ((i : ℕ) → i < length bytes.now
        → IsTrue (holds marks.now (from + i))
        → slice_index block.now (from + i) ≡ slice_index bytes.now i) }
{
    for at in 0..bytes.len() {
        let place = from + at as u128;
        if byte_at(block, place) != bytes[at] && marks.holds_at(place) {
            return false;
        }
    }
    true
}

/// Puts bytes of a block into those from byte offset `from` on, where they are marked.
fn put_marked(bytes: &mut [u8], from: u128, marks: &Marks, block: &[u8])
    requires { from ≤ 2 ^ 126 }
    ensures len { length bytes.new ≡ length bytes.old }
    ensures bytes { (i : ℕ) → i < length bytes.old → slice_index bytes.new i
        ≡ (if holds marks.now (from + i) then slice_index block.now (from + i)
        else slice_index bytes.old i) }
{
    for at in 0..bytes.len() {
        let place = from + at as u128;
        let byte = byte_at(block, place);
        if byte != bytes[at] && marks.holds_at(place) {
            bytes[at] = byte;
        }
    }
}

/// Puts bytes that are kept elsewhere into those of the byte offsets of a walk over a set.
fn overwrite_bytes(bytes: &mut [u8], marks: &Marks, other: &KeptBytes)
    requires { bytes.old ≡ map (byte_for (places_in marks.now) bytes.old) (places_in marks.now) }
    ensures { bytes.new ≡ map (λ p. unwrap_or (kept_at other.now p)
        (byte_for (places_in marks.now) bytes.old p)) (places_in marks.now) }
{
    let mut at = 0;
    let mut walk = marks.walk();
    while let Some(range) = walk.next() {
        let end = at + range.width as usize;
        other.patch_at(&mut bytes[at..end], range.from);
        at = end;
    }
}

/// Puts marked bytes of a block into those of the byte offsets of a walk over a set.
fn overwrite_marked(bytes: &mut [u8], places: &Marks, marks: &Marks, block: &[u8])
    requires { bytes.old ≡ map (byte_for (places_in places.now) bytes.old)
        (places_in places.now) }
    ensures { bytes.new ≡ map (λ p. if holds marks.now p then slice_index block.now p
        else byte_for (places_in places.now) bytes.old p) (places_in places.now) }
{
    let mut at = 0;
    let mut walk = places.walk();
    while let Some(range) = walk.next() {
        let end = at + range.width as usize;
        put_marked(&mut bytes[at..end], range.from, marks, block);
        at = end;
    }
}

impl KeptBytes {
    /// Keeps the bytes of a block at the marked byte offsets, and is `None` where `most` of them or
    /// more are marked. An offset that is marked in two pieces may count twice. A byte offset past
    /// the end has a 0.
    pub fn new(
        alloc: Global,
        marks: &Marks,
        block: &[u8],
        most: u64,
    ) -> Result<Option<KeptBytes>, AllocError>
        ensures { IfOk result (λ o. MatchOption o (most ≤ length (places_in marks.now))
            (λ k. (length (places_in marks.now) < most) × ((p : ℕ) → kept_at k p
            ≡ (if holds marks.now p then Some (slice_index block.now p) else None)))) }
    {
        let count = marks.count_up_to(most);
        if count == most {
            return Ok(None);
        }
        let marks = marks.try_sparse(alloc)?;
        let bytes = gather(alloc, &marks, block, count as usize)?;
        Ok(Some(KeptBytes { marks, bytes }))
    }

    /// Returns whether the block has each byte that is kept: of `5 6 7` at 0 and 2, `5 9 7` has
    /// each. A byte offset past the end has a 0.
    pub fn is_found_in(&self, block: &[u8]) -> bool
        ensures { IsTrue result ↔ ((p b : ℕ) → kept_at self.now p ≡ Some b
            → slice_index block.now p ≡ b) }
    {
        let mut rest = self.bytes.as_slice();
        let mut walk = self.marks.walk();
        while let Some(range) = walk.next() {
            let (bytes, behind) = rest.split_at(range.width as usize);
            if !has_range(block, range.from, bytes) {
                return false;
            }
            rest = behind;
        }
        true
    }

    /// Puts each byte that is kept into the block: `5 6 7` at 0 and 2 make `5 1 7` of `1 1 1`. Byte
    /// offsets past the end are passed over.
    pub fn patch(&self, block: &mut [u8])
        ensures len { length block.new ≡ length block.old }
        ensures bytes { (p : ℕ) → p < length block.old
            → slice_index block.new p ≡ unwrap_or (kept_at self.now p) (slice_index block.old p) }
    {
        let mut rest = self.bytes.as_slice();
        let mut walk = self.marks.walk();
        while let Some(range) = walk.next() {
            let (bytes, behind) = rest.split_at(range.width as usize);
            put_range(block, range.from, bytes);
            rest = behind;
        }
    }

    /// Returns true only where both keep the same bytes. Those that were marked in other pieces may
    /// be the same where this says no.
    pub fn is_same(&self, other: &KeptBytes) -> bool
        ensures { IsTrue result → (p : ℕ) → kept_at self.now p ≡ kept_at other.now p }
    {
        self.marks.is_same(&other.marks) && self.bytes.as_slice() == other.bytes.as_slice()
    }
}

impl KeptBytes {
    /// Returns equal bytes with memory of their own.
    pub fn try_clone(&self, alloc: Global) -> Result<KeptBytes, AllocError>
        ensures { IfOk result (λ k. k ≡ self.now) }
    {
        let marks = self.marks.try_clone(alloc)?;
        let bytes = Vec::from_slice(alloc, &self.bytes)?;
        Ok(KeptBytes { marks, bytes })
    }

    /// The number of bytes that are kept. An offset that is marked in two pieces may count twice.
    pub fn len(&self) -> usize
        ensures { result ≡ length self.now.bytes }
    {
        self.bytes.len()
    }

    /// Returns whether the bytes lie in at most `most` rows, and none is marked by a bit. Only what
    /// is kept at many scattered byte offsets is marked by bits.
    pub fn has_few_rows(&self, most: u64) -> bool
        ensures { result ≡ is_few self.now.marks most }
    {
        self.marks.has_few_rows(most)
    }

    /// Keeps the bytes of another block at the same byte offsets. One past its end has a 0.
    pub fn reread(&self, alloc: Global, block: &[u8]) -> Result<KeptBytes, AllocError>
        ensures { IfOk result (λ k. (p : ℕ) → kept_at k p
            ≡ (if is_some (kept_at self.now p) then Some (slice_index block.now p) else None)) }
    {
        let bytes = gather(alloc, &self.marks, block, self.bytes.len())?;
        let marks = self.marks.try_clone(alloc)?;
        Ok(KeptBytes { marks, bytes })
    }

    /// Returns the byte offsets of the bytes that are kept.
    pub fn offsets(&self) -> &Marks
        ensures { result.now ≡ self.now.marks }
    {
        &self.marks
    }

    /// Returns true only where both keep bytes at the same byte offsets.
    pub fn has_offsets_of(&self, other: &KeptBytes) -> bool
        ensures { IsTrue result → (p : ℕ) → is_some (kept_at self.now p)
            ≡ is_some (kept_at other.now p) }
    {
        self.marks.is_same(&other.marks)
    }

    /// Returns true only where no byte offset is kept in both.
    pub fn is_apart(&self, other: &KeptBytes) -> bool
        ensures { IsTrue result → (p : ℕ) → IsTrue (is_some (kept_at self.now p))
            → kept_at other.now p ≡ None }
    {
        self.marks.is_apart(&other.marks)
    }

    /// Returns true only where no byte offset that is kept is marked.
    pub fn is_apart_from(&self, marks: &Marks) -> bool
        ensures { IsTrue result → (p : ℕ) → IsTrue (is_some (kept_at self.now p))
            → holds marks.now p ≡ false }
    {
        self.marks.is_apart(marks)
    }

    /// Returns the bits of the granules of 64 bytes that may have a byte that is kept.
    pub fn granules(&self) -> u64
        ensures { (p : ℕ) → IsTrue (is_some (kept_at self.now p))
            → IsTrue (in_word result (p / 64 % 64)) }
    {
        self.marks.granules()
    }

    /// Whether bytes from a byte offset on are those that are kept there, where any are.
    fn agrees_at(&self, bytes: &[u8], base: u128) -> bool
        requires { base ≤ 2 ^ 126 }
        ensures { IsTrue result ↔ ((i b : ℕ) → i < length bytes.now
            → kept_at self.now (base + i) ≡ Some b → slice_index bytes.now i ≡ b) }
    {
        let mut rest = self.bytes.as_slice();
        let mut walk = self.marks.walk();
        while let Some(range) = walk.next() {
            let (kept, behind) = rest.split_at(range.width as usize);
            if !is_same_overlap(bytes, base, kept, range.from) {
                return false;
            }
            rest = behind;
        }
        true
    }

    /// Puts each byte that is kept into bytes from a byte offset on.
    fn patch_at(&self, block: &mut [u8], base: u128)
        requires { base ≤ 2 ^ 126 }
        ensures len { length block.new ≡ length block.old }
        ensures bytes { (i : ℕ) → i < length block.old → slice_index block.new i
            ≡ unwrap_or (kept_at self.now (base + i)) (slice_index block.old i) }
    {
        let mut rest = self.bytes.as_slice();
        let mut walk = self.marks.walk();
        while let Some(range) = walk.next() {
            let (bytes, behind) = rest.split_at(range.width as usize);
            put_overlap(block, base, bytes, range.from);
            rest = behind;
        }
    }

    /// Returns whether both have the same byte at each byte offset that both keep.
    pub fn agrees(&self, other: &KeptBytes) -> bool
        ensures { IsTrue result ↔ ((p a b : ℕ) → kept_at self.now p ≡ Some a
            → kept_at other.now p ≡ Some b → a ≡ b) }
    {
        let mut rest = self.bytes.as_slice();
        let mut walk = self.marks.walk();
        while let Some(range) = walk.next() {
            let (bytes, behind) = rest.split_at(range.width as usize);
            if !other.agrees_at(bytes, range.from) {
                return false;
            }
            rest = behind;
        }
        true
    }

    /// Returns whether the block has each byte that is kept at a marked byte offset.
    pub fn agrees_with(&self, marks: &Marks, block: &[u8]) -> bool
        ensures { IsTrue result ↔ ((p a : ℕ) → kept_at self.now p ≡ Some a
            → IsTrue (holds marks.now p) → slice_index block.now p ≡ a) }
    {
        let mut rest = self.bytes.as_slice();
        let mut walk = self.marks.walk();
        while let Some(range) = walk.next() {
            let (bytes, behind) = rest.split_at(range.width as usize);
            if !has_marked(marks, block, range.from, bytes) {
                return false;
            }
            rest = behind;
        }
        true
    }

    /// Takes over the other's byte at each byte offset that both keep.
    pub fn overwrite(&mut self, other: &KeptBytes)
        ensures { (p : ℕ) → kept_at self.new p ≡ (if is_some (kept_at self.old p)
            then Some (unwrap_or (kept_at other.now p) (unwrap_or (kept_at self.old p) 0))
            else None) }
    {
        overwrite_bytes(&mut self.bytes, &self.marks, other);
    }

    /// Takes over the block's byte at each marked byte offset that is kept.
    pub fn overwrite_by(&mut self, marks: &Marks, block: &[u8])
        ensures { (p : ℕ) → kept_at self.new p ≡ (if is_some (kept_at self.old p)
            then Some (if holds marks.now p then slice_index block.now p
            else unwrap_or (kept_at self.old p) 0) else None) }
    {
        overwrite_marked(&mut self.bytes, &self.marks, marks, block);
    }
}
