//! `RawBlock`: raw memory, which a clause sees as the list of its bytes.
ghost use Rattle.std.specs.Prelude.{◌≡◌, ℕ, ◌+◌, ◌^◌, ◌<◌, ◌≤◌, List, [], length, replicate, IfOk, IsTrue, ◌↔◌};
ghost use Rattle.std.specs.Borrow.{sem};
ghost use Rattle.nd_model.specs.Arrays.Element.{size_of, value_of, bytes_at, with_bytes, bytes_of, IsValue};
ghost use Rattle.nd_model.specs.Arrays.Runs.{AreWithin, AreApart, copied};

use crate::bytes::{store_at, value_at};
use crate::memory::{Places, Right, Start, allocate, deallocate};
use crate::runs::copy_elements;
use nd_types::Elem;
use std::alloc::{AllocError, Global};
use std::marker::Model;

/// A block of bytes: one allocation, freed when the block is dropped. Byte offsets count from its
/// start, and need not be aligned.
pub struct RawBlock {
    start: Start,
    count: usize,
    places: Places,
    right: Right<Global>,
    alloc: Global,
}

impl Model for RawBlock {
    ghost use Rattle.std.specs.Prelude.{List, ℕ};

    ghost Value = { List ℕ };

    ghost use Rattle.nd_block.specs.Block.{block_bytes, IsBlock};

    ghost view = { block_bytes };

    ghost invariant = { IsBlock };
}

// The most bytes of an allocation, `isize::MAX`. Allocators refuse more, so none is asked for more.
pub(crate) const MOST_BYTES: usize = 0x7fff_ffff_ffff_ffff;

impl RawBlock {
    ghost use Rattle.nd_block.specs.BlockLends.{lends_bytes};

    /// Returns a block of `n` zero bytes. An error means want of memory.
    pub fn zeros(alloc: Global, n: usize) -> Result<RawBlock, AllocError>
        ensures { IfOk result (λ b. b ≡ replicate n 0) }
    {
        if n > MOST_BYTES {
            return Err(AllocError);
        }
        let (start, mut places, right) = allocate(&alloc, n)?;
        fill_zero(&mut places, start, n);
        Ok(RawBlock {
            start,
            count: n,
            places,
            right,
            alloc,
        })
    }

    /// Returns a block with a copy of the bytes. An error means want of memory.
    pub fn from_slice(alloc: Global, bytes: &[u8]) -> Result<RawBlock, AllocError>
        ensures { IfOk result (λ b. b ≡ bytes.now) }
    {
        let count = bytes.len();
        let (start, mut places, right) = allocate(&alloc, count)?;
        fill_from(&mut places, start, bytes);
        Ok(RawBlock {
            start,
            count,
            places,
            right,
            alloc,
        })
    }

    // The block of memory that is all written.
    pub(crate) fn of_places(
        start: Start,
        count: usize,
        places: Places,
        right: Right<Global>,
        alloc: Global,
    ) -> RawBlock
        requires places { (places.first ≡ start.first) × (places.unwritten ≡ 0)
            × (length places.written ≡ count) × (count < 2 ^ 63) }
        requires right { (right.first ≡ start.first) × (right.count ≡ count)
            × (right.from ≡ alloc) }
        ensures { result ≡ places.written }
    {
        RawBlock {
            start,
            count,
            places,
            right,
            alloc,
        }
    }

    /// Returns a block of its own with equal bytes. An error means want of memory.
    pub fn try_clone(&self) -> Result<RawBlock, AllocError>
        ensures { IfOk result (λ b. b ≡ self.now) }
    {
        RawBlock::from_slice(self.alloc, self.as_slice())
    }

    /// Returns the number of bytes.
    pub fn len(&self) -> usize
        ensures { (result ≡ length self.now) × (result < 2 ^ 63) }
    {
        self.count
    }

    /// Returns whether there are no bytes.
    pub fn is_empty(&self) -> bool
        ensures { IsTrue result ↔ (length self.now ≡ 0) }
    {
        self.len() == 0
    }

    /// Returns the bytes.
    pub fn as_slice(&self) -> &[u8]
        ensures { result.now ≡ self.now }
    {
        self.places.as_slice(self.start, self.len())
    }

    /// Returns the bytes, to be overwritten.
    pub fn as_mut_slice(&mut self) -> &mut [u8]
        ensures* writes_back { sem 𝓛 (lends_bytes self.entry result) }
        ensures value { result.now ≡ self.old }
    {
        let len = self.len();
        self.places.as_mut_slice(self.start, len)
    }

    /// Returns whether `size` bytes from a byte offset on lie in the block. In a block of 8 bytes,
    /// 4 bytes from 4 on do, and 4 bytes from 5 on do not.
    pub fn holds_place(&self, place: u64, size: u64) -> bool
        ensures { IsTrue result ↔ (place + size ≤ length self.now) }
    {
        let len = self.len() as u64;
        size <= len && place <= len - size
    }
}

impl RawBlock {
    /// Returns the number of the element at a byte offset, as `value_at` reads it.
    pub fn load(&self, place: u64, elem: Elem) -> i128
        requires { place + size_of elem.kind ≤ length self.now }
        ensures value { result ≡ value_of elem (bytes_at self.now place (size_of elem.kind)) }
        ensures in_range { IsValue elem.kind result }
    {
        value_at(self.as_slice(), place as usize, elem)
    }

    /// Writes a number to the element at a byte offset. The kind must have the number.
    pub fn store(&mut self, place: u64, elem: Elem, value: i128)
        requires inside { place + size_of elem.kind ≤ length self.old }
        requires in_range { IsValue elem.kind value }
        ensures bytes { self.new ≡ with_bytes self.old place (bytes_of elem value) }
        ensures len { length self.new ≡ length self.old }
    {
        store_at(self.as_mut_slice(), place as usize, elem, value);
    }

    /// Copies `n` elements of `size` bytes inside the block, the first one from byte offset `src`
    /// to `dst`. The steps from one to the next are in bytes, and may be negative. No byte written
    /// for an element may be read for a later one.
    ///
    /// With size 1, two elements from 3 by -1 to 0 by 1 make `4 3 3 4` of `1 2 3 4`.
    pub fn copy_run(
        &mut self,
        dst: u64,
        dst_step: i128,
        src: u64,
        src_step: i128,
        size: u64,
        n: u64,
    )
        requires dst { AreWithin dst dst_step size n (length self.old) }
        requires src { AreWithin src src_step size n (length self.old) }
        requires apart { AreApart dst dst_step src src_step size n }
        ensures bytes { self.new ≡ copied dst dst_step src src_step size n self.old }
        ensures len { length self.new ≡ length self.old }
    {
        let bytes = self.as_mut_slice();
        copy_elements(bytes, dst, dst_step, src, src_step, size as usize, n);
    }
}

impl Clone for RawBlock {
    ghost is_clone = { λ b c. c ≡ b };

    fn clone(&self) -> Result<RawBlock, AllocError> {
        self.try_clone()
    }
}

impl Drop for RawBlock {
    fn drop(self) {
        let RawBlock {
            start,
            count,
            places,
            right,
            alloc,
        } = self;
        deallocate(&alloc, start, count, places, right);
    }
}

// Writes `count` zeros.
fn fill_zero(places: &mut Places, start: Start, count: usize)
    requires { (start.first ≡ places.old.first) × (places.old.written ≡ [])
        × (places.old.unwritten ≡ count) }
    ensures { (places.new.first ≡ places.old.first) × (places.new.written ≡ replicate count 0)
        × (places.new.unwritten ≡ 0) }
{
    for i in 0..count {
        places.write(start, i, 0);
    }
}

// Writes the bytes.
fn fill_from(places: &mut Places, start: Start, bytes: &[u8])
    requires { (start.first ≡ places.old.first) × (places.old.written ≡ [])
        × (places.old.unwritten ≡ length bytes.now) }
    ensures { (places.new.first ≡ places.old.first) × (places.new.written ≡ bytes.now)
        × (places.new.unwritten ≡ 0) }
{
    for i in 0..bytes.len() {
        places.write(start, i, bytes[i]);
    }
}
