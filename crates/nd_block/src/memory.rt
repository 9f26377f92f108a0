//! `Places`: memory from an allocator, written byte by byte, lent as a slice, and freed. No other
//! module has a raw pointer.
//!
//! The owner of the bytes and the right to free them take no space, and neither can be dropped. So
//! memory that is not freed, or freed twice, does not compile.
ghost use Rattle.std.specs.Prelude.{◌≡◌, ℕ, ◌+◌, ◌^◌, ◌<◌, List, [], ◌∷◌, ◌++◌, length, IfOk};
ghost use Rattle.std.specs.Borrow.{sem};
ghost use base.Fml.{ftrue};
ghost use denote.RawPtr.{Ptr};
ghost use Rattle.nd_block.specs.Ownership.{places_owned, places_lent, right_owned};

use std::alloc::{AllocError, Allocator};
use std::marker::{Model, PhantomData};
use std::slice;

/// The address of the first byte. It owns nothing.
#[derive(Clone, Copy)]
pub struct Start {
    first: *mut u8,
}

/// The owner of the memory: the bytes that are written, from the first one on, and how many are
/// still to be.
pub struct Places {
    ghost first: { Ptr },
    ghost written: { List ℕ },
    ghost unwritten: { ℕ },
}

impl Model for Places {
    ghost also_owns = { λ p. places_owned p.first p.written p.unwritten };

    ghost also_shares = { λ p _ κ. places_lent p.first p.written p.unwritten κ };
}

/// The right to free `count` bytes, by the allocator that they are from.
pub struct Right<A: Allocator> {
    mark: PhantomData<A>,
    ghost first: { Ptr },
    ghost count: { ℕ },
    ghost from: { A },
}

impl<A: Allocator> Model for Right<A> {
    ghost also_owns = { λ r. right_owned (A.dealloc_token r.from) r.first r.count };

    ghost also_shares = { λ _ _ _. ftrue };
}

/// Returns memory of `count` bytes, none of them written. An error means want of memory.
pub(crate) fn allocate<A: Allocator>(
    alloc: &A,
    count: usize,
) -> Result<(Start, Places, Right<A>), AllocError>
    requires { count < 2 ^ 63 }
    ensures { IfOk result (λ r. (r.1.first ≡ r.0.first) × (r.1.written ≡ [])
        × (r.1.unwritten ≡ count) × (r.2.first ≡ r.0.first) × (r.2.count ≡ count)
        × (r.2.from ≡ alloc.now)) }
{
    match alloc.allocate(count, 1) {
        Ok(first) => Ok((Start { first }, Places {}, Right { mark: PhantomData })),
        Err(error) => Err(error),
    }
}

/// Frees the memory, whatever is written there.
pub(crate) fn deallocate<A: Allocator>(
    alloc: &A,
    start: Start,
    count: usize,
    places: Places,
    right: Right<A>,
)
    requires { (places.first ≡ start.first) × (length places.written + places.unwritten ≡ count)
        × (right.first ≡ start.first) × (right.count ≡ count) × (right.from ≡ alloc.now) }
{
    let Places {} = places;
    let Right { mark: _ } = right;
    unsafe { alloc.deallocate(start.first, count, 1) }
}

impl Places {
    ghost use Rattle.nd_block.specs.Lends.{lends_written};

    /// Writes the first byte that is not written yet.
    pub(crate) fn write(&mut self, start: Start, index: usize, byte: u8)
        requires { (start.first ≡ self.old.first) × (index ≡ length self.old.written)
            × (0 < self.old.unwritten) }
        ensures { (self.new.first ≡ self.old.first)
            × (self.new.written ≡ self.old.written ++ (byte ∷ []))
            × (self.new.unwritten + 1 ≡ self.old.unwritten) }
    {
        unsafe { start.first.add(index).write(byte) }
    }

    /// Returns the bytes that are written.
    pub(crate) fn as_slice(&self, start: Start, len: usize) -> &[u8]
        requires { (start.first ≡ self.now.first) × (len ≡ length self.now.written) }
        ensures { result.now ≡ self.now.written }
    {
        unsafe { slice::from_raw_parts(start.first, len) }
    }

    /// Returns the bytes that are written, to be overwritten.
    pub(crate) fn as_mut_slice(&mut self, start: Start, len: usize) -> &mut [u8]
        requires { (start.first ≡ self.old.first) × (len ≡ length self.old.written) }
        ensures* writes_back { sem 𝓛 (lends_written self.entry result) }
        ensures value { result.now ≡ self.old.written }
    {
        unsafe { slice::from_raw_parts_mut(start.first, len) }
    }
}
