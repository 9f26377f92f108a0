//! `FoundBytes`: the bytes at marked byte offsets of a block as it was, alone or with the block.

ghost use Rattle.std.specs.Prelude.{◌≡◌, ◌↔◌, ℕ, ◌<◌, List, IfOk, IsTrue, None, OnOk, Some, if◌then◌else◌, is_some, length, slice_index, unwrap_or};
ghost use Rattle.nd_heap.specs.Contents.{bytes_in};
ghost use Rattle.nd_heap.specs.Values.{base_of};
ghost use Rattle.nd_marks.specs.Kept.{kept_at};
ghost use Rattle.nd_marks.specs.Marks.{holds};
ghost use Rattle.nd_model.specs.Arrays.Value as values;
ghost use Rattle.nd_session.specs.Session.Found.{byte_found, bytes_of, found_at};

use indexmap::IndexMap;
use nd_block::RawBlock;
use nd_heap::{Base, BlockWriter, OutOfMemory};
use nd_marks::{KeptBytes, Marks};
use std::alloc::{AllocError, Global};
use std::rc::Rc;

/// The bytes at marked byte offsets of a block as it was. Where they are fewer than a quarter of the
/// block they are kept alone, and the block is not.
#[derive(Drop)]
pub(crate) enum FoundBytes {
    Kept(KeptBytes),
    Shared(Marks, Option<Rc<RawBlock>>),
}

/// The bytes that were found, of several blocks.
pub(crate) type FoundByBase = IndexMap<Base, FoundBytes>;

/// The bytes of a block that is shared, none where there is none.
pub(crate) fn shared_bytes(block: &Option<Rc<RawBlock>>) -> &[u8]
    ensures { result.now ≡ bytes_in block.now }
{
    match block {
        Some(block) => block.as_ref().as_slice(),
        None => &[],
    }
}

impl FoundBytes {
    /// Returns what stands at the marked byte offsets of a block.
    fn new(
        alloc: Global,
        marks: &Marks,
        block: Option<Rc<RawBlock>>,
    ) -> Result<FoundBytes, OutOfMemory>
        ensures { IfOk result (λ r. (p : ℕ) → found_at (bytes_of r) p
            ≡ (if holds marks.now p then Some (slice_index (bytes_in block) p) else None)) }
    {
        let bytes = shared_bytes(&block);
        let few = bytes.len() as u64 / 4;
        if let Some(kept) = KeptBytes::new(alloc, marks, bytes, few)? {
            return Ok(FoundBytes::Kept(kept));
        }
        let marks = marks.try_compact(alloc, bytes.len() as u64)?;
        Ok(FoundBytes::Shared(marks, block))
    }

    /// Returns whether each byte is what the block has there.
    pub(crate) fn is_found_in(&self, block: &[u8]) -> bool
        ensures { IsTrue result ↔ ((p b : ℕ) → found_at (bytes_of self.now) p ≡ Some b
            → slice_index block.now p ≡ b) }
    {
        match self {
            FoundBytes::Kept(kept) => kept.is_found_in(block),
            FoundBytes::Shared(marks, found) => marks.are_same(block, shared_bytes(found)),
        }
    }

    /// Returns true only where both are the same bytes at the same byte offsets. It may be false
    /// where these were marked in other pieces, or the blocks are of other lengths.
    pub(crate) fn is_same(&self, other: &FoundBytes) -> bool
        ensures { IsTrue result → (p : ℕ)
            → found_at (bytes_of self.now) p ≡ found_at (bytes_of other.now) p }
    {
        match (self, other) {
            (FoundBytes::Kept(kept), FoundBytes::Kept(others)) => kept.is_same(others),
            (FoundBytes::Shared(marks, found), FoundBytes::Shared(other_marks, other_found)) => {
                marks.is_same(other_marks)
                    && marks.are_same(shared_bytes(found), shared_bytes(other_found))
            }
            _ => false,
        }
    }

    /// Returns whether each byte is the one that is kept, where both have one.
    pub(crate) fn agrees(&self, part: &KeptBytes) -> bool
        ensures { IsTrue result ↔ ((p a n : ℕ) → kept_at part.now p ≡ Some a
            → found_at (bytes_of self.now) p ≡ Some n → a ≡ n) }
    {
        match self {
            FoundBytes::Kept(kept) => part.agrees(kept),
            FoundBytes::Shared(marks, found) => part.agrees_with(marks, shared_bytes(found)),
        }
    }

    /// Returns true only where no byte offset is in both.
    pub(crate) fn is_apart(&self, part: &KeptBytes) -> bool
        ensures { IsTrue result → (p : ℕ) → IsTrue (is_some (kept_at part.now p))
            → found_at (bytes_of self.now) p ≡ None }
    {
        match self {
            FoundBytes::Kept(kept) => part.is_apart(kept),
            FoundBytes::Shared(marks, _) => part.is_apart_from(marks),
        }
    }

    /// Returns the byte offsets of the bytes that were found.
    pub(crate) fn offsets(&self) -> &Marks
        ensures { (p : ℕ) → holds result.now p ≡ is_some (found_at (bytes_of self.now) p) }
    {
        match self {
            FoundBytes::Kept(kept) => kept.offsets(),
            FoundBytes::Shared(marks, _) => marks,
        }
    }

    /// Returns whether some byte offset is in both.
    pub(crate) fn meets(&self, other: &FoundBytes) -> bool
        ensures { IsTrue result ↔ ((p : ℕ) × IsTrue (is_some (found_at (bytes_of self.now) p))
            × IsTrue (is_some (found_at (bytes_of other.now) p))) }
    {
        self.offsets().meets(other.offsets())
    }

    /// Returns true only where both have the same byte offsets.
    pub(crate) fn has_offsets_of(&self, part: &KeptBytes) -> bool
        ensures { IsTrue result → (p : ℕ) → is_some (kept_at part.now p)
            ≡ is_some (found_at (bytes_of self.now) p) }
    {
        match self {
            FoundBytes::Kept(kept) => part.has_offsets_of(kept),
            FoundBytes::Shared(_, _) => false,
        }
    }

    /// Writes each byte over the one that is kept, where both have one.
    pub(crate) fn overwrite(&self, part: &mut KeptBytes)
        ensures { (p : ℕ) → kept_at part.new p ≡ (if is_some (kept_at part.old p)
            then Some (unwrap_or (found_at (bytes_of self.now) p)
            (unwrap_or (kept_at part.old p) 0)) else None) }
    {
        match self {
            FoundBytes::Kept(kept) => part.overwrite(kept),
            FoundBytes::Shared(marks, found) => part.overwrite_by(marks, shared_bytes(found)),
        }
    }

    /// Puts each byte into a block. Byte offsets past its end are passed over.
    fn patch(&self, block: &mut [u8])
        ensures len { length block.new ≡ length block.old }
        ensures bytes { (p : ℕ) → p < length block.old → slice_index block.new p
            ≡ unwrap_or (found_at (bytes_of self.now) p) (slice_index block.old p) }
    {
        match self {
            FoundBytes::Kept(kept) => kept.patch(block),
            FoundBytes::Shared(marks, found) => marks.patch(block, shared_bytes(found)),
        }
    }
}

/// Bytes that were found, to be put back into a block.
#[derive(Drop)]
pub(crate) struct FoundWriter<'f> {
    pub(crate) found: &'f FoundBytes,
}

impl<'f> BlockWriter for FoundWriter<'f> {
    ghost use Rattle.nd_model.specs.Cells.Footprint.{patched};
    ghost use Rattle.nd_session.specs.Session.Found.{bytes_of, found_at, length-patched};

    ghost written = { λ w bytes. patched (found_at (bytes_of w.found.now)) bytes };

    fn write(self, block: &mut RawBlock) {
        self.found.patch(block.as_mut_slice());
    }

    fn write_copy(&self, _: Global, block: &RawBlock) -> Result<RawBlock, AllocError> {
        let mut copy = block.try_clone()?;
        self.found.patch(copy.as_mut_slice());
        Ok(copy)
    }

    ghost keeps_length = { λ w bytes. length-patched (found_at (bytes_of w.found.now)) bytes };
}

/// Single bytes, to be put into a block.
#[derive(Drop)]
pub(crate) struct PartWriter<'p> {
    pub(crate) part: &'p KeptBytes,
}

impl<'p> BlockWriter for PartWriter<'p> {
    ghost use Rattle.nd_model.specs.Cells.Footprint.{patched};
    ghost use Rattle.nd_marks.specs.Kept.{kept_at};
    ghost use Rattle.nd_session.specs.Session.Found.{length-patched};

    ghost written = { λ w bytes. patched (kept_at w.part.now) bytes };

    fn write(self, block: &mut RawBlock) {
        self.part.patch(block.as_mut_slice());
    }

    fn write_copy(&self, _: Global, block: &RawBlock) -> Result<RawBlock, AllocError> {
        let mut copy = block.try_clone()?;
        self.part.patch(copy.as_mut_slice());
        Ok(copy)
    }

    ghost keeps_length = { λ w bytes. length-patched (kept_at w.part.now) bytes };
}

/// Notes the bytes that stand at the marked byte offsets of a block.
pub(crate) fn note_bytes(
    alloc: Global,
    found: &mut FoundByBase,
    base: Base,
    marks: &Marks,
    block: Option<Rc<RawBlock>>,
) -> Result<(), OutOfMemory>
    ensures { OnOk result ((b : values.Base) (p : ℕ)
        → byte_found found.new.entries b p ≡ (if values.same_base b (base_of base)
        then (if holds marks.now p then Some (slice_index (bytes_in block) p) else None)
        else byte_found found.old.entries b p)) }
{
    let bytes = FoundBytes::new(alloc, marks, block)?;
    found.insert(base, bytes)?;
    Ok(())
}
