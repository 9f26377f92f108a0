//! `write_noted`: the writes to a block, noted in the session's trace.

ghost use Rattle.std.specs.Prelude.{◌≡◌, ℕ, List, length, OnOk};
ghost use Rattle.nd_model.specs.Cells.Storing.{having_block, having_written};
ghost use Rattle.nd_model.specs.Arrays.View.{byte_places};
ghost use Rattle.nd_assign.specs.KeptLength.{length-written_by};
ghost use Rattle.nd_assign.specs.Prepared.{written_by};
ghost use Rattle.nd_ufunc.specs.Elementwise.KeptLength.{length-written_in_place};
ghost use Rattle.nd_ufunc.specs.Elementwise.Prepared.{written_in_place};
ghost use Rattle.nd_heap.specs.Values.{base_of, geo_of};
ghost use Rattle.nd_scatter.specs.KeptLength.{length-written_by as length-scattered_by};
ghost use Rattle.nd_scatter.specs.Scattered.{written_by as scattered_by};
ghost use Rattle.nd_session.specs.Session.Live.{live};

use nd_assign::Assignment;
use nd_block::RawBlock;
use nd_heap::BlockWriter;
use nd_scatter::Scatter;
use nd_session::session::{Array, OutOfMemory, Session};
use nd_ufunc::elementwise::InPlace;
use std::alloc::{AllocError, Global};

/// The bytes of a prepared assignment.
#[derive(Drop)]
pub(crate) struct AssignedBytes<'v> {
    pub(crate) assignment: Assignment<'v>,
}

impl<'v> BlockWriter for AssignedBytes<'v> {
    ghost written = { λ w bytes. written_by w.assignment bytes };

    fn write(self, block: &mut RawBlock) {
        self.assignment.write(block);
        drop(self);
    }

    fn write_copy(&self, alloc: Global, block: &RawBlock) -> Result<RawBlock, AllocError> {
        self.assignment.write_copy(alloc, block)
    }

    ghost keeps_length = { λ w bytes. length-written_by w.assignment bytes };
}

/// The bytes of prepared results in place.
#[derive(Drop)]
pub(crate) struct ResultBytes<'v> {
    pub(crate) results: InPlace<'v>,
}

impl<'v> BlockWriter for ResultBytes<'v> {
    ghost written = { λ w bytes. written_in_place w.results bytes };

    fn write(self, block: &mut RawBlock) {
        self.results.write(block);
        drop(self);
    }

    fn write_copy(&self, alloc: Global, block: &RawBlock) -> Result<RawBlock, AllocError> {
        self.results.write_copy(alloc, block)
    }

    ghost keeps_length = { λ w bytes. length-written_in_place w.results bytes };
}

/// The bytes of a prepared assignment to the elements of an advanced index.
#[derive(Drop)]
pub(crate) struct ScatteredBytes<'v> {
    pub(crate) scatter: Scatter<'v>,
}

impl<'v> BlockWriter for ScatteredBytes<'v> {
    ghost written = { λ w bytes. scattered_by w.scatter bytes };

    fn write(self, block: &mut RawBlock) {
        self.scatter.write(block);
        drop(self);
    }

    fn write_copy(&self, _: Global, block: &RawBlock) -> Result<RawBlock, AllocError> {
        let mut copy = block.try_clone()?;
        self.scatter.write(&mut copy);
        Ok(copy)
    }

    ghost keeps_length = { λ w bytes. length-scattered_by w.scatter bytes };
}

/// Notes the elements of an array as written, and then writes to their block.
pub(crate) fn write_noted<W: BlockWriter + Drop>(
    session: &mut Session,
    target: &Array,
    writer: W,
) -> Result<(), OutOfMemory>
    ensures { OnOk result (live session.new ≡ having_block (base_of target.now.base)
        (W.written writer ((live session.old).bytes (base_of target.now.base)))
        (having_written (base_of target.now.base) (byte_places (geo_of target.now))
        (live session.old))) }
{
    session.mark_written(target)?;
    session.write(target.base, writer)
}
