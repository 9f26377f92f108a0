//! `BlockTable`: blocks by base in two layers, so that a change copies few of them.

ghost use Rattle.std.specs.Prelude.{◌≡◌, ◌+◌, ◌≤◌, ◌&&◌, [], IfOk, OnErr, OnOk, if◌then◌else◌, length, nat_eq, not};
ghost use Rattle.nd_model.specs.Cells.Running as running;
ghost use Rattle.nd_model.specs.Arrays.Value as values;
ghost use Rattle.nd_heap.specs.Contents.{bases_of, blocks_of, bytes_in};
ghost use Rattle.nd_heap.specs.Live.{bytes_at, is_base_among};
ghost use Rattle.nd_heap.specs.Values.{base_of};
ghost use Rattle.indexmap.specs.IndexMap.{index_map_len};

use crate::blocks::{
    Bases, Blocks, bytes_of, has_base, hide, remove_blocks, remove_own, share_block, stack, write,
    write_block,
};
use crate::layer::{Layer, most_copied};
use crate::value::{Base, Value};
use crate::writer::BlockWriter;
use indexmap::IndexMap;
use nd_block::RawBlock;
use nd_memory::OutOfMemory;
use std::alloc::Global;
use std::marker::Model;
use std::rc::Rc;

/// Blocks by their bases: old ones, which versions share, and newer ones, which hide old ones of
/// the same bases. A copy shares the old ones, so it copies few.
#[derive(Drop)]
pub(crate) struct BlockTable {
    shared: Layer<Blocks>,
    /// The bases whose old blocks are taken out, though the shared layer still has them.
    gone: Bases,
    newer: Blocks,
    alloc: Global,
}

impl Model for BlockTable {
    ghost use Rattle.nd_heap.specs.Layers.{TableData};

    ghost Value = { TableData };

    ghost use Rattle.std.specs.Prelude.{◌++◌};
    ghost use Rattle.indexmap.specs.IndexMap.{spare};
    ghost use Rattle.nd_heap.specs.Contents.{bases_of, blocks_of};
    ghost use Rattle.nd_heap.specs.Layers.{without};
    ghost use Rattle.nd_heap.specs.Sharing.{held_in};

    ghost view = { λ t. record {
      blocks = blocks_of t.newer.entries
          ++ without (bases_of t.gone.entries) (blocks_of (held_in t.shared).entries);
      room = spare t.gone;
    } };
}

impl BlockTable {
    /// No blocks.
    pub(crate) fn new(alloc: Global) -> BlockTable
        ensures { result.blocks ≡ [] }
    {
        BlockTable {
            shared: Layer::Own(IndexMap::new(alloc)),
            gone: IndexMap::new(alloc),
            newer: IndexMap::new(alloc),
            alloc,
        }
    }

    /// A copy that shares every block, with room to take out `room` blocks: no byte is copied.
    pub(crate) fn try_clone(&self, room: usize) -> Result<BlockTable, OutOfMemory>
        ensures blocks { IfOk result (λ t. t.blocks ≡ self.now.blocks) }
        ensures room { IfOk result (λ t. room ≤ t.room) }
    {
        let mut gone = self.gone.clone()?;
        gone.reserve(room)?;
        let newer = self.newer.clone()?;
        match self.shared.try_clone() {
            Ok(shared) => Ok(BlockTable {
                shared,
                gone,
                newer,
                alloc: self.alloc,
            }),
            Err(memory) => {
                drop(newer);
                Err(memory.into())
            }
        }
    }

    /// Makes room to take out `room` blocks.
    pub(crate) fn make_room(&mut self, room: usize) -> Result<(), OutOfMemory>
        ensures blocks { self.new.blocks ≡ self.old.blocks }
        ensures room { self.old.room ≤ self.new.room }
        ensures ok { OnOk result (room ≤ self.new.room) }
    {
        self.gone.reserve(room)?;
        Ok(())
    }

    /// The bytes of a block, none where there is no such block.
    pub(crate) fn bytes(&self, base: Base) -> &[u8]
        ensures { result.now ≡ bytes_at self.now.blocks (base_of base) }
    {
        if let Some(block) = self.newer.get(&base) {
            return block.as_ref().as_slice();
        }
        if has_base(&self.gone, base) {
            return &[];
        }
        bytes_of(self.shared.as_ref(), base)
    }

    /// The block of a base, shared.
    pub(crate) fn share(&self, base: Base) -> Result<Option<Rc<RawBlock>>, OutOfMemory>
        ensures { IfOk result (λ o. bytes_in o ≡ bytes_at self.now.blocks (base_of base)) }
    {
        if let Some(block) = self.newer.get(&base) {
            return Ok(Some(block.clone()?));
        }
        if has_base(&self.gone, base) {
            return Ok(None);
        }
        Ok(share_block(self.shared.as_ref(), base)?)
    }

    /// Sets a block.
    pub(crate) fn put_block(&mut self, base: Base, block: Rc<RawBlock>) -> Result<(), OutOfMemory>
        ensures ok { OnOk result (bytes_at self.new.blocks
            ≡ running.with_base (base_of base) block.value (bytes_at self.old.blocks)) }
        ensures err { OnErr result (bytes_at self.new.blocks ≡ bytes_at self.old.blocks) }
        ensures room { self.old.room ≤ self.new.room }
    {
        self.newer.insert(base, block)?;
        Ok(())
    }

    /// Puts the block of the base, shared, into the newer layer, if there is one and versions share
    /// the old layer.
    fn raise(&mut self, base: Base) -> Result<(), OutOfMemory>
        ensures bytes { bytes_at self.new.blocks ≡ bytes_at self.old.blocks }
        ensures room { self.old.room ≤ self.new.room }
    {
        if self.shared.is_own() {
            return Ok(());
        }
        if let Some(block) = self.share(base)? {
            self.put_block(base, block)?;
        }
        Ok(())
    }

    /// Writes to a block in the layer that it is in, and nothing where there is no such block.
    fn write_layer<W: BlockWriter + Drop>(
        &mut self,
        base: Base,
        writer: W,
    ) -> Result<(), OutOfMemory>
        ensures ok { OnOk result (bytes_at self.new.blocks ≡ running.with_base (base_of base)
            (W.written writer (bytes_at self.old.blocks (base_of base)))
            (bytes_at self.old.blocks)) }
        ensures err { OnErr result (bytes_at self.new.blocks ≡ bytes_at self.old.blocks) }
        ensures room { self.old.room ≤ self.new.room }
    {
        if self.newer.contains_key(&base) {
            write_block(&mut self.newer, base, writer)?;
            return Ok(());
        }
        if has_base(&self.gone, base) {
            return Ok(());
        }
        write(&mut self.shared, base, writer)?;
        Ok(())
    }

    /// Writes to a block, and nothing where there is no such block. One that is shared gives way to a
    /// block of its own.
    pub(crate) fn write<W: BlockWriter + Drop>(
        &mut self,
        base: Base,
        writer: W,
    ) -> Result<(), OutOfMemory>
        ensures ok { OnOk result (bytes_at self.new.blocks ≡ running.with_base (base_of base)
            (W.written writer (bytes_at self.old.blocks (base_of base)))
            (bytes_at self.old.blocks)) }
        ensures err { OnErr result (bytes_at self.new.blocks ≡ bytes_at self.old.blocks) }
        ensures room { self.old.room ≤ self.new.room }
    {
        self.raise(base)?;
        self.write_layer(base, writer)?;
        Ok(())
    }

    /// Takes out the blocks of these bases, without memory.
    pub(crate) fn remove(&mut self, bases: &Bases)
        requires { index_map_len bases.now ≤ self.old.room }
        ensures bytes { (b : values.Base) → bytes_at self.new.blocks b
            ≡ (if is_base_among (bases_of bases.now.entries) b
            then [] else bytes_at self.old.blocks b) }
        ensures room { self.old.room ≤ self.new.room + index_map_len bases.now }
    {
        hide(&mut self.gone, self.shared.as_ref(), bases);
        remove_blocks(&mut self.newer, bases);
        self.drop_hidden();
    }

    /// Gives back the memory of old blocks that are gone, where no version shares the old layer.
    fn drop_hidden(&mut self)
        ensures bytes { bytes_at self.new.blocks ≡ bytes_at self.old.blocks }
        ensures room { self.old.room ≤ self.new.room }
    {
        if remove_own(&mut self.shared, &self.gone) {
            self.gone.clear();
        }
    }

    /// Makes the old blocks the only layer where more than this many are newer, or gone.
    pub(crate) fn settle(&mut self, most: usize) -> Result<(), OutOfMemory>
        ensures bytes { bytes_at self.new.blocks ≡ bytes_at self.old.blocks }
        ensures room { self.old.room ≤ self.new.room }
    {
        if self.newer.len() <= most && self.gone.len() <= most {
            return Ok(());
        }
        let flat = stack(&self.newer, self.shared.as_ref(), &self.gone)?;
        self.shared = Layer::Shared(Rc::new(self.alloc, flat)?);
        self.newer.clear();
        self.gone.clear();
        Ok(())
    }

    /// Makes the old blocks the only layer where those that are newer, or gone, are many for a table that is often copied.
    pub(crate) fn settle_early(&mut self) -> Result<(), OutOfMemory>
        ensures bytes { bytes_at self.new.blocks ≡ bytes_at self.old.blocks }
        ensures room { self.old.room ≤ self.new.room }
    {
        let most = most_copied(self.shared.as_ref().len());
        self.settle(most)
    }
}

/// Puts the block of the base, shared, among the others, if there is one.
fn pick_block(picked: &mut Blocks, blocks: &BlockTable, base: Base) -> Result<(), OutOfMemory>
    requires { bytes_at blocks.now.blocks (base_of base) ≡ []
        → bytes_at (blocks_of picked.old.entries) (base_of base) ≡ [] }
    ensures { OnOk result (bytes_at (blocks_of picked.new.entries)
        ≡ running.with_base (base_of base) (bytes_at blocks.now.blocks (base_of base))
        (bytes_at (blocks_of picked.old.entries))) }
{
    if let Some(block) = blocks.share(base)? {
        picked.insert(base, block)?;
    }
    Ok(())
}

/// Takes out the bases that have no bytes: there is nothing to give up.
pub(crate) fn retain_full(bases: &mut Bases, blocks: &BlockTable)
    ensures less { index_map_len bases.new ≤ index_map_len bases.old }
    ensures left { (b : values.Base) → is_base_among (bases_of bases.new.entries) b
        ≡ (is_base_among (bases_of bases.old.entries) b
        && not (nat_eq (length (bytes_at blocks.now.blocks b)) 0)) }
{
    bases.retain(
        |base: &Base, _unit: &mut ()| -> bool
            ensures { (result
                ≡ not (nat_eq (length (bytes_at blocks.entry.now.blocks (base_of base.now))) 0))
                × (_unit.new ≡ _unit.old) }
        { !blocks.bytes(*base).is_empty() },
    );
}

/// The blocks of these bases, shared.
pub(crate) fn pick_blocks(
    alloc: Global,
    blocks: &BlockTable,
    bases: &Bases,
) -> Result<Blocks, OutOfMemory>
    ensures { IfOk result (λ picked. (b : values.Base) → bytes_at (blocks_of picked.entries) b
        ≡ (if is_base_among (bases_of bases.now.entries) b
        then bytes_at blocks.now.blocks b else [])) }
{
    let mut picked = IndexMap::new(alloc);
    for i in 0..bases.len() {
        let Some((base, _)) = bases.get_index(i) else {
            unreachable!();
        };
        pick_block(&mut picked, blocks, *base)?;
    }
    Ok(picked)
}
