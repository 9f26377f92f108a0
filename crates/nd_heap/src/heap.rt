//! `Heap`: names with their values, and the blocks that arrays among these lie in.

ghost use Rattle.std.specs.Prelude.{◌≡◌, ◌↔◌, ◌+◌, ◌<◌, ◌≤◌, ◌||◌, ◌&&◌, not, nat_eq, [], IfOk, IsFalse, IsTrue, OnErr, OnOk, false, if◌then◌else◌, length, option_map, slice_get, true};
ghost use Rattle.std.specs.Rc.{rc_str_bytes};
ghost use Rattle.nd_model.specs.Arrays.Value as values;
ghost use Rattle.nd_model.specs.Cells.Session as model;
ghost use Rattle.nd_model.specs.Cells.Running as running;
ghost use Rattle.nd_model.specs.Book.Sessions.{IsOnce};
ghost use Rattle.indexmap.specs.IndexMap.{index_map_len};
ghost use Rattle.nd_heap.specs.Values.{base_of, value_of};
ghost use Rattle.nd_heap.specs.Contents.{bases_of, blocks_of, bytes_in};
ghost use Rattle.nd_heap.specs.Live.{bytes_at, is_base_among};
ghost use Rattle.nd_heap.specs.Loose.{lies_in_found};

use crate::block_table::{BlockTable, pick_blocks, retain_full};
use crate::blocks::{
    Bases, Blocks, are_held, drop_label, has_base, note_base, retain_label, retain_unheld,
};
use crate::layer::MOST_NEWER;
use crate::name_table::NameTable;
use crate::names::lies_in;
use crate::value::{Base, Value};
use crate::writer::BlockWriter;
use indexmap::IndexMap;
use nd_block::RawBlock;
use nd_memory::OutOfMemory;
use std::alloc::Global;
use std::marker::Model;
use std::rc::{Rc, RcStr};

/// Names and blocks, of which copies share most. A base is loose from when it is made, and from
/// when a name that lay in it gets a value that does not, until blocks are collected: only loose
/// bases are asked whether a name still lies in them. The blocks have room for each of them, so
/// that to collect needs no memory.
///
/// Where `x` and `y` are views of one base, `unbind("x")` leaves the block, and after `unbind("y")`
/// the next `collect` gives it up.
#[derive(Drop)]
pub struct Heap {
    names: NameTable,
    blocks: BlockTable,
    loose: Bases,
}

impl Model for Heap {
    ghost use Rattle.nd_heap.specs.Loose.{HeapData};

    ghost Value = { HeapData };

    ghost use Rattle.nd_heap.specs.Contents.{bases_of};

    ghost view = { λ h. record {
      names = h.names;
      blocks = h.blocks.blocks;
      loose = bases_of h.loose.entries;
    } };

    ghost use Rattle.std.specs.Prelude.{◌≤◌};
    ghost use Rattle.indexmap.specs.IndexMap.{index_map_len};
    ghost use Rattle.nd_heap.specs.Loose.{AreLoose};

    ghost invariant = { λ h. AreLoose (record {
      names = h.names;
      blocks = h.blocks.blocks;
      loose = bases_of h.loose.entries;
    }) × (index_map_len h.loose ≤ h.blocks.room) };
}

/// Puts the base that the value of a name lies in among the others: the name is about to lose it.
fn loosen(loose: &mut Bases, names: &NameTable, name: &str) -> Result<(), OutOfMemory>
    ensures ok { OnOk result ((b : values.Base) → is_base_among (bases_of loose.new.entries) b
        ≡ (is_base_among (bases_of loose.old.entries) b
        || lies_in_found b (model.lookup name.now names.now))) }
    ensures err { OnErr result (bases_of loose.new.entries ≡ bases_of loose.old.entries) }
    ensures len { index_map_len loose.new ≤ index_map_len loose.old + 1 }
{
    if let Some(value) = names.find(name) {
        note_base(loose, value.as_ref())?;
    }
    Ok(())
}

/// Whether each base that a value lies in is one that the next value lies in: numbers lie in none.
fn lies_beside(value: &Value, next: &Value) -> bool
    ensures { IsTrue result → (b : values.Base) → IsTrue (values.lies_in b (value_of value.now))
        → IsTrue (values.lies_in b (value_of next.now)) }
{
    match value {
        Value::Number(_) => true,
        Value::Array(array) | Value::Row(array) => lies_in(next, array.base),
    }
}

/// Puts the base that the value of a name lies in among the others, unless its next value lies there too.
fn loosen_bound(
    loose: &mut Bases,
    names: &NameTable,
    name: &str,
    next: &Value,
) -> Result<(), OutOfMemory>
    ensures more { (b : values.Base) → IsTrue (is_base_among (bases_of loose.old.entries) b)
        → IsTrue (is_base_among (bases_of loose.new.entries) b) }
    ensures lost { OnOk result ((b : values.Base)
        → IsTrue (lies_in_found b (model.lookup name.now names.now))
        → IsTrue (is_base_among (bases_of loose.new.entries) b
        || values.lies_in b (value_of next.now))) }
    ensures len { index_map_len loose.new ≤ index_map_len loose.old + 1 }
{
    let Some(value) = names.find(name) else {
        return Ok(());
    };
    if lies_beside(value.as_ref(), next) {
        return Ok(());
    }
    note_base(loose, value.as_ref())?;
    Ok(())
}

/// Puts a base without bytes among the others. One that has bytes is among them, or some value lies in it.
fn loosen_empty(loose: &mut Bases, blocks: &BlockTable, base: Base) -> Result<(), OutOfMemory>
    ensures more { (b : values.Base) → IsTrue (is_base_among (bases_of loose.old.entries) b)
        → IsTrue (is_base_among (bases_of loose.new.entries) b) }
    ensures empty { OnOk result (bytes_at blocks.now.blocks (base_of base) ≡ []
        → IsTrue (is_base_among (bases_of loose.new.entries) (base_of base))) }
    ensures len { index_map_len loose.new ≤ index_map_len loose.old + 1 }
{
    if blocks.bytes(base).is_empty() {
        loose.insert(base, ())?;
    }
    Ok(())
}

impl Heap {
    /// No names and no blocks. It takes no memory.
    pub fn new(alloc: Global) -> Heap
        ensures names { result.names ≡ [] }
        ensures blocks { result.blocks ≡ [] }
    {
        Heap {
            names: NameTable::new(alloc),
            blocks: BlockTable::new(alloc),
            loose: IndexMap::new(alloc),
        }
    }

    /// Returns a copy that shares names and blocks: no name and no byte is copied. What is bound or
    /// written in one of both is not seen in the other.
    pub fn try_clone(&self) -> Result<Heap, OutOfMemory>
        ensures { IfOk result (λ h. h ≡ self.now) }
    {
        let loose = self.loose.clone()?;
        let blocks = self.blocks.try_clone(loose.len())?;
        match self.names.try_clone() {
            Ok(names) => Ok(Heap {
                names,
                blocks,
                loose,
            }),
            Err(memory) => {
                drop(blocks);
                Err(memory)
            }
        }
    }

    /// How many names are bound.
    pub fn count(&self) -> usize
        ensures { result ≡ length self.now.names }
    {
        self.names.len()
    }

    /// Returns the value of the name at a place in the order of the names, none past the last.
    ///
    /// After `bind` of `x`, of `y` and of `x` again, that of `x` is at place 0 and that of `y` at 1.
    pub fn value_at(&self, place: usize) -> Option<&Value>
        ensures { option_map (λ v. value_of v.now) result
            ≡ option_map (λ e. e.1) (slice_get self.now.names place) }
    {
        if place >= self.names.len() {
            return None;
        }
        let (_, value) = self.names.entry(place);
        Some(value.as_ref())
    }

    /// Returns the value of a name, none where it is not bound.
    pub fn find(&self, name: &str) -> Option<&Value>
        ensures { option_map (λ v. value_of v.now) result ≡ model.lookup name.now self.now.names }
    {
        match self.names.find(name) {
            Some(value) => Some(value.as_ref()),
            None => None,
        }
    }

    /// The value of a name, shared.
    pub fn share_value(&self, name: &str) -> Result<Option<Rc<Value>>, OutOfMemory>
        ensures { IfOk result (λ o. option_map (λ v. value_of v.value) o
            ≡ model.lookup name.now self.now.names) }
    {
        match self.names.find(name) {
            Some(value) => Ok(Some(value.clone()?)),
            None => Ok(None),
        }
    }

    /// The block of a base, shared, if there is one. As long as it is shared, a write to it copies it first.
    pub fn share_block(&self, base: Base) -> Result<Option<Rc<RawBlock>>, OutOfMemory>
        ensures { IfOk result (λ o. bytes_in o ≡ bytes_at self.now.blocks (base_of base)) }
    {
        self.blocks.share(base)
    }

    /// Returns the bases that some bound value lies in.
    ///
    /// Where `x` is an array and `y` a view of it, this is the one base of both.
    pub fn held_bases(&self) -> Result<Bases, OutOfMemory>
        ensures { IfOk result (λ held. (b : values.Base)
            → is_base_among (bases_of held.entries) b ≡ model.is_held b self.now.names) }
    {
        self.names.held_bases()
    }

    /// The blocks of these bases, shared.
    pub fn pick_blocks(&self, alloc: Global, bases: &Bases) -> Result<Blocks, OutOfMemory>
        ensures { IfOk result (λ picked. (b : values.Base) → bytes_at (blocks_of picked.entries) b
            ≡ (if is_base_among (bases_of bases.now.entries) b
            then bytes_at self.now.blocks b else [])) }
    {
        pick_blocks(alloc, &self.blocks, bases)
    }

    /// The bytes of a block, none where there is no such block.
    pub fn bytes(&self, base: Base) -> &[u8]
        ensures { result.now ≡ bytes_at self.now.blocks (base_of base) }
    {
        self.blocks.bytes(base)
    }

    /// The bytes of a block that some bound value lies in, none where there is no such block.
    pub fn held_bytes(&self, base: Base) -> &[u8]
        ensures { result.now ≡ (if model.is_held (base_of base) self.now.names
            then bytes_at self.now.blocks (base_of base) else []) }
    {
        if has_base(&self.loose, base) && !self.names.is_held(base) {
            return &[];
        }
        self.blocks.bytes(base)
    }

    /// Whether some bound value lies in the base.
    pub fn is_held(&self, base: Base) -> bool
        ensures { result ≡ model.is_held (base_of base) self.now.names }
    {
        if !self.held_bytes(base).is_empty() {
            return true;
        }
        self.names.is_held(base)
    }

    /// proof: no name stands twice.
    pub fn distinctness(&self)
        ensures { IsOnce self.now.names }
    {
        self.names.distinctness();
    }

    /// Whether some bound value lies in a base of the label.
    pub fn is_label_held(&self, label: u64) -> bool
        ensures { IsFalse result ↔ ((b : values.Base) → b.label ≡ label
            → model.is_held b self.now.names ≡ false) }
    {
        self.names.is_label_held(label)
    }

    /// Binds a name: one that is bound keeps its place, another goes last. No name that is shared is
    /// copied.
    pub fn bind(&mut self, name: RcStr, value: Rc<Value>) -> Result<(), OutOfMemory>
        ensures ok { OnOk result (self.new.names
            ≡ model.bind (rc_str_bytes name) (value_of value.value) self.old.names) }
        ensures err { OnErr result (self.new.names ≡ self.old.names) }
        ensures blocks { self.new.blocks ≡ self.old.blocks }
    {
        self.blocks.make_room(self.loose.len() + 1)?;
        loosen_bound(&mut self.loose, &self.names, name.as_str(), value.as_ref())?;
        self.names.bind(name, value)?;
        Ok(())
    }

    /// Unbinds a name. To take out one that copies of the heap share, the list of names is copied.
    pub fn unbind(&mut self, name: &str) -> Result<(), OutOfMemory>
        ensures ok { OnOk result (self.new.names ≡ model.unbind name.now self.old.names) }
        ensures err { OnErr result (self.new.names ≡ self.old.names) }
        ensures blocks { self.new.blocks ≡ self.old.blocks }
    {
        self.blocks.make_room(self.loose.len() + 1)?;
        loosen(&mut self.loose, &self.names, name)?;
        self.names.unbind(name)?;
        Ok(())
    }

    /// Sets a block. The base of one that had no bytes is loose from then on.
    pub fn put_block(&mut self, base: Base, block: Rc<RawBlock>) -> Result<(), OutOfMemory>
        ensures names { self.new.names ≡ self.old.names }
        ensures ok { OnOk result (bytes_at self.new.blocks
            ≡ running.with_base (base_of base) block.value (bytes_at self.old.blocks)) }
        ensures err { OnErr result (bytes_at self.new.blocks ≡ bytes_at self.old.blocks) }
    {
        self.blocks.make_room(self.loose.len() + 1)?;
        loosen_empty(&mut self.loose, &self.blocks, base)?;
        self.blocks.put_block(base, block)?;
        Ok(())
    }

    /// Writes to a block, and nothing where there is no such block. A block that is shared is copied
    /// first, so that no copy of the heap sees the write.
    pub fn write<W: BlockWriter + Drop>(&mut self, base: Base, writer: W) -> Result<(), OutOfMemory>
        ensures names { self.new.names ≡ self.old.names }
        ensures ok { OnOk result (bytes_at self.new.blocks ≡ running.with_base (base_of base)
            (W.written writer (bytes_at self.old.blocks (base_of base)))
            (bytes_at self.old.blocks)) }
        ensures err { OnErr result (bytes_at self.new.blocks ≡ bytes_at self.old.blocks) }
    {
        self.blocks.write(base, writer)?;
        Ok(())
    }

    /// Merges what has changed with what copies of the heap share, where it is very much. Where memory
    /// is wanted too, names and bytes are as they were.
    pub fn settle(&mut self) -> Result<(), OutOfMemory>
        ensures names { self.new.names ≡ self.old.names }
        ensures bytes { bytes_at self.new.blocks ≡ bytes_at self.old.blocks }
    {
        self.names.settle(MOST_NEWER)?;
        self.blocks.settle(MOST_NEWER)?;
        Ok(())
    }

    /// Merges what has changed with what copies of the heap share, where it is much for a heap that
    /// is copied once for each cell. Where memory is wanted too, names and bytes are as they were.
    pub fn settle_early(&mut self) -> Result<(), OutOfMemory>
        ensures names { self.new.names ≡ self.old.names }
        ensures bytes { bytes_at self.new.blocks ≡ bytes_at self.old.blocks }
    {
        self.names.settle_early()?;
        self.blocks.settle_early()?;
        Ok(())
    }

    /// Gives up the blocks that no bound value lies in. Only loose bases that have bytes are looked
    /// for among the names, and no memory is taken.
    ///
    /// After `bind` of `x` to an array and then to the number 1, it gives up the array's block.
    pub fn collect(&mut self)
        ensures names { self.new.names ≡ self.old.names }
        ensures bytes { (b : values.Base) → bytes_at self.new.blocks b
            ≡ (if model.is_held b self.old.names then bytes_at self.old.blocks b else []) }
    {
        if are_held(&self.loose, &self.names) {
            self.loose.clear();
            return;
        }
        retain_full(&mut self.loose, &self.blocks);
        retain_unheld(&mut self.loose, &self.names);
        self.blocks.remove(&self.loose);
        self.loose.clear();
    }

    /// Returns a copy as `try_clone` does, without the blocks that no bound value lies in. Its
    /// layers are merged where they are very many.
    pub fn try_collected(&self) -> Result<Heap, OutOfMemory>
        ensures names { IfOk result (λ h. h.names ≡ self.now.names) }
        ensures bytes { IfOk result (λ h. (b : values.Base) → bytes_at h.blocks b
            ≡ (if model.is_held b self.now.names then bytes_at self.now.blocks b else [])) }
    {
        let mut heap = self.try_clone()?;
        heap.collect();
        match heap.settle() {
            Ok(()) => Ok(heap),
            Err(memory) => {
                drop(heap);
                Err(memory)
            }
        }
    }

    /// Gives up the blocks of a label that no bound value lies in. Only those of loose bases are
    /// looked at.
    ///
    /// Where a cell has bound `x` to an array and then to the number 1, `collect_label` of the cell's
    /// label gives up the array's block, and of no other label one.
    pub fn collect_label(&mut self, label: u64) -> Result<(), OutOfMemory>
        ensures names { self.new.names ≡ self.old.names }
        ensures ok { OnOk result ((b : values.Base) → bytes_at self.new.blocks b
            ≡ (if nat_eq b.label label && not (model.is_held b self.old.names)
            then [] else bytes_at self.old.blocks b)) }
        ensures err { OnErr result (bytes_at self.new.blocks ≡ bytes_at self.old.blocks) }
    {
        let mut lost = self.loose.clone()?;
        retain_label(&mut lost, label);
        retain_unheld(&mut lost, &self.names);
        self.blocks.make_room(lost.len() + self.loose.len())?;
        self.blocks.remove(&lost);
        drop_label(&mut self.loose, label);
        Ok(())
    }
}
