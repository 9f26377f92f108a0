//! `Blocks`: one layer of blocks by base, each shared by the versions that have it.

ghost use Rattle.std.specs.Prelude.{◌≡◌, ◌+◌, ◌≤◌, ◌^◌, ◌||◌, ◌&&◌, ◌++◌, ◌<◌, not, nat_eq, [], IfOk, IsFalse, IsTrue, OnErr, OnOk, if◌then◌else◌};
ghost use Rattle.nd_model.specs.Arrays.Value as values;
ghost use Rattle.nd_model.specs.Cells.Session as model;
ghost use Rattle.nd_model.specs.Cells.Running as running;
ghost use Rattle.nd_heap.specs.Values.{base_of, value_of, names_of};
ghost use Rattle.nd_heap.specs.Contents.{blocks_of, bases_of, bytes_in};
ghost use Rattle.nd_heap.specs.Layers.{is_block_among, without};
ghost use Rattle.nd_heap.specs.Live.{bytes_at, is_base_among};
ghost use Rattle.nd_heap.specs.Sharing.{held_in};
ghost use Rattle.indexmap.specs.IndexMap.{index_map_len, spare};

use crate::layer::Layer;
use crate::name_table::NameTable;
use crate::value::{Base, Value};
use crate::writer::BlockWriter;
use indexmap::IndexMap;
use nd_block::RawBlock;
use nd_memory::OutOfMemory;
use std::alloc::Global;
use std::rc::Rc;

/// Blocks by their bases. A copy shares each of them.
pub type Blocks = IndexMap<Base, Rc<RawBlock>>;

/// A set of bases.
pub type Bases = IndexMap<Base, ()>;

/// How many bases at most are looked for one by one among the names.
const FEW: usize = 64;

/// Returns the bytes of a block, and `[]` where there is no such block.
pub fn bytes_of(blocks: &Blocks, base: Base) -> &[u8]
    ensures { result.now ≡ bytes_at (blocks_of blocks.now.entries) (base_of base) }
{
    match blocks.get(&base) {
        Some(block) => block.as_ref().as_slice(),
        None => &[],
    }
}

/// The block of a base, shared.
pub(crate) fn share_block(blocks: &Blocks, base: Base) -> Result<Option<Rc<RawBlock>>, OutOfMemory>
    ensures { IfOk result (λ o. bytes_in o
        ≡ bytes_at (blocks_of blocks.now.entries) (base_of base)) }
{
    match blocks.get(&base) {
        Some(block) => Ok(Some(block.clone()?)),
        None => Ok(None),
    }
}

/// Sets a block to one that is shared.
fn put_block(blocks: &mut Blocks, base: Base, block: Rc<RawBlock>) -> Result<(), OutOfMemory>
    ensures { OnOk result (bytes_at (blocks_of blocks.new.entries)
        ≡ running.with_base (base_of base) block.value (bytes_at (blocks_of blocks.old.entries))) }
{
    blocks.insert(base, block)?;
    Ok(())
}

/// Puts a block that has what is written in the place of one that is shared.
fn replace<W: BlockWriter + Drop>(
    alloc: Global,
    shared: &mut Rc<RawBlock>,
    writer: W,
) -> Result<(), OutOfMemory>
    ensures ok { OnOk result (shared.new.value ≡ W.written writer shared.old.value) }
    ensures err { OnErr result (shared.new.value ≡ shared.old.value) }
{
    let block = writer.write_copy(alloc, Rc::as_ref(shared))?;
    *shared = Rc::new(alloc, block)?;
    Ok(())
}

/// Writes to a block. One that is shared gives way to a block of its own.
fn rewrite<W: BlockWriter + Drop>(
    alloc: Global,
    shared: &mut Rc<RawBlock>,
    writer: W,
) -> Result<(), OutOfMemory>
    ensures ok { OnOk result (shared.new.value ≡ W.written writer shared.old.value) }
    ensures err { OnErr result (shared.new.value ≡ shared.old.value) }
{
    match Rc::get_mut(shared) {
        Some(block) => {
            writer.write(block);
            Ok(())
        }
        None => replace(alloc, shared, writer),
    }
}

/// Writes to a block, and nothing where there is no such block. One that is shared gives way to a block
/// of its own.
pub(crate) fn write_block<W: BlockWriter + Drop>(
    blocks: &mut Blocks,
    base: Base,
    writer: W,
) -> Result<(), OutOfMemory>
    ensures ok { OnOk result (bytes_at (blocks_of blocks.new.entries)
        ≡ running.with_base (base_of base) (W.written writer
        (bytes_at (blocks_of blocks.old.entries) (base_of base)))
        (bytes_at (blocks_of blocks.old.entries))) }
    ensures err { OnErr result (bytes_at (blocks_of blocks.new.entries)
        ≡ bytes_at (blocks_of blocks.old.entries)) }
    ensures bases { (b : values.Base) → is_block_among (blocks_of blocks.new.entries) b
        ≡ is_block_among (blocks_of blocks.old.entries) b }
{
    let alloc = *blocks.allocator();
    let Some(shared) = blocks.get_mut(&base) else {
        return Ok(());
    };
    rewrite(alloc, shared, writer)?;
    Ok(())
}

/// Writes to a block of a layer that is shared, which is copied first: nothing is written where
/// there is no such block.
fn write_copied<W: BlockWriter + Drop>(
    blocks: &mut Rc<Blocks>,
    base: Base,
    writer: W,
) -> Result<(), OutOfMemory>
    ensures ok { OnOk result (bytes_at (blocks_of blocks.new.value.entries)
        ≡ running.with_base (base_of base) (W.written writer
        (bytes_at (blocks_of blocks.old.value.entries) (base_of base)))
        (bytes_at (blocks_of blocks.old.value.entries))) }
    ensures err { OnErr result (bytes_at (blocks_of blocks.new.value.entries)
        ≡ bytes_at (blocks_of blocks.old.value.entries)) }
{
    let own = Rc::make_mut(blocks)?;
    write_block(own, base, writer)?;
    Ok(())
}

/// Writes to a block of a layer, and nothing where there is no such block.
pub(crate) fn write<W: BlockWriter + Drop>(
    blocks: &mut Layer<Blocks>,
    base: Base,
    writer: W,
) -> Result<(), OutOfMemory>
    ensures ok { OnOk result (bytes_at (blocks_of (held_in blocks.new).entries)
        ≡ running.with_base (base_of base) (W.written writer
        (bytes_at (blocks_of (held_in blocks.old).entries) (base_of base)))
        (bytes_at (blocks_of (held_in blocks.old).entries))) }
    ensures err { OnErr result (bytes_at (blocks_of (held_in blocks.new).entries)
        ≡ bytes_at (blocks_of (held_in blocks.old).entries)) }
{
    match blocks {
        Layer::Own(own) => write_block(own, base, writer),
        Layer::Shared(shared) => write_copied(shared, base, writer),
    }
}

/// Puts blocks over others without those that are gone, aside: where both have a base, it has the
/// block of the first.
pub(crate) fn stack(newer: &Blocks, older: &Blocks, gone: &Bases) -> Result<Blocks, OutOfMemory>
    ensures { IfOk result (λ all. (b : values.Base) → bytes_at (blocks_of all.entries) b
        ≡ bytes_at (blocks_of newer.now.entries
        ++ without (bases_of gone.now.entries) (blocks_of older.now.entries)) b) }
{
    let mut all = older.clone()?;
    remove_blocks(&mut all, gone);
    for i in (0..newer.len()).rev() {
        let Some((base, block)) = newer.get_index(i) else {
            unreachable!();
        };
        put_block(&mut all, *base, block.clone()?)?;
    }
    Ok(all)
}

/// Puts the base that the value lies in among the others, if it lies in one.
pub(crate) fn note_base(bases: &mut Bases, value: &Value) -> Result<(), OutOfMemory>
    ensures ok { OnOk result ((b : values.Base) → is_base_among (bases_of bases.new.entries) b
        ≡ (is_base_among (bases_of bases.old.entries) b || values.lies_in b (value_of value.now))) }
    ensures err { OnErr result (bases_of bases.new.entries ≡ bases_of bases.old.entries) }
    ensures len { index_map_len bases.new ≤ index_map_len bases.old + 1 }
{
    match value {
        Value::Number(_) => {}
        Value::Array(array) | Value::Row(array) => {
            bases.insert(array.base, ())?;
        }
    }
    Ok(())
}

/// Whether the base is one of them.
pub(crate) fn has_base(bases: &Bases, base: Base) -> bool
    ensures { result ≡ is_base_among (bases_of bases.now.entries) (base_of base) }
{
    bases.contains_key(&base)
}

/// Takes the base that the value lies in out of these, if it lies in one.
pub(crate) fn drop_base(bases: &mut Bases, value: &Value)
    ensures less { index_map_len bases.new ≤ index_map_len bases.old }
    ensures left { (b : values.Base) → is_base_among (bases_of bases.new.entries) b
        ≡ (is_base_among (bases_of bases.old.entries) b
        && not (values.lies_in b (value_of value.now))) }
{
    match value {
        Value::Number(_) => {}
        Value::Array(array) | Value::Row(array) => {
            bases.swap_remove(&array.base);
        }
    }
}

/// Whether some bound value lies in each of these bases, of which there are few. Of many it says no.
pub(crate) fn are_held(bases: &Bases, names: &NameTable) -> bool
    ensures { IsTrue result → (b : values.Base)
        → IsTrue (is_base_among (bases_of bases.now.entries) b)
        → IsTrue (model.is_held b names.now) }
{
    if bases.len() > FEW {
        return false;
    }
    for i in 0..bases.len() {
        let Some((base, _)) = bases.get_index(i) else {
            unreachable!();
        };
        if !names.is_held(*base) {
            return false;
        }
    }
    true
}

/// Takes out the bases that some bound value lies in. Few are looked for one by one, many by one
/// pass over the names: a pass for each would cost their product.
pub(crate) fn retain_unheld(bases: &mut Bases, names: &NameTable)
    ensures less { index_map_len bases.new ≤ index_map_len bases.old }
    ensures left { (b : values.Base) → is_base_among (bases_of bases.new.entries) b
        ≡ (is_base_among (bases_of bases.old.entries) b && not (model.is_held b names.now)) }
{
    if bases.len() > FEW {
        names.drop_held(bases);
        return;
    }
    bases.retain(
        |base: &Base, _unit: &mut ()| -> bool
            ensures { (result ≡ not (model.is_held (base_of base.now) names.entry.now))
                × (_unit.new ≡ _unit.old) }
        { !names.is_held(*base) },
    );
}

/// Keeps only the bases of a label.
pub(crate) fn retain_label(bases: &mut Bases, label: u64)
    ensures { (b : values.Base) → is_base_among (bases_of bases.new.entries) b
        ≡ (is_base_among (bases_of bases.old.entries) b && nat_eq b.label label) }
{
    bases.retain(
        |base: &Base, _unit: &mut ()| -> bool
            ensures { (result ≡ nat_eq base.now.label label) × (_unit.new ≡ _unit.old) }
        { base.label == label },
    );
}

/// Takes out the bases of a label.
pub(crate) fn drop_label(bases: &mut Bases, label: u64)
    ensures less { index_map_len bases.new ≤ index_map_len bases.old }
    ensures left { (b : values.Base) → is_base_among (bases_of bases.new.entries) b
        ≡ (is_base_among (bases_of bases.old.entries) b && not (nat_eq b.label label)) }
{
    bases.retain(
        |base: &Base, _unit: &mut ()| -> bool
            ensures { (result ≡ not (nat_eq base.now.label label)) × (_unit.new ≡ _unit.old) }
        { base.label != label },
    );
}

/// Takes out the blocks of these bases.
pub(crate) fn remove_blocks(blocks: &mut Blocks, bases: &Bases)
    ensures bytes { (b : values.Base) → bytes_at (blocks_of blocks.new.entries) b
        ≡ (if is_base_among (bases_of bases.now.entries) b
        then [] else bytes_at (blocks_of blocks.old.entries) b) }
    ensures bases { (b : values.Base) → is_block_among (blocks_of blocks.new.entries) b
        ≡ (is_block_among (blocks_of blocks.old.entries) b
        && not (is_base_among (bases_of bases.now.entries) b)) }
{
    for i in 0..bases.len() {
        let Some((base, _)) = bases.get_index(i) else {
            unreachable!();
        };
        blocks.swap_remove(base);
    }
}

/// Takes the blocks of these bases out of a layer, and returns whether it has: not where versions
/// share the layer.
pub(crate) fn remove_own(blocks: &mut Layer<Blocks>, bases: &Bases) -> bool
    ensures own { IsTrue result → (b : values.Base)
        → bytes_at (blocks_of (held_in blocks.new).entries) b
        ≡ (if is_base_among (bases_of bases.now.entries) b
        then [] else bytes_at (blocks_of (held_in blocks.old).entries) b) }
    ensures shared { IsFalse result → bytes_at (blocks_of (held_in blocks.new).entries)
        ≡ bytes_at (blocks_of (held_in blocks.old).entries) }
{
    match blocks {
        Layer::Own(own) => {
            remove_blocks(own, bases);
            true
        }
        Layer::Shared(shared) => remove_unshared(shared, bases),
    }
}

/// Takes the blocks of these bases out, and returns whether it has: not where they have two owners.
fn remove_unshared(blocks: &mut Rc<Blocks>, bases: &Bases) -> bool
    ensures own { IsTrue result → (b : values.Base)
        → bytes_at (blocks_of blocks.new.value.entries) b
        ≡ (if is_base_among (bases_of bases.now.entries) b
        then [] else bytes_at (blocks_of blocks.old.value.entries) b) }
    ensures shared { IsFalse result → bytes_at (blocks_of blocks.new.value.entries)
        ≡ bytes_at (blocks_of blocks.old.value.entries) }
{
    match Rc::get_mut(blocks) {
        Some(own) => {
            remove_blocks(own, bases);
            true
        }
        None => false,
    }
}

/// Puts the bases that have a block among those that are gone, which needs no memory.
pub(crate) fn hide(gone: &mut Bases, blocks: &Blocks, bases: &Bases)
    requires { index_map_len bases.now ≤ spare gone.old }
    ensures bytes { (b : values.Base)
        → bytes_at (without (bases_of gone.new.entries) (blocks_of blocks.now.entries)) b
        ≡ (if is_base_among (bases_of bases.now.entries) b then []
        else bytes_at (without (bases_of gone.old.entries) (blocks_of blocks.now.entries)) b) }
    ensures room { spare gone.old ≤ spare gone.new + index_map_len bases.now }
{
    for i in 0..bases.len() {
        let Some((base, _)) = bases.get_index(i) else {
            unreachable!();
        };
        hide_one(gone, blocks, *base);
    }
}

/// Puts the base among those that are gone, if it has a block.
fn hide_one(gone: &mut Bases, blocks: &Blocks, base: Base)
    requires { 0 < spare gone.old }
    ensures bytes { (b : values.Base)
        → bytes_at (without (bases_of gone.new.entries) (blocks_of blocks.now.entries)) b
        ≡ (if values.same_base (base_of base) b then []
        else bytes_at (without (bases_of gone.old.entries) (blocks_of blocks.now.entries)) b) }
    ensures room { spare gone.old ≤ spare gone.new + 1 }
{
    if bytes_of(blocks, base).is_empty() {
        return;
    }
    let Ok(_) = gone.insert(base, ()) else {
        unreachable!();
    };
}
