//! `Change::keep`: takes out of a change what a cell overwrites that did the same in both.

ghost use Rattle.std.specs.Prelude.{◌≡◌, ◌&&◌, ℕ, IsTrue, List, None, OnOk, false, if◌then◌else◌, is_some, map, nat_eq, option_map};
ghost use Rattle.nd_change.specs.Steps.{Keeps};
ghost use Rattle.nd_change.specs.Whole.{binds_in};
ghost use Rattle.nd_heap.specs.Values.{base_of, value_of};
ghost use Rattle.nd_model.specs.Arrays.Value as values;
ghost use Rattle.nd_model.specs.Book.Records.{Record};
ghost use Rattle.nd_model.specs.Cells.Footprint.{patched};
ghost use Rattle.nd_model.specs.Cells.Running.{Key, is_touched};
ghost use Rattle.nd_session.specs.Session.Change.{HasDone, IsOverwritten, change_of, is_bound_in};
ghost use Rattle.nd_session.specs.Session.Now.{block_now, entry_now, part_now, value_now};
ghost use Rattle.nd_session.specs.Session.Found.{byte_found, bytes_of, found_at};
ghost use Rattle.nd_trace.specs.Events.{event_of};

use crate::session::change::change::{BlocksNow, Change, NamesNow, PartsNow};
use crate::session::changes::Changes;
use crate::session::found::{FoundByBase, FoundBytes, FoundWriter};
use indexmap::IndexMap;
use nd_block::RawBlock;
use nd_heap::{Base, BlockWriter, OutOfMemory, Value};
use nd_trace::Event;
use std::alloc::Global;
use std::rc::Rc;

/// Takes out the names that the events bind or unbind.
pub(crate) fn remove_names(names: &mut NamesNow, events: &[Event])
    ensures { (n : List ℕ) → value_now names.new.entries n
        ≡ (if is_touched n (map event_of events.now) then None
        else value_now names.old.entries n) }
{
    for event in events {
        names.swap_remove(event.name().as_str());
    }
}

/// Takes out what stands by a base, if that is of the label.
fn remove_own_base<V: Drop>(blocks: &mut IndexMap<Base, V>, base: Base, label: u64)
    ensures { (b : values.Base) → entry_now blocks.new.entries b
        ≡ (if nat_eq b.label label && values.same_base b (base_of base) then None
        else entry_now blocks.old.entries b) }
{
    if base.label == label {
        blocks.swap_remove(&base);
    }
}

/// Takes out what stands by the base that a value lies in, if that is of the label.
fn remove_own_value<V: Drop>(blocks: &mut IndexMap<Base, V>, value: &Value, label: u64)
    ensures { (b : values.Base) → entry_now blocks.new.entries b
        ≡ (if nat_eq b.label label && values.lies_in b (value_of value.now) then None
        else entry_now blocks.old.entries b) }
{
    match value {
        Value::Number(_) => {}
        Value::Array(array) | Value::Row(array) => {
            remove_own_base(blocks, array.base, label);
        }
    }
}

/// Takes out what stands by the base of the value that an event binds, if that is of the label.
fn remove_own_event<V: Drop>(blocks: &mut IndexMap<Base, V>, event: &Event, label: u64)
    ensures { (b : values.Base) → entry_now blocks.new.entries b
        ≡ (if nat_eq b.label label && is_bound_in b (event_of event.now) then None
        else entry_now blocks.old.entries b) }
{
    match event {
        Event::Binds(_, value) => remove_own_value(blocks, value.as_ref(), label),
        Event::Unbinds(_) => {}
    }
}

/// Takes out what stands by the bases of a label in which the events bind a value. No other base is
/// looked at.
pub(crate) fn remove_own<V: Drop>(blocks: &mut IndexMap<Base, V>, events: &[Event], label: u64)
    ensures { (b : values.Base) → entry_now blocks.new.entries b
        ≡ (if nat_eq b.label label && binds_in b (map event_of events.now) then None
        else entry_now blocks.old.entries b) }
{
    for event in events {
        remove_own_event(blocks, event, label);
    }
}

/// Writes bytes to a block. One that is shared is copied first.
fn patch_shared(block: &mut Rc<RawBlock>, found: &FoundBytes) -> Result<(), OutOfMemory>
    ensures { OnOk result (block.new.value
        ≡ patched (found_at (bytes_of found.now)) block.old.value) }
{
    let own = Rc::make_mut(block)?;
    FoundWriter { found }.write(own);
    Ok(())
}

/// Writes bytes to a block of the change, and nothing where it has none.
fn patch_block(blocks: &mut BlocksNow, base: Base, found: &FoundBytes) -> Result<(), OutOfMemory>
    ensures { OnOk result ((b : values.Base) → block_now blocks.new.entries b
        ≡ (if values.same_base b (base_of base)
        then option_map (patched (found_at (bytes_of found.now))) (block_now blocks.old.entries b)
        else block_now blocks.old.entries b)) }
{
    if !blocks.contains_key(&base) {
        return Ok(());
    }
    let Some(taken) = blocks.insert(base, None)? else {
        unreachable!();
    };
    let Some(mut block) = taken else {
        return Ok(());
    };
    patch_shared(&mut block, found)?;
    blocks.insert(base, Some(block))?;
    Ok(())
}

/// Writes all bytes that a cell wrote to the blocks of the change.
fn patch_blocks(blocks: &mut BlocksNow, written: &FoundByBase) -> Result<(), OutOfMemory>
    ensures { OnOk result ((b : values.Base) → block_now blocks.new.entries b
        ≡ option_map (patched (byte_found written.now.entries b)) (block_now blocks.old.entries b)) }
{
    for i in 0..written.len() {
        let Some((base, found)) = written.get_index(i) else {
            unreachable!();
        };
        patch_block(blocks, *base, found)?;
    }
    Ok(())
}

/// Takes out the single bytes of a block that are overwritten, or writes others over them.
fn overwrite_part(
    alloc: Global,
    parts: &mut PartsNow,
    base: Base,
    found: &FoundBytes,
) -> Result<(), OutOfMemory>
    ensures here { OnOk result ((p : ℕ) → IsOverwritten (found_at (bytes_of found.now))
        (part_now parts.old.entries (base_of base)) (part_now parts.new.entries (base_of base)) p) }
    ensures others { OnOk result ((b : values.Base) (p : ℕ)
        → values.same_base b (base_of base) ≡ false
        → part_now parts.new.entries b p ≡ part_now parts.old.entries b p) }
{
    let part = match parts.get(&base) {
        Some(part) => part,
        None => return Ok(()),
    };
    if found.is_apart(part.as_ref()) {
        return Ok(());
    }
    if found.has_offsets_of(part.as_ref()) {
        parts.swap_remove(&base);
        return Ok(());
    }
    let mut own = part.as_ref().try_clone(alloc)?;
    found.overwrite(&mut own);
    let shared = Rc::new(alloc, own)?;
    parts.insert(base, shared)?;
    Ok(())
}

/// Takes out the single bytes that a cell overwrites, or writes what it wrote over them.
fn overwrite_parts(
    alloc: Global,
    parts: &mut PartsNow,
    written: &FoundByBase,
) -> Result<(), OutOfMemory>
    ensures { OnOk result ((b : values.Base) (p : ℕ)
        → IsOverwritten (byte_found written.now.entries b) (part_now parts.old.entries b)
        (part_now parts.new.entries b) p) }
{
    for i in 0..written.len() {
        let Some((base, found)) = written.get_index(i) else {
            unreachable!();
        };
        overwrite_part(alloc, parts, *base, found)?;
    }
    Ok(())
}

impl Change {
    /// Goes past a cell that did the same in both sessions: what it overwrites is no longer in the
    /// change. A block of the change in which it wrote some bytes gets these, and one that is shared
    /// is copied first. Single bytes that it overwrote leave the change, or are those that it wrote.
    ///
    /// Behind `y = x` the change has no `y`, and behind `a[0] = 5` the block of `a` has 5 there.
    pub fn keep(&mut self, changes: &Changes) -> Result<(), OutOfMemory>
        ensures keeps { OnOk result ((r : Record) → HasDone changes.now r
            → Keeps (change_of self.old) (change_of self.new) r) }
        ensures fewer { OnOk result ((k : Key) → IsTrue (is_some (change_of self.new k))
            → IsTrue (is_some (change_of self.old k))) }
    {
        remove_names(&mut self.names, &changes.events);
        remove_own(&mut self.blocks, &changes.events, changes.label);
        remove_own(&mut self.parts, &changes.events, changes.label);
        patch_blocks(&mut self.blocks, &changes.written)?;
        overwrite_parts(self.alloc, &mut self.parts, &changes.written)?;
        Ok(())
    }
}
