//! `redo`: what a cell did, done again to the names and blocks of a session.

ghost use Rattle.std.specs.Prelude.{◌≡◌, ℕ, [], nat_eq, map, OnOk, if◌then◌else◌};
ghost use Rattle.nd_model.specs.Cells.Footprint.{HasNone, patched, replayed};
ghost use Rattle.nd_model.specs.Cells.Running as running;
ghost use Rattle.nd_model.specs.Cells.Session as session;
ghost use Rattle.nd_model.specs.Arrays.Value as values;
ghost use Rattle.nd_session.specs.Session.Changes.{changed};
ghost use Rattle.nd_session.specs.Session.Found.{byte_found};
ghost use Rattle.nd_heap.specs.Contents.{blocks_of};
ghost use Rattle.nd_trace.specs.Events.{event_of};
ghost use Rattle.nd_heap.specs.Live.{bytes_at};
ghost use Rattle.nd_heap.specs.Loose.{session_in};
ghost use Rattle.nd_heap.specs.Values.{base_of};

use crate::session::changes::Changes;
use crate::session::found::{FoundByBase, FoundWriter};
use nd_block::RawBlock;
use nd_heap::{Base, Blocks, Heap, OutOfMemory};
use nd_trace::Event;
use std::rc::Rc;

/// Binds and unbinds names as the events do.
pub(crate) fn replay(heap: &mut Heap, events: &[Event]) -> Result<(), OutOfMemory>
    ensures names { OnOk result (heap.new.names
        ≡ replayed (map event_of events.now) heap.old.names) }
    ensures blocks { heap.new.blocks ≡ heap.old.blocks }
{
    for event in events {
        match event {
            Event::Binds(name, value) => heap.bind(name.clone()?, value.clone()?)?,
            Event::Unbinds(name) => heap.unbind(name.as_str())?,
        }
    }
    Ok(())
}

/// Sets a block to one that is shared.
fn share(heap: &mut Heap, base: Base, block: &Rc<RawBlock>) -> Result<(), OutOfMemory>
    ensures names { heap.new.names ≡ heap.old.names }
    ensures ok { OnOk result (bytes_at heap.new.blocks
        ≡ running.with_base (base_of base) block.now.value (bytes_at heap.old.blocks)) }
{
    let shared = block.clone()?;
    heap.put_block(base, shared)?;
    Ok(())
}

/// Adds the blocks of a label. No byte is copied.
fn share_own(heap: &mut Heap, from: &Blocks, label: u64) -> Result<(), OutOfMemory>
    requires { (b : values.Base) → b.label ≡ label → bytes_at heap.old.blocks b ≡ [] }
    ensures names { heap.new.names ≡ heap.old.names }
    ensures ok { OnOk result ((b : values.Base) → bytes_at heap.new.blocks b
        ≡ (if nat_eq b.label label then bytes_at (blocks_of from.now.entries) b
        else bytes_at heap.old.blocks b)) }
{
    for i in (0..from.len()).rev() {
        let Some((base, block)) = from.get_index(i) else {
            unreachable!();
        };
        if base.label == label {
            share(heap, *base, block)?;
        }
    }
    Ok(())
}

/// Puts bytes that were found back into their blocks. A block that is shared is copied first.
fn put_back(heap: &mut Heap, written: &FoundByBase) -> Result<(), OutOfMemory>
    ensures names { heap.new.names ≡ heap.old.names }
    ensures ok { OnOk result ((b : values.Base) → bytes_at heap.new.blocks b
        ≡ patched (byte_found written.now.entries b) (bytes_at heap.old.blocks b)) }
{
    for i in 0..written.len() {
        let Some((base, found)) = written.get_index(i) else {
            unreachable!();
        };
        heap.write(*base, FoundWriter { found })?;
    }
    Ok(())
}

/// Makes the changes to names and blocks. After want of memory they are only fit to be dropped.
pub(crate) fn redo(heap: &mut Heap, changes: &Changes) -> Result<(), OutOfMemory>
    requires { HasNone changes.now.label (session_in heap.old) }
    ensures names { OnOk result (heap.new.names ≡ replayed changes.now.events heap.old.names) }
    ensures session { OnOk result (session.collected (session_in heap.new)
        ≡ changed changes.now (session_in heap.old)) }
{
    heap.collect();
    heap.settle()?;
    replay(heap, &changes.events)?;
    put_back(heap, &changes.written)?;
    share_own(heap, &changes.blocks, changes.label)?;
    Ok(())
}
