//! `Change::patch`: puts a change over a session, where it can.

ghost use Rattle.std.specs.Prelude.{◌≡◌, ◌≤◌, ℕ, IfOk, IsFalse, IsTrue, List, Ok, OnOk, Some, false, true, bytes_eq, if◌then◌else◌, length, nat_lt, unwrap_or};
ghost use Rattle.std.specs.Rc.{rc_str_bytes};
ghost use Rattle.nd_change.specs.Steps.{IsPutOver};
ghost use Rattle.nd_change.specs.Whole.{IsPut};
ghost use Rattle.nd_heap.specs.Contents.{bytes_in};
ghost use Rattle.nd_heap.specs.Live.{bytes_at};
ghost use Rattle.nd_heap.specs.Loose.{session_in};
ghost use Rattle.nd_heap.specs.Values.{base_of, value_of};
ghost use Rattle.nd_model.specs.Arrays.Value as values;
ghost use Rattle.nd_model.specs.Book.Sessions.{IsOnce};
ghost use Rattle.nd_model.specs.Cells.Footprint.{patched};
ghost use Rattle.nd_model.specs.Cells.Running as running;
ghost use Rattle.nd_model.specs.Cells.Session as model;
ghost use Rattle.nd_model.specs.Cells.Sound.{IsViewOf};
ghost use Rattle.nd_session.specs.Session.Change.{change_of, whole_in};
ghost use Rattle.nd_session.specs.Session.Intact.{AllLie, LiesThere};
ghost use Rattle.nd_session.specs.Session.Live.{live};
ghost use Rattle.nd_session.specs.Session.Now.{block_now, part_now, value_now};
ghost use Rattle.nd_session.specs.Session.Patch.{AllBound, KeepLengths, LiesInKnown};
ghost use Rattle.nd_session.specs.Session.Reading.{value_at};

use crate::session::change::change::{BlocksNow, Change, NamesNow, PartsNow};
use crate::session::found::{PartWriter, shared_bytes};
use crate::session::session::Session;
use nd_block::RawBlock;
use nd_change::puts_whole;
use nd_heap::{Base, Heap, OutOfMemory, Value};
use std::alloc::Global;
use std::rc::{Rc, RcStr};

/// Whether the block that a value lies in is in the change, or some bound value lies in it.
fn is_known(heap: &Heap, blocks: &BlocksNow, value: &Value) -> bool
    ensures { IsTrue result → LiesInKnown heap.now.names (block_now blocks.now.entries)
        (value_of value.now) }
{
    match value {
        Value::Number(_) => true,
        Value::Array(array) | Value::Row(array) => {
            blocks.contains_key(&array.base) || heap.is_held(array.base)
        }
    }
}

/// Whether it is so with the value that a name has now, if it is bound.
fn is_known_now(heap: &Heap, blocks: &BlocksNow, value: &Option<Rc<Value>>) -> bool
    ensures { IsTrue result → (v : values.Value) → value_at value.now ≡ Some v
        → LiesInKnown heap.now.names (block_now blocks.now.entries) v }
{
    match value {
        Some(value) => is_known(heap, blocks, value.as_ref()),
        None => true,
    }
}

/// Whether it is so with each value that a name of the change has now.
fn are_known(heap: &Heap, names: &NamesNow, blocks: &BlocksNow) -> bool
    ensures { IsTrue result → AllBound (LiesInKnown heap.now.names (block_now blocks.now.entries))
        (value_now names.now.entries) }
{
    for i in 0..names.len() {
        let Some((_, value)) = names.get_index(i) else {
            unreachable!();
        };
        if !is_known_now(heap, blocks, value) {
            return false;
        }
    }
    true
}

/// Binds a name to the value that it has now, or unbinds it.
fn put_name(heap: &mut Heap, name: &RcStr, value: &Option<Rc<Value>>) -> Result<(), OutOfMemory>
    ensures names { OnOk result ((n : List ℕ) → model.lookup n heap.new.names
        ≡ (if bytes_eq n (rc_str_bytes name.now) then value_at value.now
        else model.lookup n heap.old.names)) }
    ensures blocks { heap.new.blocks ≡ heap.old.blocks }
{
    match value {
        Some(value) => {
            heap.bind(name.clone()?, value.clone()?)?;
            Ok(())
        }
        None => {
            heap.unbind(name.as_str())?;
            Ok(())
        }
    }
}

/// Binds and unbinds the names of the change.
fn put_names(heap: &mut Heap, names: &NamesNow) -> Result<(), OutOfMemory>
    ensures names { OnOk result ((n : List ℕ) → model.lookup n heap.new.names
        ≡ unwrap_or (value_now names.now.entries n) (model.lookup n heap.old.names)) }
    ensures blocks { heap.new.blocks ≡ heap.old.blocks }
{
    for i in (0..names.len()).rev() {
        let Some((name, value)) = names.get_index(i) else {
            unreachable!();
        };
        put_name(heap, name, value)?;
    }
    Ok(())
}

/// Whether a block has more bytes than this, and some bound value lies in it. The names are asked
/// only about a block with more bytes.
fn gets_shorter(heap: &Heap, base: Base, len: usize) -> bool
    ensures { result ≡ nat_lt len
        (length (model.held_bytes (session_in heap.now) (base_of base))) }
{
    heap.bytes(base).len() > len && heap.held_bytes(base).len() > len
}

/// Whether no block that a bound value lies in gets shorter.
fn keep_lengths(heap: &Heap, blocks: &BlocksNow) -> bool
    ensures { IsTrue result → KeepLengths (model.held_bytes (session_in heap.now))
        (block_now blocks.now.entries) }
{
    for i in 0..blocks.len() {
        let Some((base, block)) = blocks.get_index(i) else {
            unreachable!();
        };
        let len = shared_bytes(block).len();
        if gets_shorter(heap, *base, len) {
            return false;
        }
    }
    true
}

/// A block, shared: one without bytes where there is none.
fn share_now(alloc: Global, block: &Option<Rc<RawBlock>>) -> Result<Rc<RawBlock>, OutOfMemory>
    ensures { IfOk result (λ shared. shared.value ≡ bytes_in block.now) }
{
    match block {
        Some(block) => Ok(block.clone()?),
        None => Ok(Rc::new(alloc, RawBlock::zeros(alloc, 0)?)?),
    }
}

/// Sets a block to the one that stands now.
fn put_block(
    alloc: Global,
    heap: &mut Heap,
    base: Base,
    block: &Option<Rc<RawBlock>>,
) -> Result<(), OutOfMemory>
    ensures names { heap.new.names ≡ heap.old.names }
    ensures blocks { OnOk result ((b : values.Base) → bytes_at heap.new.blocks b
        ≡ (if values.same_base b (base_of base) then bytes_in block.now
        else bytes_at heap.old.blocks b)) }
{
    let shared = share_now(alloc, block)?;
    heap.put_block(base, shared)?;
    Ok(())
}

/// Sets the blocks of the change. No byte is copied.
fn put_blocks(alloc: Global, heap: &mut Heap, blocks: &BlocksNow) -> Result<(), OutOfMemory>
    ensures names { heap.new.names ≡ heap.old.names }
    ensures blocks { OnOk result ((b : values.Base) → bytes_at heap.new.blocks b
        ≡ unwrap_or (block_now blocks.now.entries b) (bytes_at heap.old.blocks b)) }
{
    for i in (0..blocks.len()).rev() {
        let Some((base, block)) = blocks.get_index(i) else {
            unreachable!();
        };
        put_block(alloc, heap, *base, block)?;
    }
    Ok(())
}

/// Puts single bytes into their blocks, and nothing where there is no such block. A block that is
/// shared is copied first.
fn put_parts(heap: &mut Heap, parts: &PartsNow) -> Result<(), OutOfMemory>
    ensures names { heap.new.names ≡ heap.old.names }
    ensures blocks { OnOk result ((b : values.Base) → bytes_at heap.new.blocks b
        ≡ patched (part_now parts.now.entries b) (bytes_at heap.old.blocks b)) }
{
    for i in 0..parts.len() {
        let Some((base, part)) = parts.get_index(i) else {
            unreachable!();
        };
        let part = part.as_ref();
        heap.write(*base, PartWriter { part })?;
    }
    Ok(())
}

/// Whether a value lies in its block, which has a number below the next one if it is of the label.
fn lies(heap: &Heap, value: &Value, label: u64, next: u64) -> bool
    ensures { IsTrue result → IsViewOf (LiesThere label next (bytes_at heap.now.blocks))
        (value_of value.now) }
{
    match value {
        Value::Number(_) => true,
        Value::Array(array) | Value::Row(array) => {
            if array.base.label == label && array.base.number >= next {
                return false;
            }
            array.view.lies_within(heap.bytes(array.base).len() as u64)
        }
    }
}

/// Whether it is so with the value that a name has now, if it is bound.
fn lies_now(heap: &Heap, value: &Option<Rc<Value>>, label: u64, next: u64) -> bool
    ensures { IsTrue result → (v : values.Value) → value_at value.now ≡ Some v
        → IsViewOf (LiesThere label next (bytes_at heap.now.blocks)) v }
{
    match value {
        Some(value) => lies(heap, value.as_ref(), label, next),
        None => true,
    }
}

/// Whether each value that a name of the change has now lies in its block.
fn changed_lie(heap: &Heap, names: &NamesNow, label: u64, next: u64) -> bool
    ensures { IsTrue result → AllBound (IsViewOf (LiesThere label next (bytes_at heap.now.blocks)))
        (value_now names.now.entries) }
{
    for i in 0..names.len() {
        let Some((_, value)) = names.get_index(i) else {
            unreachable!();
        };
        if !lies_now(heap, value, label, next) {
            return false;
        }
    }
    true
}

/// Whether each bound value lies in its block.
fn all_lie(heap: &Heap, label: u64, next: u64) -> bool
    ensures { IsTrue result → AllLie label next (bytes_at heap.now.blocks) heap.now.names }
{
    for i in 0..heap.count() {
        let Some(value) = heap.value_at(i) else {
            unreachable!();
        };
        if !lies(heap, value, label, next) {
            return false;
        }
    }
    true
}

/// The number of the next block behind that of a value, if it lies in one of the label.
fn next_behind(value: &Value, label: u64, next: u64) -> u64
    ensures { next ≤ result }
{
    match value {
        Value::Number(_) => next,
        Value::Array(array) | Value::Row(array) => {
            if array.base.label != label {
                return next;
            }
            next.max(array.base.number.saturating_add(1))
        }
    }
}

/// The number of the next block behind that of the value that a name has now, if it is bound.
fn next_behind_now(value: &Option<Rc<Value>>, label: u64, next: u64) -> u64
    ensures { next ≤ result }
{
    match value {
        Some(value) => next_behind(value.as_ref(), label, next),
        None => next,
    }
}

/// The number of the next block of the label, behind those of the change.
pub(crate) fn next_now(names: &NamesNow, label: u64, next: u64) -> u64
    ensures { next ≤ result }
{
    let mut later = next;
    for i in 0..names.len() {
        let Some((_, value)) = names.get_index(i) else {
            unreachable!();
        };
        later = next_behind_now(value, label, later);
    }
    later
}

/// Puts names and blocks of a change over a heap, and returns whether it could. What is bound then
/// lies in its block.
pub(crate) fn put_over(
    alloc: Global,
    heap: &mut Heap,
    change: &Change,
    label: u64,
    next: u64,
    later: u64,
) -> Result<bool, OutOfMemory>
    requires lie { AllLie label next (bytes_at heap.old.blocks) heap.old.names }
    requires later { next ≤ later }
    ensures put { IfOk result (λ could. IsTrue could → IsPut (whole_in change.now)
        (model.collected (session_in heap.old)) (model.collected (session_in heap.new))) }
    ensures lie { IfOk result (λ could. IsTrue could
        → AllLie label later (bytes_at heap.new.blocks) heap.new.names) }
{
    if !are_known(heap, &change.names, &change.blocks) {
        return Ok(false);
    }
    put_names(heap, &change.names)?;
    let kept = keep_lengths(heap, &change.blocks);
    put_parts(heap, &change.parts)?;
    put_blocks(alloc, heap, &change.blocks)?;
    heap.distinctness();
    if kept {
        Ok(changed_lie(heap, &change.names, label, later))
    } else {
        Ok(all_lie(heap, label, later))
    }
}

/// Whether the change was put over: there was memory, and it could be.
pub(crate) fn is_done(done: &Result<bool, OutOfMemory>) -> bool
    ensures yes { IsTrue result → done.now ≡ Ok true }
    ensures no { IsFalse result → IfOk done.now (λ could. could ≡ false) }
{
    match done {
        Ok(could) => *could,
        Err(_) => false,
    }
}

impl Change {
    /// Puts the change over a session, and returns whether it could: the session then has what
    /// stands now. A block into which single bytes are put is copied. Where it could not the session may only be dropped.
    ///
    /// It can over each session that the change was made for. It can not where a name of the change
    /// has an array whose block is neither in the change nor in the session.
    pub fn patch(&self, session: &mut Session) -> Result<bool, OutOfMemory>
        ensures over { IfOk result (λ could. IsTrue could → IsPutOver (change_of self.now)
            (model.collected (running.session_of (live session.old)))
            (model.collected (running.session_of (live session.new)))) }
        ensures once { IfOk result (λ could. IsTrue could → IsOnce (live session.new).names) }
    {
        puts_whole();
        session.put_over(self)
    }
}
