//! `Change::follow_alike`: what a change becomes behind two runs that bind the same names to the
//! same values.

ghost use Rattle.std.specs.Prelude.{◌≡◌, ◌⊎◌, ℕ, IfOk, IsTrue, None, OnOk, Some, false, if◌then◌else◌, is_some, map, nat_eq, slice_index};
ghost use Rattle.std.specs.List.{All};
ghost use Rattle.nd_change.specs.Steps.{Follows};
ghost use Rattle.nd_heap.specs.Contents.{blocks_of};
ghost use Rattle.nd_heap.specs.Live.{bytes_at};
ghost use Rattle.nd_heap.specs.Values.{base_of};
ghost use Rattle.nd_marks.specs.Kept.{kept_at};
ghost use Rattle.nd_model.specs.Arrays.Value as values;
ghost use Rattle.nd_model.specs.Book.Records.{Record};
ghost use Rattle.nd_model.specs.Cells.Running as running;
ghost use Rattle.nd_model.specs.Cells.Session as model;
ghost use Rattle.nd_session.specs.Session.Change.{AreBytesNoted, HasDone, IsBytewise, IsNoted, LosesSame, change_of};
ghost use Rattle.nd_session.specs.Session.Changes.{events_in};
ghost use Rattle.nd_session.specs.Session.Found.{byte_found, bytes_of as found_in, found_at};
ghost use Rattle.nd_session.specs.Session.Live.{live};
ghost use Rattle.nd_session.specs.Session.Now.{block_now, part_now};
ghost use Rattle.nd_trace.specs.Events.{event_of};

use crate::session::change::change::{BlocksNow, Change, PartsNow};
use crate::session::change::following::{note_base, note_own};
use crate::session::change::keeping::{remove_names, remove_own};
use crate::session::changes::Changes;
use crate::session::found::{FoundByBase, FoundBytes, shared_bytes};
use crate::session::session::Session;
use nd_heap::{Base, Blocks, OutOfMemory, Value, bytes_of};
use nd_marks::KeptBytes;
use nd_trace::Event;
use std::rc::Rc;

/// Single bytes of a change lie in at most this many rows of a block. Each row is looked for in all
/// that a record read of the block, so more rows are noted by the block as it is now.
pub(crate) const MOST_ROWS: u64 = 16;

/// Returns whether the events are equal, in the same order.
pub(crate) fn are_same_events(one: &[Event], other: &[Event]) -> bool
    ensures { IsTrue result → map event_of one.now ≡ map event_of other.now }
{
    if one.len() != other.len() {
        return false;
    }
    for i in 0..one.len() {
        if !one[i].is_same(&other[i]) {
            return false;
        }
    }
    true
}

/// Takes out a block, if it is of the label, and has the same bytes in both.
fn remove_same_base(blocks: &mut BlocksNow, base: Base, label: u64, one: &Blocks, other: &Blocks)
    ensures { (b : values.Base) → LosesSame label (bytes_at (blocks_of one.now.entries))
        (bytes_at (blocks_of other.now.entries)) (block_now blocks.old.entries)
        (block_now blocks.new.entries) b }
{
    if base.label == label && bytes_of(one, base) == bytes_of(other, base) {
        blocks.swap_remove(&base);
    }
}

/// Takes out the block that a value lies in, if it is of the label, and has the same bytes in both.
fn remove_same_value(
    blocks: &mut BlocksNow,
    value: &Value,
    label: u64,
    one: &Blocks,
    other: &Blocks,
)
    ensures { (b : values.Base) → LosesSame label (bytes_at (blocks_of one.now.entries))
        (bytes_at (blocks_of other.now.entries)) (block_now blocks.old.entries)
        (block_now blocks.new.entries) b }
{
    match value {
        Value::Number(_) => {}
        Value::Array(array) | Value::Row(array) => {
            remove_same_base(blocks, array.base, label, one, other);
        }
    }
}

/// Takes out the blocks of the label in which the events bind a value, and which have the same bytes
/// in both.
fn remove_same(blocks: &mut BlocksNow, events: &[Event], label: u64, one: &Blocks, other: &Blocks)
    ensures { (b : values.Base) → LosesSame label (bytes_at (blocks_of one.now.entries))
        (bytes_at (blocks_of other.now.entries)) (block_now blocks.old.entries)
        (block_now blocks.new.entries) b }
{
    for event in events {
        if let Event::Binds(_, value) = event {
            remove_same_value(blocks, value.as_ref(), label, one, other);
        }
    }
}

/// Whether the bytes of a block are among the others, at the same byte offsets.
fn is_found_among(base: Base, found: &FoundBytes, others: &FoundByBase) -> bool
    ensures { IsTrue result → (p : ℕ) → found_at (found_in found.now) p
        ≡ byte_found others.now.entries (base_of base) p }
{
    match others.get(&base) {
        Some(other) => found.is_same(other),
        None => false,
    }
}

/// Returns true only where another run wrote to the block at the offsets of these bytes, and at no
/// other.
fn has_same_offsets(others: &FoundByBase, base: Base, kept: &KeptBytes) -> bool
    ensures { IsTrue result → (p : ℕ) → is_some (kept_at kept.now p)
        ≡ is_some (byte_found others.now.entries (base_of base) p) }
{
    match others.get(&base) {
        Some(other) => other.has_offsets_of(kept),
        None => false,
    }
}

/// Returns true only where the change has single bytes of a block at the offsets of these alone.
pub(crate) fn has_no_more(parts: &PartsNow, base: Base, kept: &KeptBytes) -> bool
    ensures { IsTrue result → (p : ℕ) → kept_at kept.now p ≡ None
        → part_now parts.now.entries (base_of base) p ≡ None }
{
    match parts.get(&base) {
        Some(part) => part.as_ref().has_offsets_of(kept),
        None => true,
    }
}

/// Notes the bytes that a block has now at the offsets of these, in place of those that are noted.
pub(crate) fn note_part(
    parts: &mut PartsNow,
    base: Base,
    kept: &KeptBytes,
    session: &Session,
) -> Result<(), OutOfMemory>
    ensures { OnOk result ((b : values.Base) (p : ℕ) → part_now parts.new.entries b p
        ≡ (if values.same_base b (base_of base) then (if is_some (kept_at kept.now p)
        then Some (slice_index ((live session.now).bytes (base_of base)) p) else None)
        else part_now parts.old.entries b p)) }
{
    let alloc = session.allocator();
    let block = session.share(base)?;
    let now = kept.reread(alloc, shared_bytes(&block))?;
    let shared = Rc::new(alloc, now)?;
    parts.insert(base, shared)?;
    Ok(())
}

/// Notes the bytes that a block has now where two runs wrote, and returns whether it could: both
/// wrote in the same few rows, and the change has single bytes of the block in these alone.
fn note_few(
    parts: &mut PartsNow,
    base: Base,
    found: &FoundBytes,
    others: &FoundByBase,
    session: &Session,
) -> Result<bool, OutOfMemory>
    ensures bytes { OnOk result (AreBytesNoted (live session.now).bytes
        (part_now parts.old.entries) (part_now parts.new.entries)) }
    ensures here { IfOk result (λ could. IsTrue could → (p : ℕ)
        → IsBytewise ((live session.now).bytes (base_of base)) (found_at (found_in found.now))
        (byte_found others.now.entries (base_of base)) (part_now parts.old.entries (base_of base))
        (part_now parts.new.entries (base_of base)) p) }
{
    let FoundBytes::Kept(kept) = found else {
        return Ok(false);
    };
    if !kept.has_few_rows(MOST_ROWS) {
        return Ok(false);
    }
    if !has_same_offsets(others, base, kept) || !has_no_more(parts, base, kept) {
        return Ok(false);
    }
    note_part(parts, base, kept, session)?;
    Ok(true)
}

/// Notes what two runs of a cell left of a block to which one of them wrote. A block of another cell
/// to which both wrote the same bytes is out of the change, unless that has it or bytes of it.
fn note_entry(
    blocks: &mut BlocksNow,
    parts: &mut PartsNow,
    base: Base,
    found: &FoundBytes,
    others: &FoundByBase,
    label: u64,
    session: &Session,
) -> Result<(), OutOfMemory>
    ensures noted { OnOk result (IsNoted (live session.now).bytes
        (block_now blocks.old.entries) (block_now blocks.new.entries)) }
    ensures bytes { OnOk result (AreBytesNoted (live session.now).bytes
        (part_now parts.old.entries) (part_now parts.new.entries)) }
    ensures here { OnOk result ((block_now blocks.new.entries (base_of base)
        ≡ Some ((live session.now).bytes (base_of base)))
        ⊎ ((block_now blocks.old.entries (base_of base) ≡ None) × (nat_eq base.label label ≡ false)
        × ((p : ℕ) → IsBytewise ((live session.now).bytes (base_of base))
        (found_at (found_in found.now)) (byte_found others.now.entries (base_of base))
        (part_now parts.old.entries (base_of base)) (part_now parts.new.entries (base_of base)) p))) }
{
    if base.label == label || blocks.contains_key(&base) {
        note_base(blocks, base, session)?;
        return Ok(());
    }
    if !parts.contains_key(&base) && is_found_among(base, found, others) {
        return Ok(());
    }
    if note_few(parts, base, found, others, session)? {
        return Ok(());
    }
    note_base(blocks, base, session)?;
    Ok(())
}

/// Notes what two runs of a cell left of the blocks to which one of them wrote.
fn note_unlike(
    blocks: &mut BlocksNow,
    parts: &mut PartsNow,
    written: &FoundByBase,
    others: &FoundByBase,
    label: u64,
    session: &Session,
) -> Result<(), OutOfMemory>
    ensures noted { OnOk result (IsNoted (live session.now).bytes
        (block_now blocks.old.entries) (block_now blocks.new.entries)) }
    ensures bytes { OnOk result (AreBytesNoted (live session.now).bytes
        (part_now parts.old.entries) (part_now parts.new.entries)) }
    ensures all { OnOk result (All (λ e.
        (block_now blocks.new.entries (base_of e.0) ≡ Some ((live session.now).bytes (base_of e.0)))
        ⊎ ((block_now blocks.old.entries (base_of e.0) ≡ None) × (nat_eq e.0.label label ≡ false)
        × ((p : ℕ) → IsBytewise ((live session.now).bytes (base_of e.0)) (found_at (found_in e.1))
        (byte_found others.now.entries (base_of e.0)) (part_now parts.old.entries (base_of e.0))
        (part_now parts.new.entries (base_of e.0)) p))) written.now.entries) }
{
    for i in 0..written.len() {
        let Some((base, found)) = written.get_index(i) else {
            unreachable!();
        };
        note_entry(blocks, parts, *base, found, others, label, session)?;
    }
    Ok(())
}

impl Change {
    /// Goes past a cell that was run again, where both runs bound the same names to the same values:
    /// these names leave the change. So do the blocks that both made with the same bytes. Of a block
    /// of another cell to which both wrote in the same few rows, these bytes alone are noted.
    ///
    /// Behind `x = np.arange(3)` that became `x = np.arange(3) + 1` the change has the block of `x`,
    /// and not the name.
    pub(crate) fn follow_alike(
        &mut self,
        old: &Changes,
        new: &Changes,
        session: &Session,
    ) -> Result<(), OutOfMemory>
        requires label { old.now.label ≡ new.now.label }
        requires events { events_in old.now ≡ events_in new.now }
        ensures { OnOk result ((r q : Record) (j : running.World) → HasDone old.now r
            → HasDone new.now q → Follows (change_of self.old) (change_of self.new) r q
            (model.collected (running.session_of (live session.now))) j) }
    {
        remove_names(&mut self.names, &new.events);
        note_own(&mut self.blocks, &new.events, new.label, session)?;
        remove_same(
            &mut self.blocks,
            &new.events,
            new.label,
            &old.blocks,
            &new.blocks,
        );
        remove_own(&mut self.parts, &new.events, new.label);
        note_unlike(
            &mut self.blocks,
            &mut self.parts,
            &old.written,
            &new.written,
            new.label,
            session,
        )?;
        note_unlike(
            &mut self.blocks,
            &mut self.parts,
            &new.written,
            &old.written,
            new.label,
            session,
        )?;
        Ok(())
    }
}
