//! `Change::follow`, `Change::leave` and `Change::come`: what a change becomes behind a cell that was
//! run again, is gone or is new.

ghost use Rattle.std.specs.Prelude.{◌≡◌, ℕ, IfOk, IsTrue, List, OnOk, Some, if◌then◌else◌, bytes_eq, option_map};
ghost use Rattle.std.specs.List.{All};
ghost use Rattle.std.specs.Rc.{rc_str_bytes};
ghost use Rattle.nd_change.specs.Steps.{Comes, Follows, Leaves};
ghost use Rattle.nd_heap.specs.Values.{base_of, value_of};
ghost use Rattle.nd_model.specs.Arrays.Value as values;
ghost use Rattle.nd_model.specs.Book.Records.{Record};
ghost use Rattle.nd_model.specs.Cells.Running as running;
ghost use Rattle.nd_model.specs.Cells.Session as model;
ghost use Rattle.nd_session.specs.Session.Change.{AreBytesNoted, HasDone, IsByteNow, IsCarriedPast, IsNoted, IsWrittenNow, change_of, is_bound_in};
ghost use Rattle.nd_session.specs.Session.Found.{bytes_of as found_in, found_at};
ghost use Rattle.nd_session.specs.Session.Now.{block_now, part_now, value_now};
ghost use Rattle.nd_session.specs.Session.Live.{live};
ghost use Rattle.nd_trace.specs.Events.{event_of, name_of_event};

use crate::session::change::change::{BlocksNow, Change, NamesNow, PartsNow};
use crate::session::change::matching::{MOST_ROWS, are_same_events, has_no_more, note_part};
use crate::session::changes::Changes;
use crate::session::found::{FoundByBase, FoundBytes};
use crate::session::session::Session;
use nd_heap::{Base, OutOfMemory, Value};
use nd_trace::Event;
use std::rc::{Rc, RcStr};

impl Session {
    /// Returns the value of a name, shared. It notes nothing.
    #[tactic(auto, unfolding(crate::specs::Session::Live::live))]
    fn share_value(&self, name: &str) -> Result<Option<Rc<Value>>, OutOfMemory>
        ensures { IfOk result (λ o. option_map (λ v. value_of v.value) o
            ≡ model.lookup name.now (live self.now).names) }
    {
        self.heap.share_value(name)
    }
}

/// Notes the value that a name has now.
fn note_name(names: &mut NamesNow, name: &RcStr, session: &Session) -> Result<(), OutOfMemory>
    ensures { OnOk result ((n : List ℕ) → value_now names.new.entries n
        ≡ (if bytes_eq n (rc_str_bytes name.now)
        then Some (model.lookup (rc_str_bytes name.now) (live session.now).names)
        else value_now names.old.entries n)) }
{
    let value = session.share_value(name.as_str())?;
    let key = name.clone()?;
    names.insert(key, value)?;
    Ok(())
}

/// Notes the block that a base has now.
pub(crate) fn note_base(
    blocks: &mut BlocksNow,
    base: Base,
    session: &Session,
) -> Result<(), OutOfMemory>
    ensures { OnOk result ((b : values.Base) → block_now blocks.new.entries b
        ≡ (if values.same_base b (base_of base)
        then Some ((live session.now).bytes (base_of base))
        else block_now blocks.old.entries b)) }
{
    let block = session.share(base)?;
    blocks.insert(base, block)?;
    Ok(())
}

/// Notes the names that the events bind or unbind.
fn note_names(names: &mut NamesNow, events: &[Event], session: &Session) -> Result<(), OutOfMemory>
    ensures noted { OnOk result (IsNoted (λ n. model.lookup n (live session.now).names)
        (value_now names.old.entries) (value_now names.new.entries)) }
    ensures all { OnOk result (All (λ e. value_now names.new.entries (name_of_event (event_of e))
        ≡ Some (model.lookup (name_of_event (event_of e)) (live session.now).names)) events.now) }
{
    for event in events {
        note_name(names, event.name(), session)?;
    }
    Ok(())
}

/// Notes the block of a base, if it is of the label.
fn note_own_base(
    blocks: &mut BlocksNow,
    base: Base,
    label: u64,
    session: &Session,
) -> Result<(), OutOfMemory>
    ensures noted { OnOk result (IsNoted (live session.now).bytes
        (block_now blocks.old.entries) (block_now blocks.new.entries)) }
    ensures own { OnOk result (base.label ≡ label → block_now blocks.new.entries (base_of base)
        ≡ Some ((live session.now).bytes (base_of base))) }
{
    if base.label != label {
        return Ok(());
    }
    note_base(blocks, base, session)?;
    Ok(())
}

/// Notes the block of a value, if it lies in one of the label.
fn note_value(
    blocks: &mut BlocksNow,
    value: &Value,
    label: u64,
    session: &Session,
) -> Result<(), OutOfMemory>
    ensures noted { OnOk result (IsNoted (live session.now).bytes
        (block_now blocks.old.entries) (block_now blocks.new.entries)) }
    ensures own { OnOk result ((b : values.Base) → b.label ≡ label
        → IsTrue (values.lies_in b (value_of value.now))
        → block_now blocks.new.entries b ≡ Some ((live session.now).bytes b)) }
{
    match value {
        Value::Number(_) => Ok(()),
        Value::Array(array) | Value::Row(array) => {
            note_own_base(blocks, array.base, label, session)?;
            Ok(())
        }
    }
}

/// Notes the block of a value that an event binds, if it lies in one of the label.
fn note_event(
    blocks: &mut BlocksNow,
    event: &Event,
    label: u64,
    session: &Session,
) -> Result<(), OutOfMemory>
    ensures noted { OnOk result (IsNoted (live session.now).bytes
        (block_now blocks.old.entries) (block_now blocks.new.entries)) }
    ensures own { OnOk result ((b : values.Base) → b.label ≡ label
        → IsTrue (is_bound_in b (event_of event.now))
        → block_now blocks.new.entries b ≡ Some ((live session.now).bytes b)) }
{
    match event {
        Event::Binds(_, value) => {
            note_value(blocks, value.as_ref(), label, session)?;
            Ok(())
        }
        Event::Unbinds(_) => Ok(()),
    }
}

/// Notes the blocks of a label in which the events bind a value.
pub(crate) fn note_own(
    blocks: &mut BlocksNow,
    events: &[Event],
    label: u64,
    session: &Session,
) -> Result<(), OutOfMemory>
    ensures noted { OnOk result (IsNoted (live session.now).bytes
        (block_now blocks.old.entries) (block_now blocks.new.entries)) }
    ensures all { OnOk result (All (λ e. (b : values.Base) → b.label ≡ label
        → IsTrue (is_bound_in b (event_of e))
        → block_now blocks.new.entries b ≡ Some ((live session.now).bytes b)) events.now) }
{
    for event in events {
        note_event(blocks, event, label, session)?;
    }
    Ok(())
}

/// Notes the bytes that a block has now where some were written, and returns whether it could: they
/// are few, and the change has single bytes of the block at these byte offsets alone.
fn note_single(
    parts: &mut PartsNow,
    base: Base,
    found: &FoundBytes,
    session: &Session,
) -> Result<bool, OutOfMemory>
    ensures bytes { OnOk result (AreBytesNoted (live session.now).bytes
        (part_now parts.old.entries) (part_now parts.new.entries)) }
    ensures here { IfOk result (λ could. IsTrue could → (p : ℕ)
        → IsByteNow ((live session.now).bytes (base_of base)) (found_at (found_in found.now))
        (part_now parts.new.entries (base_of base)) p) }
{
    let FoundBytes::Kept(kept) = found else {
        return Ok(false);
    };
    if !kept.has_few_rows(MOST_ROWS) || !has_no_more(parts, base, kept) {
        return Ok(false);
    }
    note_part(parts, base, kept, session)?;
    Ok(true)
}

/// Notes a block to which bytes were written: these alone, where they are few, the block is of
/// neither label, and the change has neither the block nor other bytes of it.
fn note_written_base(
    blocks: &mut BlocksNow,
    parts: &mut PartsNow,
    base: Base,
    found: &FoundBytes,
    label: u64,
    beside: u64,
    session: &Session,
) -> Result<(), OutOfMemory>
    ensures noted { OnOk result (IsNoted (live session.now).bytes
        (block_now blocks.old.entries) (block_now blocks.new.entries)) }
    ensures bytes { OnOk result (AreBytesNoted (live session.now).bytes
        (part_now parts.old.entries) (part_now parts.new.entries)) }
    ensures here { OnOk result (IsWrittenNow (live session.now).bytes label beside
        (block_now blocks.new.entries) (part_now parts.new.entries) (base_of base)
        (found_at (found_in found.now))) }
{
    if base.label == label || base.label == beside || blocks.contains_key(&base) {
        note_base(blocks, base, session)?;
        return Ok(());
    }
    if note_single(parts, base, found, session)? {
        return Ok(());
    }
    note_base(blocks, base, session)?;
    Ok(())
}

/// Notes the blocks to which bytes were written, those of neither label by single bytes where these
/// are few.
fn note_written(
    blocks: &mut BlocksNow,
    parts: &mut PartsNow,
    written: &FoundByBase,
    label: u64,
    beside: u64,
    session: &Session,
) -> Result<(), OutOfMemory>
    ensures noted { OnOk result (IsNoted (live session.now).bytes
        (block_now blocks.old.entries) (block_now blocks.new.entries)) }
    ensures bytes { OnOk result (AreBytesNoted (live session.now).bytes
        (part_now parts.old.entries) (part_now parts.new.entries)) }
    ensures all { OnOk result (All (λ e. IsWrittenNow (live session.now).bytes label beside
        (block_now blocks.new.entries) (part_now parts.new.entries) (base_of e.0)
        (found_at (found_in e.1))) written.now.entries) }
{
    for i in 0..written.len() {
        let Some((base, found)) = written.get_index(i) else {
            unreachable!();
        };
        note_written_base(blocks, parts, *base, found, label, beside, session)?;
    }
    Ok(())
}

/// Notes the blocks that a cell made or wrote to. `beside` is the label of the run in its place.
fn note_blocks(
    blocks: &mut BlocksNow,
    parts: &mut PartsNow,
    changes: &Changes,
    beside: u64,
    session: &Session,
) -> Result<(), OutOfMemory>
    ensures { OnOk result ((b : values.Base) → IsCarriedPast (live session.now).bytes changes.now
        beside (block_now blocks.old.entries) (block_now blocks.new.entries)
        (part_now parts.old.entries) (part_now parts.new.entries) b) }
{
    note_own(blocks, &changes.events, changes.label, session)?;
    note_written(
        blocks,
        parts,
        &changes.written,
        changes.label,
        beside,
        session,
    )?;
    Ok(())
}

impl Change {
    /// Goes past a cell that was run again: what its runs changed becomes what stands in the session
    /// behind the run now, and what both did alike leaves the change. Of a block of another cell to
    /// which they wrote in few rows, these bytes alone are noted.
    ///
    /// Behind `x = 1` that became `y = 2` the change has `x` as it is now, and `y` with the value 2.
    /// Behind `x = 1` that became `x = 2 - 1` it has nothing.
    pub fn follow(
        &mut self,
        old: &Changes,
        new: &Changes,
        session: &Session,
    ) -> Result<(), OutOfMemory>
        ensures { OnOk result ((r q : Record) (j : running.World) → HasDone old.now r
            → HasDone new.now q → Follows (change_of self.old) (change_of self.new) r q
            (model.collected (running.session_of (live session.now))) j) }
    {
        if old.label == new.label && are_same_events(&old.events, &new.events) {
            return self.follow_alike(old, new, session);
        }
        note_names(&mut self.names, &old.events, session)?;
        note_names(&mut self.names, &new.events, session)?;
        note_blocks(&mut self.blocks, &mut self.parts, old, new.label, session)?;
        note_blocks(&mut self.blocks, &mut self.parts, new, old.label, session)?;
        Ok(())
    }

    /// Goes past a cell that is gone: what it changed becomes what stands in the session that is in
    /// its place now. Of a block of another cell to which it wrote at few byte offsets, these bytes
    /// alone are noted.
    ///
    /// Behind a cell `x[3] = 5` that is gone it has the eight bytes of `x[3]` as they are now.
    pub fn leave(&mut self, old: &Changes, session: &Session) -> Result<(), OutOfMemory>
        ensures { OnOk result ((r : Record) → HasDone old.now r → Leaves (change_of self.old)
            (change_of self.new) r (model.collected (running.session_of (live session.now)))) }
    {
        note_names(&mut self.names, &old.events, session)?;
        note_blocks(&mut self.blocks, &mut self.parts, old, old.label, session)?;
        Ok(())
    }

    /// Goes past a cell that is new: what it changed becomes what stands in the session behind it. Of
    /// a block of another cell to which it wrote in few rows, these bytes alone are noted.
    pub fn come(&mut self, new: &Changes, session: &Session) -> Result<(), OutOfMemory>
        ensures { OnOk result ((q : Record) → HasDone new.now q → Comes (change_of self.old)
            (change_of self.new) q (model.collected (running.session_of (live session.now)))) }
    {
        note_names(&mut self.names, &new.events, session)?;
        note_blocks(&mut self.blocks, &mut self.parts, new, new.label, session)?;
        Ok(())
    }
}
