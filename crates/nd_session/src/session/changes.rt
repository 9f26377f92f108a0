//! `Changes`: what a cell did to its session, kept for its replay.

ghost use Rattle.std.specs.Prelude.{◌≡◌, ℕ, [], true, nat_eq, map, filter, if◌then◌else◌, slice_index, IfOk, IsTrue, None, Some, unwrap_or, ◌<◌, IsFalse, length, slice_get, option_map};
ghost use Rattle.nd_model.specs.Cells.Footprint.{effects_of, replayed};
ghost use Rattle.nd_model.specs.Cells.Session as model;
ghost use Rattle.nd_model.specs.Arrays.Value as values;
ghost use Rattle.nd_session.specs.Session.Changes.{bases_in, ended, events_in, is_bound, writes_in};
ghost use Rattle.nd_session.specs.Session.Fields.{effects_over};
ghost use Rattle.nd_session.specs.Session.Found.{byte_found};
ghost use Rattle.nd_heap.specs.Contents.{bases_of};
ghost use Rattle.nd_heap.specs.Values.{base_of};
ghost use Rattle.nd_trace.specs.Contents.{marks_of};
ghost use Rattle.nd_trace.specs.Events.{event_of};
ghost use Rattle.nd_heap.specs.Live.{bytes_at, is_base_among};
ghost use Rattle.nd_trace.specs.Marked.{is_marked};
ghost use Rattle.nd_session.specs.Session.Live.{live};

use crate::session::found::{FoundByBase, note_bytes};
use crate::session::redo::replay;
use crate::session::session::Session;
use indexmap::IndexMap;
use nd_heap::{Base, Bases, Blocks, Heap, OutOfMemory};
use nd_trace::{Event, Footprint, Trace};
use std::alloc::Global;
use std::marker::Model;

/// What a cell did to its session: names bound and unbound, blocks that it made and a name still
/// holds, and bytes written to blocks of other cells.
///
/// Names, values and its own blocks are shared with the session. So is a block of another cell,
/// unless the bytes that were written to it are few: then they are kept alone.
///
/// Of `x[0] += 1`, `t = 2`, over an `x` of another cell with 100 elements, they are the bytes of one
/// element, and `t`.
#[derive(Drop)]
pub struct Changes {
    pub(crate) label: u64,
    pub(crate) next: u64,
    pub(crate) events: Vec<Event>,
    pub(crate) written: FoundByBase,
    pub(crate) blocks: Blocks,
}

impl Model for Changes {
    ghost use Rattle.nd_session.specs.Session.Changes.{ChangesData};

    ghost Value = { ChangesData };

    ghost use Rattle.std.specs.Prelude.{map};
    ghost use Rattle.nd_heap.specs.Contents.{blocks_of};
    ghost use Rattle.nd_session.specs.Session.Found.{by_base, bytes_of};
    ghost use Rattle.nd_trace.specs.Events.{event_of};

    ghost view = { λ c. record {
      label = c.label;
      next = c.next;
      events = map event_of c.events.items;
      written = by_base bytes_of c.written.entries;
      blocks = blocks_of c.blocks.entries;
    } };
}

/// Returns equal events, which share names and values.
fn copy_events(alloc: Global, events: &[Event]) -> Result<Vec<Event>, OutOfMemory>
    ensures { IfOk result (λ v. map event_of v.items ≡ map event_of events.now) }
{
    let mut copy = Vec::new(alloc);
    for event in events {
        let same = event.try_clone()?;
        copy.push(same)?;
    }
    Ok(copy)
}

/// Keeps only the blocks of this label.
fn retain_own(bases: &mut Bases, label: u64)
    ensures { bases.new.entries ≡ filter (λ e. nat_eq e.0.label label) bases.old.entries }
{
    bases.retain(
        |base: &Base, _unit: &mut ()| -> bool
            ensures { (result ≡ nat_eq base.now.label label) × (_unit.new ≡ _unit.old) }
        { base.label == label },
    );
}

/// Does the events, and returns the blocks that some name then holds.
fn held_behind(heap: &mut Heap, events: &[Event]) -> Result<Bases, OutOfMemory>
    ensures { IfOk result (λ held. (b : values.Base) → is_base_among (bases_of held.entries) b
        ≡ model.is_held b (replayed (map event_of events.now) heap.old.names)) }
{
    replay(heap, events)?;
    heap.held_bases()
}

/// The blocks of this label that some name holds after the events alone.
fn own_bases(alloc: Global, label: u64, events: &[Event]) -> Result<Bases, OutOfMemory>
    ensures { IfOk result (λ own. (b : values.Base) → nat_eq b.label label ≡ true
        → is_base_among (bases_of own.entries) b
        ≡ model.is_held b (replayed (map event_of events.now) [])) }
{
    let mut heap = Heap::new(alloc);
    let held = held_behind(&mut heap, events);
    drop(heap);
    let mut own = held?;
    retain_own(&mut own, label);
    Ok(own)
}

/// The bytes that were written to blocks of other labels.
fn find_written(
    alloc: Global,
    marked: &Footprint,
    heap: &Heap,
    label: u64,
) -> Result<FoundByBase, OutOfMemory>
    ensures { IfOk result (λ w. (b : values.Base) (p : ℕ)
        → byte_found w.entries b p ≡ (if nat_eq b.label label then None
        else (if is_marked (marks_of marked.now.entries) b p
        then Some (slice_index (bytes_at heap.now.blocks b) p) else None))) }
{
    let mut written = IndexMap::new(alloc);
    for i in 0..marked.len() {
        let Some((base, marks)) = marked.get_index(i) else {
            unreachable!();
        };
        if base.label != label {
            let block = heap.share_block(*base)?;
            note_bytes(alloc, &mut written, *base, marks, block)?;
        }
    }
    Ok(written)
}

/// What a trace did over the blocks of a session.
fn keep(alloc: Global, trace: &Trace, heap: &Heap, next: u64) -> Result<Changes, OutOfMemory>
    ensures label { IfOk result (λ c. c.label ≡ trace.now.label) }
    ensures next { IfOk result (λ c. c.next ≡ next) }
    ensures events { IfOk result (λ c. events_in c ≡ trace.now.events) }
    ensures bases { IfOk result (λ c. (b : values.Base) → bases_in c b
        ≡ (effects_over trace.now heap.now.blocks).bases b) }
    ensures writes { IfOk result (λ c. (b : values.Base) (p : ℕ) → writes_in c b p
        ≡ (effects_over trace.now heap.now.blocks).writes b p) }
{
    let label = trace.label();
    let done = trace.events();
    let own = own_bases(alloc, label, done)?;
    let picked = heap.pick_blocks(alloc, &own);
    drop(own);
    let blocks = picked?;
    let events = match copy_events(alloc, done) {
        Ok(events) => events,
        Err(memory) => {
            drop(blocks);
            return Err(memory);
        }
    };
    match find_written(alloc, trace.written_bytes(), heap, label) {
        Ok(written) => Ok(Changes {
            label,
            next,
            events,
            written,
            blocks,
        }),
        Err(memory) => {
            drop(blocks);
            drop(events);
            Err(memory)
        }
    }
}

/// What the events last do to a name: true where they bind it, false where they unbind it, `None`
/// where they do neither.
fn last_of(events: &[Event], name: &str) -> Option<bool>
    ensures { (names : model.Names) → is_bound name.now (replayed (map event_of events.now) names)
        ≡ unwrap_or result (is_bound name.now names) }
{
    let mut last = None;
    for event in events {
        if name == event.name().as_str() {
            last = Some(event.binds());
        }
    }
    last
}

impl Changes {
    /// Returns what the running cell did to a session so far. Of a block that another cell made, the
    /// bytes that it wrote are copied where they are fewer than a quarter of it; no other byte is.
    pub fn new(alloc: Global, session: &Session) -> Result<Changes, OutOfMemory>
        ensures label { IfOk result (λ c. c.label ≡ (live session.now).label) }
        ensures next { IfOk result (λ c. c.next ≡ (live session.now).next) }
        ensures events { IfOk result (λ c. events_in c ≡ (live session.now).events) }
        ensures bases { IfOk result (λ c. (b : values.Base)
            → bases_in c b ≡ (effects_of (ended (live session.now))).bases b) }
        ensures writes { IfOk result (λ c. (b : values.Base) (p : ℕ)
            → writes_in c b p ≡ (effects_of (ended (live session.now))).writes b p) }
    {
        let changes = keep(alloc, session.seen(), &session.heap, session.next)?;
        Ok(changes)
    }

    /// Returns the label of the cell.
    pub fn label(&self) -> u64
        ensures { result ≡ self.now.label }
    {
        self.label
    }

    /// Returns what the cell last did to a name: true where it bound it, false where it unbound it,
    /// `None` where it did neither.
    pub fn last_of(&self, name: &str) -> Option<bool>
        ensures { (names : model.Names) → is_bound name.now (replayed (events_in self.now) names)
            ≡ unwrap_or result (is_bound name.now names) }
    {
        last_of(&self.events, name)
    }

    /// Returns whether the cell wrote to a block that another cell made.
    pub fn writes_to(&self, base: Base) -> bool
        ensures { IsFalse result → (p : ℕ) → writes_in self.now (base_of base) p ≡ None }
    {
        self.written.contains_key(&base)
    }

    /// Returns how many blocks of other cells the cell wrote to.
    pub fn written_count(&self) -> usize
        ensures { result ≡ length self.now.written }
    {
        self.written.len()
    }

    /// Returns one of the blocks of other cells to which the cell wrote, in the order of their first
    /// writes.
    pub fn written_at(&self, place: usize) -> Base
        requires { place < length self.now.written }
        ensures { option_map (λ e. e.0) (slice_get self.now.written place) ≡ Some (base_of result) }
    {
        let Some((base, _)) = self.written.get_index(place) else {
            unreachable!();
        };
        *base
    }
}
