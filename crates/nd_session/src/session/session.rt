//! `Session`: the names and blocks between two cells, with a trace of the running one.

ghost use Rattle.std.specs.Prelude.{◌≡◌, ◌+◌, ◌<◌, ◌≤◌, ◌^◌, [], IfOk, IsFalse, IsTrue, OnErr, OnOk, ◌↔◌, option_map, string_bytes};
ghost use Rattle.std.specs.List.{All, flat_map};
ghost use Rattle.nd_model.specs.Cells.Session as model;
ghost use Rattle.nd_model.specs.Cells.Running as running;
ghost use Rattle.nd_model.specs.Cells.Footprint.{HasNone, replayed};
ghost use Rattle.nd_model.specs.Book.Sessions.{IsOnce};
ghost use Rattle.nd_change.specs.Whole.{IsPut};
ghost use Rattle.nd_session.specs.Session.Change.{whole_in};
ghost use Rattle.nd_session.specs.Session.Changes.{changed, going_on};
ghost use Rattle.nd_model.specs.Cells.Sound.{IsHeldView, IsSound, IsViewOf};
ghost use Rattle.nd_model.specs.Arrays.View.{item_size, byte_places, element_places};
ghost use Rattle.nd_types.specs.Types.{type_of};
ghost use Rattle.nd_heap.specs.Contents.{bytes_in};
ghost use Rattle.nd_heap.specs.Values.{base_of, geo_of, value_of};
ghost use Rattle.nd_session.specs.Session.Live.{live, own_collected};
ghost use Rattle.nd_reach.specs.Reach.{IsSameInReach};
ghost use Rattle.std.proofs.Common.{Global as Allocator};
ghost use Rattle.nd_session.specs.Session.Kept.{thawed, version_of};
ghost use Rattle.nd_session.specs.Session.Listed.{seen_of};
ghost use Rattle.nd_model.specs.Cells.Storing.{having_written, having_block};

use crate::session::change::{Change, is_done, next_now, put_over};
use crate::session::changes::Changes;
use crate::session::redo::redo;
use crate::session::version::Version;
use nd_block::RawBlock;
use nd_heap::{Array, Base, BlockWriter, Heap, OutOfMemory, Value};
use nd_places::PlaceList;
use nd_trace::{Event, Trace};
use nd_types::ElemType;
use std::alloc::Global;
use std::marker::Model;
use std::mem::replace;
use std::rc::{Rc, RcStr};

/// How many bytes of blocks are worth a look at a name.
const LOAD_OF_A_NAME: usize = 256;

/// The least number of names that is reckoned with: a session of few names is collected once 1 MiB of
/// blocks is due.
const FEW_NAMES: usize = 4096;

/// Names and blocks while a cell runs, with what the cell has read and done.
///
/// They are shared with snapshots: the first write after one copies what it changes. A call that is
/// refused for want of memory leaves names, bytes and trace as they were, but for those that say
/// otherwise.
#[derive(Drop)]
pub struct Session {
    pub(crate) heap: Heap,
    trace: Trace,
    pub(crate) next: u64,
    load: usize,
    alloc: Global,
}

impl Model for Session {
    ghost use Rattle.nd_session.specs.Session.State.{State};

    ghost Value = { State };

    ghost use Rattle.nd_session.specs.Session.Fields.{state_of};

    ghost view = { state_of };

    ghost use Rattle.nd_session.specs.Session.Intact.{IsIntact};

    ghost invariant = { IsIntact };
}

/// Returns an equal value, if there is one.
fn copy_found(found: Option<&Value>) -> Result<Option<Value>, OutOfMemory>
    ensures { IfOk result (λ o. option_map value_of o
        ≡ option_map (λ v. value_of v.now) found.entry) }
{
    match found {
        Some(value) => Ok(Some(value.try_clone()?)),
        None => Ok(None),
    }
}

impl Session {
    /// Returns a session without names, as a cell of label 0 begins. It takes no memory.
    pub fn new(alloc: Global) -> Session
        ensures { live result ≡ running.start 0 model.no_session }
    {
        Session {
            heap: Heap::new(alloc),
            trace: Trace::new(alloc, 0),
            next: 0,
            load: 0,
            alloc,
        }
    }

    /// Returns the allocator of the session. To a clause all values of `Global` are one.
    pub fn allocator(&self) -> Global
        ensures { (alloc : Allocator) → result ≡ alloc }
    {
        self.alloc
    }

    /// Begins a cell of this label: nothing is read or done. Blocks that no bound value lies in are
    /// freed. No name and no byte is copied, and no memory is taken.
    pub fn start(&mut self, label: u64)
        requires { HasNone label (running.session_of (live self.old)) }
        ensures { live self.new ≡ running.start label (running.session_of (live self.old)) }
    {
        self.heap.collect();
        let seen = replace(&mut self.trace, Trace::new(self.alloc, label));
        drop(seen);
        self.next = 0;
        self.load = 0;
    }

    /// proof: each array that a name is bound to lies in its block.
    #[tactic(auto, unfolding(crate::specs::Session::Live::live))]
    pub fn soundness(&self)
        ensures { IsSound (live self.now) }
    {
        let _ = &self.next;
    }

    /// Returns the bytes of a block, none where there is no such block. It notes nothing:
    /// `mark_used`, `mark_element` and `mark_used_elements` do.
    #[tactic(auto, unfolding(crate::specs::Session::Live::live))]
    pub fn bytes(&self, base: Base) -> &[u8]
        ensures { result.now ≡ (live self.now).bytes (base_of base) }
    {
        self.heap.bytes(base)
    }

    /// Returns a block, shared, so that it may be read while another is written. It notes nothing.
    /// While it is shared, a write to it copies it first.
    #[tactic(auto, unfolding(crate::specs::Session::Live::live))]
    pub fn share(&self, base: Base) -> Result<Option<Rc<RawBlock>>, OutOfMemory>
        ensures { IfOk result (λ o. bytes_in o ≡ (live self.now).bytes (base_of base)) }
    {
        self.heap.share_block(base)
    }

    /// Returns the bytes of a block that some bound value lies in, none where there is no such
    /// block. It notes nothing.
    #[tactic(auto, unfolding(crate::specs::Session::Live::live))]
    pub fn held_bytes(&self, base: Base) -> &[u8]
        ensures { result.now
            ≡ model.held_bytes (running.session_of (live self.now)) (base_of base) }
    {
        self.heap.held_bytes(base)
    }

    /// Returns whether some bound value lies in a block that a cell of this label made.
    #[tactic(auto, unfolding(crate::specs::Session::Live::live))]
    pub fn has_label(&self, label: u64) -> bool
        ensures { IsFalse result ↔ HasNone label (running.session_of (live self.now)) }
    {
        self.heap.is_label_held(label)
    }

    /// Returns the value of a name, and notes that it was looked up, unless the cell itself bound or
    /// unbound it before.
    ///
    /// After `x = 1` in the running cell, `lookup("x")` is the number 1, and nothing is noted.
    pub fn lookup(&mut self, name: &str) -> Result<Option<Value>, OutOfMemory>
        ensures value { IfOk result (λ o. option_map value_of o
            ≡ model.lookup name.now (live self.old).names) }
        ensures after { OnOk result (live self.new
            ≡ running.after (running.Lookup name.now) (live self.old)) }
        ensures err { OnErr result (live self.new ≡ live self.old) }
    {
        let value = copy_found(self.heap.find(name))?;
        self.trace.note_lookup(self.alloc, name, value.as_ref())?;
        Ok(value)
    }

    /// Notes that an input is asked for.
    pub fn ask(&mut self, name: &str) -> Result<(), OutOfMemory>
        ensures after { OnOk result (live self.new
            ≡ running.after (running.Ask name.now) (live self.old)) }
        ensures err { OnErr result (live self.new ≡ live self.old) }
    {
        self.trace.note_input(self.alloc, name)?;
        Ok(())
    }

    /// Notes that all elements of an array are read, whose bytes `bytes` then gives.
    pub fn mark_used(&mut self, array: &Array) -> Result<(), OutOfMemory>
        ensures after { OnOk result (live self.new
            ≡ running.after (running.Use (base_of array.now.base) (byte_places (geo_of array.now)))
            (live self.old)) }
        ensures err { OnErr result (live self.new ≡ live self.old) }
    {
        self.trace.note_view(self.alloc, array)?;
        Ok(())
    }

    /// Notes that the element at byte offset `place` is read: of an `int32` at 8, the bytes 8 to 11.
    pub fn mark_element(
        &mut self,
        base: Base,
        place: u64,
        elem: &ElemType,
    ) -> Result<(), OutOfMemory>
        requires { place + item_size (type_of elem.now) ≤ 2 ^ 64 }
        ensures after { OnOk result (live self.new
            ≡ running.after (running.Use (base_of base) (element_places (type_of elem.now) place))
            (live self.old)) }
        ensures err { OnErr result (live self.new ≡ live self.old) }
    {
        self.trace.note_element(self.alloc, base, place, elem)?;
        Ok(())
    }

    /// Notes that the elements at these byte offsets are read.
    pub fn mark_used_elements(
        &mut self,
        base: Base,
        elem: &ElemType,
        places: &PlaceList,
    ) -> Result<(), OutOfMemory>
        requires ends { All (λ p. p + item_size (type_of elem.now) ≤ 2 ^ 64) places.now }
        ensures after { OnOk result (live self.new ≡ running.after (running.Use (base_of base)
            (flat_map (element_places (type_of elem.now)) places.now)) (live self.old)) }
        ensures err { OnErr result (live self.new ≡ live self.old) }
    {
        self.trace.note_elements(self.alloc, base, elem, places)?;
        Ok(())
    }

    /// Notes that all elements of an array are written.
    pub fn mark_written(&mut self, array: &Array) -> Result<(), OutOfMemory>
        ensures after { OnOk result (live self.new
            ≡ having_written (base_of array.now.base) (byte_places (geo_of array.now))
            (live self.old)) }
        ensures err { OnErr result (live self.new ≡ live self.old) }
    {
        self.trace.write_view(self.alloc, array)?;
        Ok(())
    }

    /// Notes that the element at byte offset `place` is written.
    pub fn mark_written_element(
        &mut self,
        base: Base,
        place: u64,
        elem: &ElemType,
    ) -> Result<(), OutOfMemory>
        requires { place + item_size (type_of elem.now) ≤ 2 ^ 64 }
        ensures after { OnOk result (live self.new
            ≡ having_written (base_of base) (element_places (type_of elem.now) place)
            (live self.old)) }
        ensures err { OnErr result (live self.new ≡ live self.old) }
    {
        self.trace.write_element(self.alloc, base, place, elem)?;
        Ok(())
    }

    /// Notes that the elements at these byte offsets are written.
    pub fn mark_written_elements(
        &mut self,
        base: Base,
        elem: &ElemType,
        places: &PlaceList,
    ) -> Result<(), OutOfMemory>
        requires ends { All (λ p. p + item_size (type_of elem.now) ≤ 2 ^ 64) places.now }
        ensures after { OnOk result (live self.new ≡ having_written (base_of base)
            (flat_map (element_places (type_of elem.now)) places.now) (live self.old)) }
        ensures err { OnErr result (live self.new ≡ live self.old) }
    {
        self.trace.write_elements(self.alloc, base, elem, places)?;
        Ok(())
    }

    /// Writes to a block, which is copied first where a snapshot shares it. It notes nothing:
    /// `mark_written`, `mark_written_element` and `mark_written_elements` do.
    ///
    /// By the law `stores_by_parts` the two calls are one store, where the bytes written are those
    /// noted. `x[1] = 5`, over `int64`s, notes the element at byte offset 8, and writes its bytes.
    #[tactic(auto, unfolding(crate::specs::Session::Live::live))]
    pub fn write<W: BlockWriter + Drop>(&mut self, base: Base, writer: W) -> Result<(), OutOfMemory>
        ensures after { OnOk result (live self.new ≡ having_block (base_of base)
            (W.written writer ((live self.old).bytes (base_of base))) (live self.old)) }
        ensures err { OnErr result (live self.new ≡ live self.old) }
    {
        self.heap.write(base, writer)?;
        Ok(())
    }

    /// Adds a block, whose base is the running cell's label and the next number: the first two of the
    /// cell of label 7 have the bases (7, 0) and (7, 1).
    #[tactic(auto, unfolding(crate::specs::Session::Live::live))]
    pub fn new_block(&mut self, block: RawBlock) -> Result<Base, OutOfMemory>
        requires { (live self.old).next + 1 < 2 ^ 64 }
        ensures base { IfOk result (λ b. base_of b
            ≡ record { label = (live self.old).label; number = (live self.old).next }) }
        ensures after { OnOk result (live self.new
            ≡ running.after (running.Make block) (live self.old)) }
        ensures err { OnErr result (live self.new ≡ live self.old) }
    {
        let base = self.next_base();
        let made = block.len();
        let shared = Rc::new(self.alloc, block)?;
        self.heap.put_block(base, shared)?;
        self.next += 1;
        self.load = self.load.saturating_add(made);
        Ok(base)
    }

    /// Binds a name: a bound one keeps its position, a new one goes last. After `bind` of `x`, of `y`
    /// and of `x` again, the names are `x` and `y`, in this order.
    #[tactic(auto, unfolding(crate::specs::Session::Live::live))]
    pub fn bind(&mut self, name: String, value: Value) -> Result<(), OutOfMemory>
        requires { IsViewOf (IsHeldView (live self.old)) (value_of value) }
        ensures after { OnOk result (live self.new
            ≡ running.done (running.Binding (string_bytes name) (value_of value)) (live self.old)) }
        ensures err { OnErr result (live self.new ≡ live self.old) }
    {
        let lost = self.weight(name.as_str());
        let bound = RcStr::from_string(name)?;
        let kept = Rc::new(self.alloc, value)?;
        let entry = bound.clone()?;
        let event = Event::Binds(bound.clone()?, kept.clone()?);
        self.trace.reserve_event()?;
        self.heap.bind(entry, kept)?;
        self.trace.note_event(bound, event);
        self.load = self.load.saturating_add(lost);
        Ok(())
    }

    /// Unbinds a name.
    #[tactic(auto, unfolding(crate::specs::Session::Live::live))]
    pub fn unbind(&mut self, name: &str) -> Result<(), OutOfMemory>
        ensures after { OnOk result (live self.new
            ≡ running.done (running.Unbinding name.now) (live self.old)) }
        ensures err { OnErr result (live self.new ≡ live self.old) }
    {
        let lost = self.weight(name);
        let unbound = RcStr::from_str(self.alloc, name)?;
        let event = Event::Unbinds(unbound.clone()?);
        self.trace.reserve_event()?;
        self.heap.unbind(name)?;
        self.trace.note_event(unbound, event);
        self.load = self.load.saturating_add(lost);
        Ok(())
    }

    /// How many bytes the block has that the value of a name lies in.
    fn weight(&self, name: &str) -> usize {
        match self.heap.find(name) {
            Some(Value::Array(array) | Value::Row(array)) => self.heap.bytes(array.base).len(),
            _ => 0,
        }
    }

    /// Gives up the blocks that the running cell made and no bound value lies in.
    #[tactic(auto, unfolding(crate::specs::Session::Live::live))]
    fn collect_own(&mut self) -> Result<(), OutOfMemory>
        ensures ok { OnOk result (live self.new ≡ own_collected (live self.old)) }
        ensures err { OnErr result (live self.new ≡ live self.old) }
    {
        self.heap.collect_label(self.trace.label())?;
        self.load = 0;
        Ok(())
    }

    /// Merges the layers of names and blocks, where they are very many.
    #[tactic(auto, unfolding(crate::specs::Session::Live::live))]
    fn settle(&mut self) -> Result<(), OutOfMemory>
        ensures { live self.new ≡ live self.old }
    {
        self.heap.settle()?;
        Ok(())
    }

    /// Merges the layers of names and blocks, where they are many for a session that is kept and thawed
    /// once for each cell. Both then cost less.
    #[tactic(auto, unfolding(crate::specs::Session::Live::live))]
    pub fn settle_early(&mut self) -> Result<(), OutOfMemory>
        ensures { live self.new ≡ live self.old }
    {
        self.heap.settle_early()?;
        Ok(())
    }

    /// Gives up blocks that the running cell made and no bound value lies in, once many bytes were
    /// made, or let go by names, since the last time. So a statement looks at few names, on average.
    ///
    /// After `x = x + 1` in the running cell, which made the first block of `x` too, it may give up
    /// that block. Of a view that another name has it gives up nothing.
    pub fn collect_due(&mut self) -> Result<(), OutOfMemory>
        ensures ok { OnOk result (IsSameInReach (live self.old) (live self.new)) }
        ensures err { OnErr result (live self.new ≡ live self.old) }
    {
        self.settle()?;
        if self.load / LOAD_OF_A_NAME <= self.heap.count().max(FEW_NAMES) {
            return Ok(());
        }
        self.collect_own()
    }

    /// Returns the value of a name. It notes nothing.
    #[tactic(auto, unfolding(crate::specs::Session::Live::live))]
    pub fn peek(&self, name: &str) -> Option<&Value>
        ensures { option_map (λ v. value_of v.now) result
            ≡ model.lookup name.now (live self.now).names }
    {
        self.heap.find(name)
    }

    /// Returns the number that the next new block gets.
    #[tactic(auto, unfolding(crate::specs::Session::Live::live))]
    pub fn next_number(&self) -> u64
        ensures { result ≡ (live self.now).next }
    {
        self.next_base().number
    }

    /// Sets the number that the next new block gets.
    #[tactic(auto, unfolding(crate::specs::Session::Live::live))]
    pub fn skip_to(&mut self, number: u64)
        requires { (live self.old).next ≤ number }
        ensures { live self.new ≡ record (live self.old) { next = number } }
    {
        self.next = number;
    }

    /// Returns what the running cell has read and done.
    pub fn seen(&self) -> &Trace
        ensures { result.now ≡ seen_of self.now }
    {
        &self.trace
    }

    /// The base of the next new block.
    #[tactic(auto, unfolding(crate::specs::Session::Live::live))]
    fn next_base(&self) -> Base
        ensures { base_of result
            ≡ record { label = (live self.now).label; number = (live self.now).next } }
    {
        Base {
            label: self.trace.label(),
            number: self.next,
        }
    }

    /// Returns the session of a snapshot: the cell of its label goes on from its next number, and has
    /// read and done nothing since. It takes no memory.
    pub fn resume(alloc: Global, version: Version) -> Session
        ensures { live result ≡ thawed version }
    {
        Session {
            heap: version.heap,
            trace: Trace::new(alloc, version.label),
            next: version.next,
            load: 0,
            alloc,
        }
    }

    /// Returns a session at a snapshot, as `resume` does, and keeps the snapshot. No name and no
    /// byte is copied.
    pub fn thaw(alloc: Global, version: &Version) -> Result<Session, OutOfMemory>
        ensures { IfOk result (λ s. live s ≡ thawed version.now) }
    {
        let version = version.try_clone()?;
        Ok(Session::resume(alloc, version))
    }

    /// Returns a snapshot of names and blocks, without blocks that no bound value lies in. No name
    /// and no byte is copied.
    ///
    /// What is bound and written afterwards is not in the snapshot, and `thaw` gives a session as
    /// this one was.
    pub fn freeze(&self) -> Result<Version, OutOfMemory>
        ensures session { IfOk result (λ v. version_of v
            ≡ model.collected (running.session_of (live self.now))) }
        ensures label { IfOk result (λ v. v.label ≡ (live self.now).label) }
        ensures next { IfOk result (λ v. v.next ≡ (live self.now).next) }
    {
        let Base { label, number } = self.next_base();
        let heap = self.heap.try_collected()?;
        Ok(Version {
            heap,
            label,
            next: number,
        })
    }

    /// proof: no name stands twice.
    #[tactic(auto, unfolding(crate::specs::Session::Live::live))]
    pub fn distinctness(&self)
        ensures { IsOnce (live self.now).names }
    {
        self.heap.distinctness();
    }

    /// Puts names and blocks of a change over those of the session, and returns whether it could. It
    /// notes nothing. Where it could not, and after want of memory, the session may only be dropped.
    #[tactic(auto, unfolding(crate::specs::Session::Live::live))]
    pub(crate) fn put_over(&mut self, change: &Change) -> Result<bool, OutOfMemory>
        ensures put { IfOk result (λ could. IsTrue could → IsPut (whole_in change.now)
            (model.collected (running.session_of (live self.old)))
            (model.collected (running.session_of (live self.new)))) }
        ensures once { IfOk result (λ could. IsTrue could → IsOnce (live self.new).names) }
    {
        let nothing = Heap::new(self.alloc);
        let mut heap = replace(&mut self.heap, nothing);
        let label = self.trace.label();
        let next = next_now(&change.names, label, self.next);
        let done = put_over(self.alloc, &mut heap, change, label, self.next, next);
        if !is_done(&done) {
            drop(heap);
            return done;
        }
        heap.distinctness();
        self.next = next;
        let nothing = replace(&mut self.heap, heap);
        drop(nothing);
        Ok(true)
    }

    /// Makes the changes of a cell: its names, its blocks, which are shared, and the bytes that it
    /// wrote. The session then is that of the cell, which has read nothing.
    ///
    /// The changes of `x[0] = 5` set this element alone, whatever `x` has elsewhere. After want of
    /// memory the session may only be dropped.
    #[tactic(auto, unfolding(crate::specs::Session::Live::live))]
    pub fn redo(&mut self, changes: &Changes) -> Result<(), OutOfMemory>
        requires none { HasNone changes.now.label (running.session_of (live self.old)) }
        requires sound { IsSound (going_on changes.now (running.session_of (live self.old))) }
        ensures names { OnOk result ((live self.new).names
            ≡ replayed changes.now.events (live self.old).names) }
        ensures session { OnOk result (model.collected (running.session_of (live self.new))
            ≡ changed changes.now (running.session_of (live self.old))) }
        ensures cell { OnOk result (record (live self.new) { names = []; bytes = λ b. [] }
            ≡ record (running.start changes.now.label model.no_session) { next = changes.now.next }) }
    {
        match redo(&mut self.heap, changes) {
            Ok(()) => {}
            Err(memory) => {
                let lost = replace(&mut self.heap, Heap::new(self.alloc));
                drop(lost);
                return Err(memory);
            }
        }
        let seen = replace(&mut self.trace, Trace::new(self.alloc, changes.label));
        drop(seen);
        self.next = changes.next;
        Ok(())
    }
}
