//! `Trace`: what the running cell has read and done, recorded for its replay.

ghost use Rattle.std.specs.Prelude.{◌≡◌, ℕ, ◌+◌, ◌<◌, ◌≤◌, ◌^◌, ◌&&◌, not, false, nat_eq, if◌then◌else◌, List, IfOk, IfSome, IsTrue, OnErr, OnOk, bytes_eq, map, option_map, slice_get, string_bytes};
ghost use Rattle.std.specs.List.{All, IsDistinct, flat_map};
ghost use Rattle.std.specs.Rc.{rc_str_bytes};
ghost use Rattle.indexmap.specs.IndexSet.{spare};
ghost use Rattle.nd_model.specs.Cells.Running as running;
ghost use Rattle.nd_model.specs.Cells.Session as model;
ghost use Rattle.nd_model.specs.Cells.Session.{is_in};
ghost use Rattle.nd_model.specs.Cells.Storing.{having_written};
ghost use Rattle.nd_model.specs.Arrays.Value.{same_base};
ghost use Rattle.nd_model.specs.Arrays.View.{item_size, byte_places, element_places};
ghost use Rattle.nd_types.specs.Types.{type_of};
ghost use Rattle.nd_marks.specs.Marks.{holds};
ghost use Rattle.nd_heap.specs.Live.{is_base_among};
ghost use Rattle.nd_heap.specs.Values.{base_of, geo_of, value_of};
ghost use Rattle.nd_trace.specs.Contents.{marks_of};
ghost use Rattle.nd_trace.specs.Events.{binds, event_of, name_of_event};
ghost use Rattle.nd_trace.specs.Traced.{trace_of};
ghost use Rattle.nd_trace.specs.Seen.{names_read, inputs_read, bases_read, is_used, is_written, having_event};
ghost use Rattle.nd_trace.specs.Noted.{unread_base, unread_in, with_length, with_text};

use crate::marking::{Footprint, has_mark, join, join_elements, marks_in};
use indexmap::{IndexMap, IndexSet};
use nd_heap::{Array, Base, OutOfMemory, Value};
use nd_marks::Marks;
use nd_places::PlaceList;
use nd_types::ElemType;
use std::alloc::Global;
use std::marker::Model;
use std::rc::{Rc, RcStr};

/// What a cell did to a name.
#[derive(Drop)]
pub enum Event {
    Binds(RcStr, Rc<Value>),
    Unbinds(RcStr),
}

impl Event {
    /// The name that it binds or unbinds.
    pub fn name(&self) -> &RcStr
        ensures { rc_str_bytes result.now ≡ name_of_event (event_of self.now) }
    {
        match self {
            Event::Binds(name, _) => name,
            Event::Unbinds(name) => name,
        }
    }

    /// Whether it binds its name.
    pub fn binds(&self) -> bool
        ensures { result ≡ binds (event_of self.now) }
    {
        matches!(self, Event::Binds(_, _))
    }

    /// Returns true only where both bind, or both unbind, the same name, to the same value.
    pub fn is_same(&self, other: &Event) -> bool
        ensures { IsTrue result → event_of self.now ≡ event_of other.now }
    {
        match (self, other) {
            (Event::Binds(name, value), Event::Binds(other_name, other_value)) => {
                name.as_str() == other_name.as_str() && value.as_ref().is_same(other_value.as_ref())
            }
            (Event::Unbinds(name), Event::Unbinds(other_name)) => {
                name.as_str() == other_name.as_str()
            }
            _ => false,
        }
    }

    /// Returns an equal event, which shares the name and the value.
    pub fn try_clone(&self) -> Result<Event, OutOfMemory>
        ensures { IfOk result (λ e. event_of e ≡ event_of self.now) }
    {
        match self {
            Event::Binds(name, value) => Ok(Event::Binds(name.clone()?, value.clone()?)),
            Event::Unbinds(name) => Ok(Event::Unbinds(name.clone()?)),
        }
    }
}

/// What the running cell has read and done: names looked up, inputs asked for, blocks whose length
/// it read, bytes that it used and wrote, and bindings.
///
/// Only what other cells left counts as read: no byte of a block of its own, and no name that it
/// bound or unbound before.
///
/// The cell `y = x[1:]`, `print(y + 1)`, where another bound `x`, looks up `x` alone, and reads the
/// bytes of `x[1:]`.
#[derive(Drop)]
pub struct Trace {
    label: u64,
    events: Vec<Event>,
    touched: IndexSet<RcStr>,
    written: Footprint,
    looked: IndexSet<String>,
    asked: IndexSet<String>,
    lengths: IndexSet<Base>,
    used: Footprint,
}

impl Model for Trace {
    ghost use Rattle.nd_trace.specs.Seen.{Seen};

    ghost Value = { Seen };

    ghost use Rattle.nd_trace.specs.Events.{seen_in, AreTouched};

    ghost view = { seen_in };

    ghost invariant = { AreTouched };
}

/// Adds a text to those that are noted, unless it is there already.
fn add_text(alloc: Global, texts: &mut IndexSet<String>, text: &str) -> Result<(), OutOfMemory>
    ensures ok { OnOk result (map string_bytes texts.new.keys
        ≡ with_text text.now (map string_bytes texts.old.keys)) }
    ensures err { OnErr result (map string_bytes texts.new.keys
        ≡ map string_bytes texts.old.keys) }
{
    if texts.contains(text) {
        return Ok(());
    }
    let key = String::from_str(alloc, text)?;
    texts.insert(key)?;
    Ok(())
}

/// Adds a name to those that were looked up, unless what stands there is the cell's own doing.
fn add_name(
    alloc: Global,
    looked: &mut IndexSet<String>,
    name: &str,
    is_own: bool,
) -> Result<(), OutOfMemory>
    ensures ok { OnOk result (map string_bytes looked.new.keys
        ≡ (if is_own then map string_bytes looked.old.keys
        else with_text name.now (map string_bytes looked.old.keys))) }
    ensures err { OnErr result (map string_bytes looked.new.keys
        ≡ map string_bytes looked.old.keys) }
{
    if is_own {
        return Ok(());
    }
    add_text(alloc, looked, name)?;
    Ok(())
}

/// Makes room for a block among those whose length is read, if there is one to be added.
fn make_room(lengths: &mut IndexSet<Base>, unread: Option<Base>) -> Result<(), OutOfMemory>
    ensures room { OnOk result (IfSome unread (λ b. 0 < spare lengths.new)) }
    ensures same { lengths.new.keys ≡ lengths.old.keys }
{
    if unread.is_some() {
        lengths.reserve(1)?;
    }
    Ok(())
}

/// Adds a block, if there is one, to those whose length is read. There is room for it.
fn add_length(lengths: &mut IndexSet<Base>, unread: Option<Base>)
    requires room { IfSome unread (λ b. 0 < spare lengths.old) }
    requires new { IfSome unread (λ b. is_base_among (map base_of lengths.old.keys) (base_of b)
        ≡ false) }
    ensures { map base_of lengths.new.keys
        ≡ with_length (option_map base_of unread) (map base_of lengths.old.keys) }
{
    if let Some(base) = unread {
        let Ok(_) = lengths.insert(base) else {
            unreachable!();
        };
    }
}

impl Trace {
    /// Returns the trace of a cell of this label that has read and done nothing.
    pub fn new(alloc: Global, label: u64) -> Trace
        ensures { trace_of result ≡ running.start label model.no_session }
    {
        Trace {
            label,
            events: Vec::new(alloc),
            touched: IndexSet::new(alloc),
            written: IndexMap::new(alloc),
            looked: IndexSet::new(alloc),
            asked: IndexSet::new(alloc),
            lengths: IndexSet::new(alloc),
            used: IndexMap::new(alloc),
        }
    }

    /// The running cell's label.
    pub fn label(&self) -> u64
        ensures { result ≡ self.now.label }
    {
        self.label
    }

    /// Returns the name at this position in the order in which names were first looked up, `None`
    /// past the last.
    pub fn name(&self, i: usize) -> Option<&str>
        ensures name { option_map (λ n. n.now) result ≡ slice_get (names_read self.now) i }
        ensures once { IsDistinct bytes_eq (names_read self.now) }
    {
        match self.looked.as_slice().get(i) {
            Some(name) => Some(name.as_str()),
            None => None,
        }
    }

    /// Returns the input at this position in the order in which inputs were first asked for, `None`
    /// past the last.
    pub fn input(&self, i: usize) -> Option<&str>
        ensures name { option_map (λ n. n.now) result ≡ slice_get (inputs_read self.now) i }
        ensures once { IsDistinct bytes_eq (inputs_read self.now) }
    {
        match self.asked.as_slice().get(i) {
            Some(name) => Some(name.as_str()),
            None => None,
        }
    }

    /// Returns the block at this position in the order in which lengths were first read, `None`
    /// past the last. Such blocks hold a value that was looked up, or were written; the cell's own
    /// are left out.
    pub fn base(&self, i: usize) -> Option<Base>
        ensures base { option_map base_of result ≡ slice_get (bases_read self.now) i }
        ensures once { IsDistinct same_base (bases_read self.now) }
    {
        match self.lengths.as_slice().get(i) {
            Some(base) => Some(*base),
            None => None,
        }
    }

    /// Returns the binding or unbinding at this position in their order, `None` past the last.
    pub fn event(&self, i: usize) -> Option<&Event>
        ensures { option_map (λ e. event_of e.now) result ≡ slice_get self.now.events i }
    {
        self.events.get(i)
    }

    /// Returns the bindings and unbindings in their order.
    pub fn events(&self) -> &[Event]
        ensures { map event_of result.now ≡ self.now.events }
    {
        &self.events
    }

    /// Returns whether the byte was read as another cell had left it.
    pub fn is_used(&self, base: Base, place: u64) -> bool
        ensures { result ≡ is_used self.now (base_of base) place }
    {
        has_mark(&self.used, base, place)
    }

    /// Whether the byte was written.
    pub fn is_written(&self, base: Base, place: u64) -> bool
        ensures { result ≡ is_written self.now (base_of base) place }
    {
        has_mark(&self.written, base, place)
    }

    /// The names in the order in which they were first looked up.
    pub fn names(&self) -> &[String]
        ensures { map string_bytes result.now ≡ names_read self.now }
    {
        self.looked.as_slice()
    }

    /// The inputs in the order in which they were first asked for.
    pub fn inputs(&self) -> &[String]
        ensures { map string_bytes result.now ≡ inputs_read self.now }
    {
        self.asked.as_slice()
    }

    /// Returns the blocks in the order in which their lengths were first read.
    pub fn bases(&self) -> &[Base]
        ensures { map base_of result.now ≡ bases_read self.now }
    {
        self.lengths.as_slice()
    }

    /// The bytes that were read as other cells had left them.
    pub fn used_bytes(&self) -> &Footprint
        ensures { marks_of result.now.entries ≡ self.now.used }
    {
        &self.used
    }

    /// The bytes that were written.
    pub fn written_bytes(&self) -> &Footprint
        ensures { marks_of result.now.entries ≡ self.now.written }
    {
        &self.written
    }

    /// Makes room for one more binding or unbinding, which `note_event` then notes without memory.
    pub fn reserve_event(&mut self) -> Result<(), OutOfMemory>
        ensures room { OnOk result (0 < self.new.room) }
        ensures same { trace_of self.new ≡ trace_of self.old }
        ensures label { self.new.label ≡ self.old.label }
    {
        self.events.reserve(1)?;
        self.touched.reserve(1)?;
        Ok(())
    }

    /// Notes a binding or unbinding of a name, for which there is room.
    pub fn note_event(&mut self, name: RcStr, event: Event)
        requires room { 0 < self.old.room }
        requires name { rc_str_bytes name ≡ name_of_event (event_of event) }
        ensures after { trace_of self.new ≡ having_event (event_of event) (trace_of self.old) }
        ensures label { self.new.label ≡ self.old.label }
    {
        let Ok(_) = self.touched.insert(name) else {
            unreachable!();
        };
        self.events.push_reserved(event);
    }

    /// Notes that a name is looked up, and that the length of the block is read that its value lies
    /// in.
    pub fn note_lookup(
        &mut self,
        alloc: Global,
        name: &str,
        value: Option<&Value>,
    ) -> Result<(), OutOfMemory>
        ensures after { OnOk result (trace_of self.new ≡ running.having_read
            (running.is_length_of (option_map (λ v. value_of v.now) value.entry))
            (running.having_read (running.is_name name.now) (trace_of self.old))) }
        ensures err { OnErr result (trace_of self.new ≡ trace_of self.old) }
        ensures label { self.new.label ≡ self.old.label }
    {
        let unread = self.unread_base(value);
        make_room(&mut self.lengths, unread)?;
        let is_own = self.touched.contains(name);
        add_name(alloc, &mut self.looked, name, is_own)?;
        add_length(&mut self.lengths, unread);
        Ok(())
    }

    /// Notes that an input is asked for.
    pub fn note_input(&mut self, alloc: Global, name: &str) -> Result<(), OutOfMemory>
        ensures after { OnOk result (trace_of self.new
            ≡ running.having_read (running.is_input name.now) (trace_of self.old)) }
        ensures err { OnErr result (trace_of self.new ≡ trace_of self.old) }
        ensures label { self.new.label ≡ self.old.label }
    {
        add_text(alloc, &mut self.asked, name)?;
        Ok(())
    }

    /// The block that a value lies in, where another cell made it and its length is not noted.
    fn unread_base(&self, value: Option<&Value>) -> Option<Base>
        ensures base { option_map base_of result
            ≡ unread_in self.now (option_map (λ v. value_of v.now) value.entry) }
        ensures new { IfSome result (λ b. is_base_among self.now.lengths (base_of b) ≡ false) }
    {
        match value {
            Some(Value::Array(array) | Value::Row(array)) => self.unread(array.base),
            _ => None,
        }
    }

    /// The block, where another cell made it and its length is not noted.
    fn unread(&self, base: Base) -> Option<Base>
        ensures base { option_map base_of result ≡ unread_base self.now (base_of base) }
        ensures new { IfSome result (λ b. is_base_among self.now.lengths (base_of b) ≡ false) }
    {
        if base.label == self.label || self.lengths.contains(&base) {
            None
        } else {
            Some(base)
        }
    }

    /// Adds byte offsets of a block of another cell to those that are used.
    fn use_marks(&mut self, base: Base, marks: Marks) -> Result<(), OutOfMemory>
        requires { nat_eq base.label self.old.label ≡ false }
        ensures after { OnOk result ((ps : List ℕ) → ((p : ℕ) → holds marks p
            ≡ (is_in p ps && not (is_written self.old (base_of base) p)))
            → trace_of self.new ≡ running.having_read (running.is_byte (base_of base) ps)
            (trace_of self.old)) }
        ensures err { OnErr result (trace_of self.new ≡ trace_of self.old) }
        ensures label { self.new.label ≡ self.old.label }
    {
        join(&mut self.used, base, marks)?;
        Ok(())
    }

    /// Adds byte offsets of a block to those that are written, and notes that its length is read.
    fn write_marks(&mut self, base: Base, marks: Marks) -> Result<(), OutOfMemory>
        ensures after { OnOk result ((ps : List ℕ) → ((p : ℕ) → holds marks p ≡ is_in p ps)
            → trace_of self.new ≡ having_written (base_of base) ps (trace_of self.old)) }
        ensures err { OnErr result (trace_of self.new ≡ trace_of self.old) }
        ensures label { self.new.label ≡ self.old.label }
    {
        let unread = self.unread(base);
        make_room(&mut self.lengths, unread)?;
        join(&mut self.written, base, marks)?;
        add_length(&mut self.lengths, unread);
        Ok(())
    }

    /// Notes that all elements of an array are read.
    ///
    /// Of `x[::2]`, where `x` has `int16`s from byte offset 0 on, these are the bytes 0, 1, 4, 5 and
    /// so on.
    pub fn note_view(&mut self, alloc: Global, array: &Array) -> Result<(), OutOfMemory>
        ensures after { OnOk result (trace_of self.new ≡ running.having_read
            (running.is_byte (base_of array.now.base) (byte_places (geo_of array.now)))
            (trace_of self.old)) }
        ensures err { OnErr result (trace_of self.new ≡ trace_of self.old) }
        ensures label { self.new.label ≡ self.old.label }
    {
        let base = array.base;
        if base.label == self.label {
            return Ok(());
        }
        let nothing = Marks::new(alloc);
        let written = marks_in(&self.written, base, &nothing);
        let marks = Marks::new(alloc).with_view(&array.view, written)?;
        self.use_marks(base, marks)?;
        Ok(())
    }

    /// Notes that the element at byte offset `place` is read: of an `int32` at 8, the bytes 8 to 11.
    pub fn note_element(
        &mut self,
        alloc: Global,
        base: Base,
        place: u64,
        elem: &ElemType,
    ) -> Result<(), OutOfMemory>
        requires { place + item_size (type_of elem.now) ≤ 2 ^ 64 }
        ensures after { OnOk result (trace_of self.new ≡ running.having_read
            (running.is_byte (base_of base) (element_places (type_of elem.now) place))
            (trace_of self.old)) }
        ensures err { OnErr result (trace_of self.new ≡ trace_of self.old) }
        ensures label { self.new.label ≡ self.old.label }
    {
        if base.label == self.label {
            return Ok(());
        }
        let nothing = Marks::new(alloc);
        let written = marks_in(&self.written, base, &nothing);
        let marks = Marks::new(alloc).with_element(elem, place, written)?;
        self.use_marks(base, marks)?;
        Ok(())
    }

    /// Notes that the elements at these byte offsets are read.
    pub fn note_elements(
        &mut self,
        alloc: Global,
        base: Base,
        elem: &ElemType,
        places: &PlaceList,
    ) -> Result<(), OutOfMemory>
        requires { All (λ p. p + item_size (type_of elem.now) ≤ 2 ^ 64) places.now }
        ensures after { OnOk result (trace_of self.new ≡ running.having_read
            (running.is_byte (base_of base)
            (flat_map (element_places (type_of elem.now)) places.now)) (trace_of self.old)) }
        ensures err { OnErr result (trace_of self.new ≡ trace_of self.old) }
        ensures label { self.new.label ≡ self.old.label }
    {
        if base.label == self.label {
            return Ok(());
        }
        let nothing = Marks::new(alloc);
        let written = marks_in(&self.written, base, &nothing);
        join_elements(alloc, &mut self.used, base, elem, places, written)?;
        Ok(())
    }

    /// Notes that all elements of an array are written.
    pub fn write_view(&mut self, alloc: Global, array: &Array) -> Result<(), OutOfMemory>
        ensures after { OnOk result (trace_of self.new
            ≡ having_written (base_of array.now.base) (byte_places (geo_of array.now))
            (trace_of self.old)) }
        ensures err { OnErr result (trace_of self.new ≡ trace_of self.old) }
        ensures label { self.new.label ≡ self.old.label }
    {
        let nothing = Marks::new(alloc);
        let marks = Marks::new(alloc).with_view(&array.view, &nothing)?;
        self.write_marks(array.base, marks)?;
        Ok(())
    }

    /// Notes that the element at byte offset `place` is written.
    pub fn write_element(
        &mut self,
        alloc: Global,
        base: Base,
        place: u64,
        elem: &ElemType,
    ) -> Result<(), OutOfMemory>
        requires { place + item_size (type_of elem.now) ≤ 2 ^ 64 }
        ensures after { OnOk result (trace_of self.new
            ≡ having_written (base_of base) (element_places (type_of elem.now) place)
            (trace_of self.old)) }
        ensures err { OnErr result (trace_of self.new ≡ trace_of self.old) }
        ensures label { self.new.label ≡ self.old.label }
    {
        let nothing = Marks::new(alloc);
        let marks = Marks::new(alloc).with_element(elem, place, &nothing)?;
        self.write_marks(base, marks)?;
        Ok(())
    }

    /// Notes that the elements at these byte offsets are written.
    pub fn write_elements(
        &mut self,
        alloc: Global,
        base: Base,
        elem: &ElemType,
        places: &PlaceList,
    ) -> Result<(), OutOfMemory>
        requires { All (λ p. p + item_size (type_of elem.now) ≤ 2 ^ 64) places.now }
        ensures after { OnOk result (trace_of self.new ≡ having_written (base_of base)
            (flat_map (element_places (type_of elem.now)) places.now) (trace_of self.old)) }
        ensures err { OnErr result (trace_of self.new ≡ trace_of self.old) }
        ensures label { self.new.label ≡ self.old.label }
    {
        let nothing = Marks::new(alloc);
        let unread = self.unread(base);
        make_room(&mut self.lengths, unread)?;
        join_elements(alloc, &mut self.written, base, elem, places, &nothing)?;
        add_length(&mut self.lengths, unread);
        Ok(())
    }
}
