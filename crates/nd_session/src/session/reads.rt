//! `Reads`: what a cell read, with what it found there.

ghost use Rattle.std.specs.Prelude.{◌≡◌, ◌↔◌, ℕ, Contains, IfOk, IsFalse, IsTrue, List, None, OnOk, false, is_some};
ghost use Rattle.std.specs.Prelude.{Option, Some, true, bytes_eq, if◌then◌else◌, length, map, option_map, slice_index, string_bytes};
ghost use Rattle.nd_model.specs.Cells.Footprint.{found};
ghost use Rattle.nd_model.specs.Cells.Running as running;
ghost use Rattle.nd_model.specs.Cells.Session as model;
ghost use Rattle.nd_model.specs.Arrays.Value as values;
ghost use Rattle.nd_trace.specs.Contents.{marks_of};
ghost use Rattle.nd_session.specs.Session.Kept.{version_of};
ghost use Rattle.nd_heap.specs.Live.{is_base_among};
ghost use Rattle.nd_trace.specs.Marked.{is_among, is_marked};
ghost use Rattle.nd_session.specs.Session.Live.{live};
ghost use Rattle.nd_session.specs.Session.Reading.{by_text, value_at, source_at, length_at};
ghost use Rattle.nd_session.specs.Session.Found.{by_base, byte_found, bytes_of, found_at, lookup_base, Found};
ghost use Rattle.nd_session.specs.Session.Reads.{found_in, found_of, is_read_by, keys_of};
ghost use Rattle.nd_heap.specs.Values.{base_of};
ghost use Rattle.nd_session.specs.Inputs.Values.{inputs_of, rule_of, world_of};

use crate::inputs::{CellRule, Input, Inputs, are_same_inputs, find_input};
use crate::session::changes::Changes;
use crate::session::found::{FoundByBase, note_bytes};
use crate::session::session::Session;
use crate::session::version::Version;
use indexmap::IndexMap;
use nd_heap::{Base, OutOfMemory, Value, are_same_values};
use nd_trace::{Footprint, Trace};
use std::alloc::Global;
use std::marker::Model;
use std::rc::Rc;

/// The values of names, `None` where a name was not bound.
pub(crate) type NamesRead = IndexMap<String, Option<Rc<Value>>>;

/// Inputs by name, `None` where there was no such input.
pub(crate) type InputsRead = IndexMap<String, Option<Rc<Input>>>;

/// The lengths of blocks.
pub(crate) type LengthsRead = IndexMap<Base, usize>;

/// What a cell read, with what it found there. Values and inputs are shared. So is a block, unless
/// the bytes that were read of it are few: then they are kept alone. A refused cell has read the
/// rule.
#[derive(Drop)]
pub struct Reads {
    pub(crate) names: NamesRead,
    pub(crate) inputs: InputsRead,
    pub(crate) lengths: LengthsRead,
    pub(crate) bytes: FoundByBase,
    pub(crate) rule: Option<CellRule>,
}

impl Model for Reads {
    ghost use Rattle.nd_session.specs.Session.Reads.{ReadsData};

    ghost Value = { ReadsData };

    ghost use Rattle.nd_session.specs.Session.Reading.{reads_of};

    ghost view = { reads_of };
}

/// Notes a name with the value that it had.
fn note_name(
    alloc: Global,
    reads: &mut NamesRead,
    name: &str,
    before: &Version,
) -> Result<(), OutOfMemory>
    ensures { OnOk result ((n : List ℕ) → model.lookup n (by_text value_at reads.new.entries)
        ≡ (if bytes_eq n name.now then Some (model.lookup name.now (version_of before.now).names)
        else model.lookup n (by_text value_at reads.old.entries))) }
{
    let value = before.share_value(name)?;
    let key = String::from_str(alloc, name)?;
    reads.insert(key, value)?;
    Ok(())
}

/// The names with the values that they had.
fn find_names(alloc: Global, names: &[String], before: &Version) -> Result<NamesRead, OutOfMemory>
    ensures { IfOk result (λ r. (n : List ℕ) → model.lookup n (by_text value_at r.entries)
        ≡ (if is_among (map string_bytes names.now) n
        then Some (model.lookup n (version_of before.now).names) else None)) }
{
    let mut reads = IndexMap::new(alloc);
    for name in names {
        note_name(alloc, &mut reads, name.as_str(), before)?;
    }
    Ok(reads)
}

/// An input, shared.
pub(crate) fn share_input(inputs: &Inputs, name: &str) -> Result<Option<Rc<Input>>, OutOfMemory>
    ensures { IfOk result (λ o. source_at o ≡ inputs_of inputs.now.entries name.now) }
{
    match find_input(inputs, name) {
        Some(input) => Ok(Some(input.clone()?)),
        None => Ok(None),
    }
}

/// Notes an input with its name.
fn note_input(
    alloc: Global,
    reads: &mut InputsRead,
    name: &str,
    inputs: &Inputs,
) -> Result<(), OutOfMemory>
    ensures { OnOk result ((n : List ℕ) → model.lookup n (by_text source_at reads.new.entries)
        ≡ (if bytes_eq n name.now then Some (inputs_of inputs.now.entries name.now)
        else model.lookup n (by_text source_at reads.old.entries))) }
{
    let input = share_input(inputs, name)?;
    let key = String::from_str(alloc, name)?;
    reads.insert(key, input)?;
    Ok(())
}

/// The inputs of these names.
fn find_inputs(alloc: Global, names: &[String], inputs: &Inputs) -> Result<InputsRead, OutOfMemory>
    ensures { IfOk result (λ r. (n : List ℕ) → model.lookup n (by_text source_at r.entries)
        ≡ (if is_among (map string_bytes names.now) n
        then Some (inputs_of inputs.now.entries n) else None)) }
{
    let mut reads = IndexMap::new(alloc);
    for name in names {
        note_input(alloc, &mut reads, name.as_str(), inputs)?;
    }
    Ok(reads)
}

/// Notes a block with the length that it had.
fn note_length(reads: &mut LengthsRead, base: Base, before: &Version) -> Result<(), OutOfMemory>
    ensures { OnOk result ((b : values.Base)
        → lookup_base b (by_base length_at reads.new.entries)
        ≡ (if values.same_base b (base_of base)
        then Some (length ((version_of before.now).bytes (base_of base)))
        else lookup_base b (by_base length_at reads.old.entries))) }
{
    reads.insert(base, before.bytes(base).len())?;
    Ok(())
}

/// The blocks with the lengths that they had.
fn find_lengths(alloc: Global, bases: &[Base], before: &Version) -> Result<LengthsRead, OutOfMemory>
    ensures { IfOk result (λ r. (b : values.Base) → lookup_base b (by_base length_at r.entries)
        ≡ (if is_base_among (map base_of bases.now) b
        then Some (length ((version_of before.now).bytes b)) else None)) }
{
    let mut reads = IndexMap::new(alloc);
    for base in bases {
        note_length(&mut reads, *base, before)?;
    }
    Ok(reads)
}

/// The byte offsets that were read, with their blocks.
fn find_bytes(alloc: Global, used: &Footprint, before: &Version) -> Result<FoundByBase, OutOfMemory>
    ensures { IfOk result (λ r. (b : values.Base) (p : ℕ)
        → byte_found r.entries b p ≡ (if is_marked (marks_of used.now.entries) b p
        then Some (slice_index ((version_of before.now).bytes b) p) else None)) }
{
    let mut reads = IndexMap::new(alloc);
    for i in 0..used.len() {
        let Some((base, marks)) = used.get_index(i) else {
            unreachable!();
        };
        let block = before.share_block(*base)?;
        note_bytes(alloc, &mut reads, *base, marks, block)?;
    }
    Ok(reads)
}

/// Whether each name has the value that was found.
fn have_same_names(reads: &NamesRead, session: &Session) -> bool
    ensures { IsTrue result ↔ ((n : List ℕ) (v : Option values.Value)
        → model.lookup n (by_text value_at reads.now.entries) ≡ Some v
        → v ≡ model.lookup n (live session.now).names) }
{
    for i in 0..reads.len() {
        let Some((name, value)) = reads.get_index(i) else {
            unreachable!();
        };
        if !are_same_values(value.as_ref(), session.peek(name.as_str())) {
            return false;
        }
    }
    true
}

/// Whether each input equals the one that was found.
fn have_same_inputs(reads: &InputsRead, inputs: &Inputs) -> bool
    ensures { IsTrue result ↔ ((n : List ℕ) (x : Option running.Source)
        → model.lookup n (by_text source_at reads.now.entries) ≡ Some x
        → x ≡ inputs_of inputs.now.entries n) }
{
    for i in 0..reads.len() {
        let Some((name, input)) = reads.get_index(i) else {
            unreachable!();
        };
        if !are_same_inputs(input.as_ref(), find_input(inputs, name.as_str())) {
            return false;
        }
    }
    true
}

/// Whether each block is as long as it was found.
fn have_same_lengths(reads: &LengthsRead, session: &Session) -> bool
    ensures { IsTrue result ↔ ((b : values.Base) (n : ℕ)
        → lookup_base b (by_base length_at reads.now.entries) ≡ Some n
        → n ≡ length (model.held_bytes (running.session_of (live session.now)) b)) }
{
    for i in 0..reads.len() {
        let Some((base, count)) = reads.get_index(i) else {
            unreachable!();
        };
        if *count != session.held_bytes(*base).len() {
            return false;
        }
    }
    true
}

/// Whether each byte that was read has the value that was found.
fn have_same_bytes(reads: &FoundByBase, session: &Session) -> bool
    ensures { IsTrue result ↔ ((b : values.Base) (e : Found)
        → lookup_base b (by_base bytes_of reads.now.entries) ≡ Some e
        → (p n : ℕ) → found_at e p ≡ Some n
        → slice_index (model.held_bytes (running.session_of (live session.now)) b) p ≡ n) }
{
    for i in 0..reads.len() {
        let Some((base, read)) = reads.get_index(i) else {
            unreachable!();
        };
        if !read.is_found_in(session.held_bytes(*base)) {
            return false;
        }
    }
    true
}

/// Whether a byte of a block was found in both.
fn meets_at(reads: &FoundByBase, others: &FoundByBase, base: Base) -> bool
    ensures { IsTrue result
        ↔ ((p : ℕ) × IsTrue (is_some (byte_found reads.now.entries (base_of base) p))
        × IsTrue (is_some (byte_found others.now.entries (base_of base) p))) }
{
    let Some(read) = reads.get(&base) else {
        return false;
    };
    let Some(other) = others.get(&base) else {
        return false;
    };
    read.meets(other)
}

/// The rule as a cell has read it: none where it was not refused.
fn read_rule(rule: CellRule, is_refused: bool) -> Option<CellRule>
    ensures { option_map rule_of result ≡ (if is_refused then Some (rule_of rule) else None) }
{
    if is_refused { Some(rule) } else { None }
}

/// Whether the rule is the one that was found, if it was read.
fn has_same_rule(found: Option<CellRule>, rule: CellRule) -> bool
    ensures { IsTrue result
        ↔ ((x : running.Rule) → option_map rule_of found ≡ Some x → x ≡ rule_of rule) }
{
    match found {
        Some(found) => found.is_same(rule),
        None => true,
    }
}

impl Reads {
    /// Returns what a cell read that began with a snapshot, these inputs and this rule.
    pub fn new(
        alloc: Global,
        trace: &Trace,
        before: &Version,
        inputs: &Inputs,
        rule: CellRule,
        is_refused: bool,
    ) -> Result<Reads, OutOfMemory>
        ensures keys { IfOk result (λ r. (k : running.Key)
            → keys_of r k ≡ is_read_by trace.now is_refused k) }
        ensures found { IfOk result (λ r. (k : running.Key) → IsTrue (keys_of r k)
            → found_of r k ≡ Some (found_in (version_of before.now)
            (world_of (inputs_of inputs.now.entries) rule) k)) }
    {
        let lengths = find_lengths(alloc, trace.bases(), before)?;
        let bytes = match find_bytes(alloc, trace.used_bytes(), before) {
            Ok(bytes) => bytes,
            Err(memory) => {
                drop(lengths);
                return Err(memory);
            }
        };
        let inputs = match find_inputs(alloc, trace.inputs(), inputs) {
            Ok(inputs) => inputs,
            Err(memory) => {
                drop(lengths);
                drop(bytes);
                return Err(memory);
            }
        };
        match find_names(alloc, trace.names(), before) {
            Ok(names) => Ok(Reads {
                names,
                inputs,
                lengths,
                bytes,
                rule: read_rule(rule, is_refused),
            }),
            Err(memory) => {
                drop(lengths);
                drop(bytes);
                drop(inputs);
                Err(memory)
            }
        }
    }

    /// Returns whether a session, inputs and rule still have what was read. It takes no memory.
    ///
    /// The reads of `print(x[0])` agree with the session behind `x[1] = 5`, and not with that behind
    /// `x[0] = 5`, where `x[0]` was another number.
    pub fn agree(&self, session: &Session, inputs: &Inputs, rule: CellRule) -> bool
        ensures { IsTrue result ↔ ((k : running.Key) → IsTrue (keys_of self.now k)
            → found_of self.now k ≡ Some (found (running.session_of (live session.now))
            (world_of (inputs_of inputs.now.entries) rule) k)) }
    {
        if !has_same_rule(self.rule, rule) {
            return false;
        }
        if !have_same_names(&self.names, session) {
            return false;
        }
        if !have_same_inputs(&self.inputs, inputs) {
            return false;
        }
        if !have_same_lengths(&self.lengths, session) {
            return false;
        }
        have_same_bytes(&self.bytes, session)
    }
}

impl Reads {
    ghost use Rattle.std.specs.Prelude.{◌<◌, slice_get};
    ghost use Rattle.nd_model.specs.Cells.Running.{Byte};
    ghost use Rattle.nd_session.specs.Session.Changes.{writes_in};

    /// Returns the number of names that were read, bound or not.
    pub fn name_count(&self) -> usize
        ensures { result ≡ length self.now.names }
    {
        self.names.len()
    }

    /// Returns one of the names that were read, in the order of their first reads.
    pub fn name_at(&self, place: usize) -> &str
        requires { place < length self.now.names }
        ensures { option_map (λ e. e.0) (slice_get self.now.names place) ≡ Some result.now }
    {
        let Some((name, _)) = self.names.get_index(place) else {
            unreachable!();
        };
        name.as_str()
    }

    /// Returns the number of inputs that were read, there or not.
    pub fn input_count(&self) -> usize
        ensures { result ≡ length self.now.inputs }
    {
        self.inputs.len()
    }

    /// Returns one of the names of inputs that were read, in the order of their first reads.
    pub fn input_at(&self, place: usize) -> &str
        requires { place < length self.now.inputs }
        ensures { option_map (λ e. e.0) (slice_get self.now.inputs place) ≡ Some result.now }
    {
        let Some((name, _)) = self.inputs.get_index(place) else {
            unreachable!();
        };
        name.as_str()
    }

    /// Returns the number of blocks whose length was read.
    pub fn length_count(&self) -> usize
        ensures { result ≡ length self.now.lengths }
    {
        self.lengths.len()
    }

    /// Returns one of the blocks whose length was read.
    pub fn length_at(&self, place: usize) -> Base
        requires { place < length self.now.lengths }
        ensures { option_map (λ e. e.0) (slice_get self.now.lengths place) ≡ Some (base_of result) }
    {
        let Some((base, _)) = self.lengths.get_index(place) else {
            unreachable!();
        };
        *base
    }

    /// Returns the number of blocks of which bytes were noted, be they none.
    pub fn block_count(&self) -> usize
        ensures { result ≡ length self.now.bytes }
    {
        self.bytes.len()
    }

    /// Returns one of the blocks of which bytes were noted, in the order of their first reads.
    pub fn block_at(&self, place: usize) -> Base
        requires { place < length self.now.bytes }
        ensures { option_map (λ e. e.0) (slice_get self.now.bytes place) ≡ Some (base_of result) }
    {
        let Some((base, _)) = self.bytes.get_index(place) else {
            unreachable!();
        };
        *base
    }

    /// Returns whether a byte of a block was read. It takes no memory.
    pub fn reads_bytes(&self, base: Base) -> bool
        ensures { IsTrue result ↔ ((p : ℕ) × IsTrue (keys_of self.now (Byte (base_of base) p))) }
    {
        meets_at(&self.bytes, &self.bytes, base)
    }

    /// Returns whether a byte of a block was read that some changes wrote. It takes no memory.
    pub fn reads_written(&self, changes: &Changes, base: Base) -> bool
        ensures { IsTrue result ↔ ((p : ℕ) × IsTrue (keys_of self.now (Byte (base_of base) p))
            × IsTrue (is_some (writes_in changes.now (base_of base) p))) }
    {
        meets_at(&self.bytes, &changes.written, base)
    }
}
