//! `KeyFilter::of_run` and `Change::filter`: the filters of what a cell read and did, and of a change.

ghost use Rattle.std.specs.Prelude.{◌/◌, ◌%◌, ℕ, IsTrue, is_some, string_bytes};
ghost use Rattle.std.specs.List.{All};
ghost use Rattle.std.specs.Rc.{rc_str_bytes};
ghost use Rattle.nd_change.specs.Steps.{IsWordOf, IsWordOfChange};
ghost use Rattle.nd_marks.specs.Marks.{in_word};
ghost use Rattle.nd_model.specs.Cells.Running.{Input, Key, Name, OfRule};
ghost use Rattle.nd_session.specs.Session.Change.{change_of, run_in};
ghost use Rattle.nd_session.specs.Session.Filter.{CoversFound, CoversKept, CoversLabel, CoversLength, StaysCovered, covers};
ghost use Rattle.nd_session.specs.Session.Found.{bytes_of, found_at};
ghost use Rattle.nd_session.specs.Session.Reads.{keys_of};
ghost use Rattle.nd_trace.specs.Events.{event_of, name_of_event};

use crate::inputs::CellRule;
use crate::session::change::change::Change;
use crate::session::change::filter::KeyFilter;
use crate::session::changes::Changes;
use crate::session::found::{FoundByBase, FoundBytes};
use crate::session::reads::{LengthsRead, Reads};
use indexmap::IndexMap;
use nd_heap::Base;
use nd_marks::KeptBytes;
use nd_trace::Event;
use std::rc::{Rc, RcStr};

/// The most keys of which a change has a filter of its own: to make one takes a look at each key.
const MOST_KEYS: usize = 64;

/// Adds the names that were read.
fn add_names<V>(names: &IndexMap<String, V>, filter: &mut KeyFilter)
    ensures added { All (λ e. IsTrue (covers filter.new (Name (string_bytes e.0))))
        names.now.entries }
    ensures stays { StaysCovered filter.old filter.new }
{
    for i in 0..names.len() {
        let Some((name, _)) = names.get_index(i) else {
            unreachable!();
        };
        filter.add_name(name.as_str());
    }
}

/// Adds the inputs that were read.
fn add_inputs<V>(names: &IndexMap<String, V>, filter: &mut KeyFilter)
    ensures added { All (λ e. IsTrue (covers filter.new (Input (string_bytes e.0))))
        names.now.entries }
    ensures stays { StaysCovered filter.old filter.new }
{
    for i in 0..names.len() {
        let Some((name, _)) = names.get_index(i) else {
            unreachable!();
        };
        filter.add_input(name.as_str());
    }
}

/// Adds the names of a change.
fn add_changed_names<V>(names: &IndexMap<RcStr, V>, filter: &mut KeyFilter)
    ensures added { All (λ e. IsTrue (covers filter.new (Name (rc_str_bytes e.0))))
        names.now.entries }
    ensures stays { StaysCovered filter.old filter.new }
{
    for i in 0..names.len() {
        let Some((name, _)) = names.get_index(i) else {
            unreachable!();
        };
        filter.add_name(name.as_str());
    }
}

/// Adds the inputs of a change.
fn add_changed_inputs<V>(names: &IndexMap<RcStr, V>, filter: &mut KeyFilter)
    ensures added { All (λ e. IsTrue (covers filter.new (Input (rc_str_bytes e.0))))
        names.now.entries }
    ensures stays { StaysCovered filter.old filter.new }
{
    for i in 0..names.len() {
        let Some((name, _)) = names.get_index(i) else {
            unreachable!();
        };
        filter.add_input(name.as_str());
    }
}

/// Adds the labels of blocks.
fn add_labels<V>(bases: &IndexMap<Base, V>, filter: &mut KeyFilter)
    ensures added { All (λ e. CoversLabel filter.new e.0.label) bases.now.entries }
    ensures stays { StaysCovered filter.old filter.new }
{
    for i in 0..bases.len() {
        let Some((base, _)) = bases.get_index(i) else {
            unreachable!();
        };
        filter.add_label(base.label);
    }
}

/// Adds the lengths of blocks, by their labels.
fn add_lengths(lengths: &LengthsRead, filter: &mut KeyFilter)
    ensures added { All (λ e. CoversLength filter.new e.0.label) lengths.now.entries }
    ensures stays { StaysCovered filter.old filter.new }
{
    for i in 0..lengths.len() {
        let Some((base, _)) = lengths.get_index(i) else {
            unreachable!();
        };
        filter.add_length(base.label);
    }
}

/// The bits of the granules of bytes that were found.
fn granules_of(found: &FoundBytes) -> u64
    ensures { (p : ℕ) → IsTrue (is_some (found_at (bytes_of found.now) p))
        → IsTrue (in_word result (p / 64 % 64)) }
{
    match found {
        FoundBytes::Kept(kept) => kept.granules(),
        FoundBytes::Shared(marks, _) => marks.granules(),
    }
}

/// Adds the bytes that were found in blocks.
fn add_found(found: &FoundByBase, filter: &mut KeyFilter)
    ensures added { All (λ e. CoversFound filter.new e.0.label (bytes_of e.1)) found.now.entries }
    ensures stays { StaysCovered filter.old filter.new }
{
    for i in 0..found.len() {
        let Some((base, bytes)) = found.get_index(i) else {
            unreachable!();
        };
        filter.add_bytes(base.label, granules_of(bytes));
    }
}

/// Adds the bytes that are kept of blocks.
pub(crate) fn add_parts(parts: &IndexMap<Base, Rc<KeptBytes>>, filter: &mut KeyFilter)
    ensures added { All (λ e. CoversKept filter.new e.0.label e.1.value) parts.now.entries }
    ensures stays { StaysCovered filter.old filter.new }
{
    for i in 0..parts.len() {
        let Some((base, part)) = parts.get_index(i) else {
            unreachable!();
        };
        filter.add_bytes(base.label, part.as_ref().granules());
    }
}

/// Adds the names of events.
fn add_events(events: &[Event], filter: &mut KeyFilter)
    ensures added { All (λ e. IsTrue (covers filter.new (Name (name_of_event (event_of e)))))
        events.now }
    ensures stays { StaysCovered filter.old filter.new }
{
    for event in events {
        filter.add_name(event.name().as_str());
    }
}

/// Adds the rule, if there is one.
fn add_some_rule(rule: Option<CellRule>, filter: &mut KeyFilter)
    ensures added { IsTrue (is_some rule) → IsTrue (covers filter.new OfRule) }
    ensures stays { StaysCovered filter.old filter.new }
{
    if rule.is_some() {
        filter.add_rule();
    }
}

/// Adds all that a cell read.
fn add_reads(reads: &Reads, filter: &mut KeyFilter)
    ensures added { (k : Key) → IsTrue (keys_of reads.now k) → IsTrue (covers filter.new k) }
    ensures stays { StaysCovered filter.old filter.new }
{
    add_names(&reads.names, filter);
    add_inputs(&reads.inputs, filter);
    add_lengths(&reads.lengths, filter);
    add_found(&reads.bytes, filter);
    add_some_rule(reads.rule, filter);
}

impl KeyFilter {
    /// Returns a filter of all that a cell read and did. It has all bytes of the cell's own label.
    ///
    /// That of `y = x` has `x`, `y` and the label of the cell that made the block of `x`.
    pub fn of_run(reads: &Reads, changes: &Changes) -> KeyFilter
        ensures { IsWordOf covers result (run_in reads.now changes.now) }
    {
        let mut filter = KeyFilter::new();
        add_reads(reads, &mut filter);
        filter.add_label(changes.label);
        add_events(&changes.events, &mut filter);
        add_found(&changes.written, &mut filter);
        filter
    }
}

impl Change {
    /// Returns a filter of all keys of the change. That of more than 64 keys holds every key, so it
    /// takes the same time for each change.
    pub fn filter(&self) -> KeyFilter
        ensures { IsWordOfChange covers result (change_of self.now) }
    {
        if self.count() > MOST_KEYS {
            return KeyFilter::of_all();
        }
        let mut filter = KeyFilter::new();
        add_changed_names(&self.names, &mut filter);
        add_changed_inputs(&self.inputs, &mut filter);
        add_labels(&self.blocks, &mut filter);
        add_parts(&self.parts, &mut filter);
        add_some_rule(self.rule, &mut filter);
        filter
    }
}
