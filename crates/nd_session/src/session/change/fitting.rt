//! `Change::fits`: whether what a cell read stands there now, where an edit may have changed it.

ghost use Rattle.std.specs.Prelude.{◌≡◌, ◌↔◌, ℕ, IsTrue, List, Option, Some, length, option_map};
ghost use Rattle.nd_change.specs.Change.{Fits};
ghost use Rattle.nd_heap.specs.Contents.{bytes_in};
ghost use Rattle.nd_heap.specs.Values.{base_of, value_of};
ghost use Rattle.nd_model.specs.Arrays.Value as values;
ghost use Rattle.nd_model.specs.Cells.Running as running;
ghost use Rattle.nd_model.specs.Cells.Session.{lookup};
ghost use Rattle.nd_input.specs.Sources.{source_of};
ghost use Rattle.nd_session.specs.Inputs.Values.{rule_of};
ghost use Rattle.nd_session.specs.Session.Change.{FitsAt, HasFound, change_of, reader_in};
ghost use Rattle.nd_session.specs.Session.Now.{block_now, input_now, part_now, value_now};
ghost use Rattle.nd_session.specs.Session.Found.{Found, by_base, bytes_of, found_at, lookup_base};
ghost use Rattle.nd_session.specs.Session.Reading.{by_text, length_at, source_at, value_at};

use crate::inputs::{CellRule, Input, are_same_inputs};
use crate::session::change::change::{BlocksNow, Change, InputsNow, NamesNow, PartsNow};
use crate::session::found::{FoundByBase, FoundBytes, shared_bytes};
use crate::session::reads::{InputsRead, LengthsRead, NamesRead, Reads};
use nd_heap::{Base, Value, are_same_values};
use std::rc::Rc;

/// The value that stands now, if a name is bound.
fn lend_value(value: &Option<Rc<Value>>) -> Option<&Value>
    ensures { option_map (λ v. value_of v.now) result ≡ value_at value.now }
{
    match value {
        Some(value) => Some(value.as_ref()),
        None => None,
    }
}

/// Whether a name is outside of the change, or has the value that was found.
fn fits_name(names: &NamesNow, name: &str, found: &Option<Rc<Value>>) -> bool
    ensures { IsTrue result
        ↔ FitsAt (value_now names.now.entries name.now) (value_at found.now) }
{
    match names.get(name) {
        Some(value) => are_same_values(found.as_ref(), lend_value(value)),
        None => true,
    }
}

/// Whether an input is outside of the change, or equals the one that was found.
fn fits_input(inputs: &InputsNow, name: &str, found: &Option<Rc<Input>>) -> bool
    ensures { IsTrue result
        ↔ FitsAt (input_now inputs.now.entries name.now) (source_at found.now) }
{
    match inputs.get(name) {
        Some(input) => are_same_inputs(found.as_ref(), input.as_ref()),
        None => true,
    }
}

/// Whether a block is outside of the change, or is as long as it was found.
fn fits_length(blocks: &BlocksNow, base: Base, count: usize) -> bool
    ensures { IsTrue result
        ↔ FitsAt (option_map length (block_now blocks.now.entries (base_of base))) count }
{
    match blocks.get(&base) {
        Some(block) => shared_bytes(block).len() == count,
        None => true,
    }
}

/// Whether each single byte of a block is the one that was found, if one was.
fn fits_part(parts: &PartsNow, base: Base, found: &FoundBytes) -> bool
    ensures { IsTrue result ↔ ((p a n : ℕ) → part_now parts.now.entries (base_of base) p ≡ Some a
        → found_at (bytes_of found.now) p ≡ Some n → a ≡ n) }
{
    match parts.get(&base) {
        Some(part) => found.agrees(part.as_ref()),
        None => true,
    }
}

/// Whether each byte that was found is outside of the change, or stands there now.
fn fits_bytes(blocks: &BlocksNow, parts: &PartsNow, base: Base, found: &FoundBytes) -> bool
    ensures { IsTrue result ↔ HasFound (block_now blocks.now.entries (base_of base))
        (part_now parts.now.entries (base_of base)) (bytes_of found.now) }
{
    match blocks.get(&base) {
        Some(block) => found.is_found_in(shared_bytes(block)),
        None => fits_part(parts, base, found),
    }
}

/// Whether the rule is outside of the change, or the one that was found, if it was read.
fn fits_rule(now: Option<CellRule>, found: Option<CellRule>) -> bool
    ensures { IsTrue result ↔ ((x : running.Rule)
        → option_map rule_of found ≡ Some x → FitsAt (option_map rule_of now) x) }
{
    match (now, found) {
        (Some(now), Some(found)) => now.is_same(found),
        _ => true,
    }
}

/// Whether each name fits.
fn fit_names(reads: &NamesRead, names: &NamesNow) -> bool
    ensures { IsTrue result ↔ ((n : List ℕ) (v : Option values.Value)
        → lookup n (by_text value_at reads.now.entries) ≡ Some v
        → FitsAt (value_now names.now.entries n) v) }
{
    for i in 0..reads.len() {
        let Some((name, value)) = reads.get_index(i) else {
            unreachable!();
        };
        if !fits_name(names, name.as_str(), value) {
            return false;
        }
    }
    true
}

/// Whether each input fits.
fn fit_inputs(reads: &InputsRead, inputs: &InputsNow) -> bool
    ensures { IsTrue result ↔ ((n : List ℕ) (x : Option running.Source)
        → lookup n (by_text source_at reads.now.entries) ≡ Some x
        → FitsAt (input_now inputs.now.entries n) x) }
{
    for i in 0..reads.len() {
        let Some((name, input)) = reads.get_index(i) else {
            unreachable!();
        };
        if !fits_input(inputs, name.as_str(), input) {
            return false;
        }
    }
    true
}

/// Whether each length fits.
fn fit_lengths(reads: &LengthsRead, blocks: &BlocksNow) -> bool
    ensures { IsTrue result ↔ ((b : values.Base) (n : ℕ)
        → lookup_base b (by_base length_at reads.now.entries) ≡ Some n
        → FitsAt (option_map length (block_now blocks.now.entries b)) n) }
{
    for i in 0..reads.len() {
        let Some((base, count)) = reads.get_index(i) else {
            unreachable!();
        };
        if !fits_length(blocks, *base, *count) {
            return false;
        }
    }
    true
}

/// Whether the bytes that were read fit.
fn fit_bytes(reads: &FoundByBase, blocks: &BlocksNow, parts: &PartsNow) -> bool
    ensures { IsTrue result ↔ ((b : values.Base) (e : Found)
        → lookup_base b (by_base bytes_of reads.now.entries) ≡ Some e
        → HasFound (block_now blocks.now.entries b) (part_now parts.now.entries b) e) }
{
    for i in 0..reads.len() {
        let Some((base, found)) = reads.get_index(i) else {
            unreachable!();
        };
        if !fits_bytes(blocks, parts, *base, found) {
            return false;
        }
    }
    true
}

impl Change {
    /// Returns whether each key that a cell read is outside of the change, or is now what the cell
    /// found there. It asks no session, and takes no memory.
    ///
    /// Where the block of `a` is in the change and `a[0]` is 5 there, `print(a[0])` fits it just
    /// where it printed 5.
    pub fn fits(&self, reads: &Reads) -> bool
        ensures { IsTrue result ↔ Fits (change_of self.now) (reader_in reads.now) }
    {
        if !fits_rule(self.rule, reads.rule) {
            return false;
        }
        if !fit_names(&reads.names, &self.names) {
            return false;
        }
        if !fit_inputs(&reads.inputs, &self.inputs) {
            return false;
        }
        if !fit_lengths(&reads.lengths, &self.blocks) {
            return false;
        }
        fit_bytes(&reads.bytes, &self.blocks, &self.parts)
    }
}
