//! `Change`: what stands now at each key where a session may differ from the one before an edit.

ghost use Rattle.std.specs.Prelude.{◌≡◌, ◌+◌, ◌-◌, ◌^◌, IsTrue, None, length, map, min, sum};
ghost use Rattle.nd_heap.specs.Contents.{bytes_in};
ghost use Rattle.nd_model.specs.Cells.Running.{Key};
ghost use Rattle.nd_session.specs.Session.Change.{change_of};
ghost use Rattle.nd_session.specs.Session.Now.{kept_in};

use crate::inputs::{CellRule, Input};
use crate::session::found::shared_bytes;
use indexmap::IndexMap;
use nd_block::RawBlock;
use nd_heap::{Base, Value};
use nd_marks::KeptBytes;
use std::alloc::{AllocError, Global};
use std::marker::Model;
use std::rc::{Rc, RcStr};

/// The values of names, `None` where a name is not bound now.
pub(crate) type NamesNow = IndexMap<RcStr, Option<Rc<Value>>>;

/// Inputs by name, `None` where there is no such input now.
pub(crate) type InputsNow = IndexMap<RcStr, Option<Rc<Input>>>;

/// The blocks of bases, `None` where a base has no bytes now.
pub(crate) type BlocksNow = IndexMap<Base, Option<Rc<RawBlock>>>;

/// The bytes at some byte offsets of a base. Where its block is in the change too, that decides.
pub(crate) type PartsNow = IndexMap<Base, Rc<KeptBytes>>;

/// What stands now at each key where a session may differ from the one before an edit: names, inputs,
/// blocks, single bytes of other blocks, and the rule. A key that is not in it has the same in both.
///
/// It may have keys that are the same in both. Values and blocks are shared with the session.
///
/// Behind an edit of `x = 1` to `x = 2` it has `x` with the value 2. A cell that reads `x` does not
/// fit it, and behind a cell that binds `x` it has nothing.
#[derive(Drop)]
pub struct Change {
    pub(crate) names: NamesNow,
    pub(crate) inputs: InputsNow,
    pub(crate) blocks: BlocksNow,
    pub(crate) parts: PartsNow,
    pub(crate) rule: Option<CellRule>,
    pub(crate) alloc: Global,
}

impl Model for Change {
    ghost use Rattle.nd_session.specs.Session.Change.{ChangeData};

    ghost Value = { ChangeData };

    ghost use Rattle.nd_session.specs.Session.Now.{data_in};

    ghost view = { data_in };
}

impl Clone for Change {
    ghost is_clone = { λ change copy. copy ≡ change };

    // Values, inputs and blocks are shared: no byte is copied.
    fn clone(&self) -> Result<Change, AllocError> {
        let blocks = self.blocks.clone()?;
        let parts = match self.parts.clone() {
            Ok(parts) => parts,
            Err(refused) => {
                drop(blocks);
                return Err(refused);
            }
        };
        let inputs = match self.inputs.clone() {
            Ok(inputs) => inputs,
            Err(refused) => {
                drop(blocks);
                drop(parts);
                return Err(refused);
            }
        };
        match self.names.clone() {
            Ok(names) => Ok(Change {
                names,
                inputs,
                blocks,
                parts,
                rule: self.rule,
                alloc: self.alloc,
            }),
            Err(refused) => {
                drop(blocks);
                drop(parts);
                drop(inputs);
                Err(refused)
            }
        }
    }
}

/// The number of bytes of some blocks in all.
fn weigh(blocks: &BlocksNow) -> u64
    ensures { result ≡ min (sum (map (λ e. length (bytes_in e.1)) blocks.now.entries))
        (2 ^ 64 - 1) }
{
    let mut bytes: u64 = 0;
    for i in 0..blocks.len() {
        let Some((_, block)) = blocks.get_index(i) else {
            unreachable!();
        };
        bytes = bytes.saturating_add(shared_bytes(block).len() as u64);
    }
    bytes
}

/// The number of single bytes in all.
fn weigh_parts(parts: &PartsNow) -> u64
    ensures { result ≡ min (sum (map (λ e. length (kept_in e.1).bytes) parts.now.entries))
        (2 ^ 64 - 1) }
{
    let mut bytes: u64 = 0;
    for i in 0..parts.len() {
        let Some((_, part)) = parts.get_index(i) else {
            unreachable!();
        };
        bytes = bytes.saturating_add(part.as_ref().len() as u64);
    }
    bytes
}

impl Change {
    /// Returns a change with nothing in it, which takes no memory.
    pub fn new(alloc: Global) -> Change
        ensures { (k : Key) → change_of result k ≡ None }
    {
        Change {
            names: IndexMap::new(alloc),
            inputs: IndexMap::new(alloc),
            blocks: IndexMap::new(alloc),
            parts: IndexMap::new(alloc),
            rule: None,
            alloc,
        }
    }

    /// Returns whether the change has nothing in it.
    pub fn is_empty(&self) -> bool
        ensures { IsTrue result → (k : Key) → change_of self.now k ≡ None }
    {
        self.names.is_empty()
            && self.inputs.is_empty()
            && self.blocks.is_empty()
            && self.parts.is_empty()
            && self.rule.is_none()
    }

    /// Returns the number of names, inputs, blocks and blocks with single bytes of the change.
    pub fn count(&self) -> usize
        ensures { result ≡ min (length self.now.names + length self.now.inputs
            + length self.now.blocks + length self.now.parts) (2 ^ 64 - 1) }
    {
        let texts = self.names.len().saturating_add(self.inputs.len());
        let bases = self.blocks.len().saturating_add(self.parts.len());
        texts.saturating_add(bases)
    }

    /// Returns the number of bytes that the blocks of the change have in all, and its single bytes.
    pub fn weight(&self) -> u64
        ensures { result ≡ min (sum (map (λ e. length e.1) self.now.blocks)
            + sum (map (λ e. length e.1.bytes) self.now.parts)) (2 ^ 64 - 1) }
    {
        let blocks = weigh(&self.blocks);
        blocks.saturating_add(weigh_parts(&self.parts))
    }
}
