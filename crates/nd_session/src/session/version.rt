//! `Version`: a snapshot of a session, which shares its names and blocks.

ghost use Rattle.std.specs.Prelude.{◌≡◌, IfOk, option_map};
ghost use Rattle.nd_model.specs.Cells.Session as model;
ghost use Rattle.nd_heap.specs.Values.{base_of, value_of};
ghost use Rattle.nd_heap.specs.Contents.{bytes_in};
ghost use Rattle.nd_session.specs.Session.Kept.{version_of};

use nd_block::RawBlock;
use nd_heap::{Base, Heap, OutOfMemory, Value};
use std::marker::Model;
use std::rc::Rc;

/// A snapshot: the names and blocks of a session, shared until the session changes them, and the
/// label and the next number of the cell that ran.
#[derive(Drop)]
pub struct Version {
    pub(crate) heap: Heap,
    pub(crate) label: u64,
    pub(crate) next: u64,
}

impl Model for Version {
    ghost use Rattle.nd_session.specs.Session.Kept.{Kept};

    ghost Value = { Kept };

    ghost view = { λ v. record {
      names = v.heap.names;
      blocks = v.heap.blocks;
      label = v.label;
      next = v.next;
    } };

    ghost use Rattle.nd_heap.specs.Live.{bytes_at};
    ghost use Rattle.nd_session.specs.Session.Intact.{AllLie};

    ghost invariant = { λ v. AllLie v.label v.next (bytes_at v.heap.blocks) v.heap.names };
}

impl Version {
    /// Returns an equal snapshot. No name and no byte is copied.
    pub fn try_clone(&self) -> Result<Version, OutOfMemory>
        ensures { IfOk result (λ v. v ≡ self.now) }
    {
        let heap = self.heap.try_clone()?;
        Ok(Version {
            heap,
            label: self.label,
            next: self.next,
        })
    }

    /// Returns the value of a name.
    pub fn peek(&self, name: &str) -> Option<&Value>
        ensures { option_map (λ v. value_of v.now) result
            ≡ model.lookup name.now (version_of self.now).names }
    {
        self.heap.find(name)
    }

    /// Returns the bytes of a block, none where no bound value lies in it.
    pub fn bytes(&self, base: Base) -> &[u8]
        ensures { result.now ≡ (version_of self.now).bytes (base_of base) }
    {
        self.heap.bytes(base)
    }

    /// Returns the value of a name, shared.
    pub(crate) fn share_value(&self, name: &str) -> Result<Option<Rc<Value>>, OutOfMemory>
        ensures { IfOk result (λ o. option_map (λ v. value_of v.value) o
            ≡ model.lookup name.now (version_of self.now).names) }
    {
        self.heap.share_value(name)
    }

    /// Returns the block of a base, shared.
    pub(crate) fn share_block(&self, base: Base) -> Result<Option<Rc<RawBlock>>, OutOfMemory>
        ensures { IfOk result (λ o. bytes_in o ≡ (version_of self.now).bytes (base_of base)) }
    {
        self.heap.share_block(base)
    }
}
