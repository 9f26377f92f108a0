//! `NameTable`: names in order with their values in layers, so that a change copies few of them.

ghost use Rattle.std.specs.Prelude.{◌≡◌, ◌<◌, ◌≤◌, ◌↔◌, ◌&&◌, not, [], Some, IfOk, IsFalse, IsTrue, false, OnErr, OnOk, length, option_map, slice_get, take};
ghost use Rattle.std.specs.Rc.{rc_str_bytes};
ghost use Rattle.nd_model.specs.Cells.Session as model;
ghost use Rattle.nd_model.specs.Book.Sessions.{IsOnce};
ghost use Rattle.nd_model.specs.Arrays.Value as values;
ghost use Rattle.indexmap.specs.IndexMap.{index_map_len};
ghost use Rattle.nd_heap.specs.Contents.{bases_of};
ghost use Rattle.nd_heap.specs.Layers.{AreDistinctNames};
ghost use Rattle.nd_heap.specs.Live.{is_base_among};
ghost use Rattle.nd_heap.specs.Loose.{LosesHolder};
ghost use Rattle.nd_heap.specs.Sharing.{held_in};
ghost use Rattle.nd_heap.specs.Values.{base_of, value_of, names_of};

use crate::blocks::{Bases, drop_base, note_base};
use crate::layer::{Layer, most_copied};
use crate::names::{
    Names, find, insert, is_held, is_held_below, lies_in, lies_in_label, marks_of, put_newer,
    remove, unbind,
};
use crate::value::{Base, Value};
use indexmap::IndexMap;
use nd_memory::OutOfMemory;
use std::alloc::Global;
use std::marker::Model;
use std::rc::{Rc, RcStr};

/// Names in order, with their values: old ones, which versions share, newer values of some of these, and names that were added
/// behind them. A copy shares the old ones, so it copies few.
#[derive(Drop)]
pub(crate) struct NameTable {
    shared: Layer<Names>,
    /// The marks of the first old names, by which a base is looked for among them.
    marks: Layer<Vec<u32>>,
    newer: Names,
    added: Names,
    alloc: Global,
}

impl Model for NameTable {
    ghost use Rattle.std.specs.Prelude.{◌++◌, List, ℕ};
    ghost use Rattle.nd_model.specs.Arrays.Value as values;

    ghost Value = { List (List ℕ × values.Value) };

    ghost use Rattle.nd_heap.specs.Layers.{overridden, AreDistinctNames, AreMarked};
    ghost use Rattle.nd_heap.specs.Sharing.{held_in};
    ghost use Rattle.nd_heap.specs.Values.{names_of};

    ghost view = { λ t. overridden (names_of t.newer.entries) (names_of (held_in t.shared).entries)
        ++ names_of t.added.entries };

    ghost invariant = { λ t. AreDistinctNames (overridden (names_of t.newer.entries)
        (names_of (held_in t.shared).entries) ++ names_of t.added.entries)
        × AreMarked (names_of (held_in t.shared).entries) (held_in t.marks).items };
}

/// The old names and their marks, shared.
fn share_old(
    shared: &Layer<Names>,
    marks: &Layer<Vec<u32>>,
) -> Result<(Layer<Names>, Layer<Vec<u32>>), OutOfMemory>
    ensures names { IfOk result (λ r. names_of (held_in r.0).entries
        ≡ names_of (held_in shared.now).entries) }
    ensures marks { IfOk result (λ r. (held_in r.1).items ≡ (held_in marks.now).items) }
{
    let names = shared.try_clone()?;
    match marks.try_clone() {
        Ok(marks) => Ok((names, marks)),
        Err(memory) => {
            drop(names);
            Err(memory.into())
        }
    }
}

impl NameTable {
    /// No names.
    pub(crate) fn new(alloc: Global) -> NameTable
        ensures { result ≡ [] }
    {
        NameTable {
            shared: Layer::Own(IndexMap::new(alloc)),
            marks: Layer::Own(Vec::new(alloc)),
            newer: IndexMap::new(alloc),
            added: IndexMap::new(alloc),
            alloc,
        }
    }

    /// A copy that shares the old names and each value.
    pub(crate) fn try_clone(&self) -> Result<NameTable, OutOfMemory>
        ensures { IfOk result (λ t. t ≡ self.now) }
    {
        let newer = self.newer.clone()?;
        let added = match self.added.clone() {
            Ok(added) => added,
            Err(memory) => {
                drop(newer);
                return Err(memory.into());
            }
        };
        match share_old(&self.shared, &self.marks) {
            Ok((shared, marks)) => Ok(NameTable {
                shared,
                marks,
                newer,
                added,
                alloc: self.alloc,
            }),
            Err(memory) => {
                drop(newer);
                drop(added);
                Err(memory)
            }
        }
    }

    /// proof: no name stands twice.
    pub(crate) fn distinctness(&self)
        ensures { IsOnce self.now }
    {
        let _ = &self.alloc;
    }

    /// How many names there are.
    pub(crate) fn len(&self) -> usize
        ensures { result ≡ length self.now }
    {
        self.shared.as_ref().len() + self.added.len()
    }

    /// The value of a name.
    pub(crate) fn find(&self, name: &str) -> Option<&Rc<Value>>
        ensures { option_map (λ v. value_of v.now.value) result ≡ model.lookup name.now self.now }
    {
        let Some(value) = find(self.shared.as_ref(), name) else {
            return find(&self.added, name);
        };
        match find(&self.newer, name) {
            Some(newer) => Some(newer),
            None => Some(value),
        }
    }

    /// The name at a place, with its value.
    pub(crate) fn entry(&self, place: usize) -> (&RcStr, &Rc<Value>)
        requires { place < length self.now }
        ensures { slice_get self.now place
            ≡ Some (rc_str_bytes result.0.now, value_of result.1.now.value) }
    {
        let many = self.shared.as_ref().len();
        if place >= many {
            let Some(entry) = self.added.get_index(place - many) else {
                unreachable!();
            };
            return entry;
        }
        let Some((name, value)) = self.shared.as_ref().get_index(place) else {
            unreachable!();
        };
        match find(&self.newer, name.as_str()) {
            Some(newer) => (name, newer),
            None => (name, value),
        }
    }

    /// Binds a name: one that is bound keeps its place, another goes last.
    pub(crate) fn bind(&mut self, name: RcStr, value: Rc<Value>) -> Result<(), OutOfMemory>
        ensures ok { OnOk result (self.new
            ≡ model.bind (rc_str_bytes name) (value_of value.value) self.old) }
        ensures err { OnErr result (self.new ≡ self.old) }
    {
        if find(self.shared.as_ref(), name.as_str()).is_some() {
            insert(&mut self.newer, name, value)?;
            return Ok(());
        }
        insert(&mut self.added, name, value)?;
        Ok(())
    }

    /// Unbinds a name.
    pub(crate) fn unbind(&mut self, name: &str) -> Result<(), OutOfMemory>
        ensures ok { OnOk result (self.new ≡ model.unbind name.now self.old) }
        ensures holders { OnOk result (LosesHolder name.now self.old self.new) }
        ensures err { OnErr result (self.new ≡ self.old) }
    {
        if find(self.shared.as_ref(), name).is_some() {
            self.unbind_shared(name)?;
            return Ok(());
        }
        remove(&mut self.added, name);
        Ok(())
    }

    /// Unbinds an old name. All names are copied where there are newer layers, or versions share the old one: else their marks are given
    /// up.
    fn unbind_shared(&mut self, name: &str) -> Result<(), OutOfMemory>
        ensures ok { OnOk result (self.new ≡ model.unbind name.now self.old) }
        ensures err { OnErr result (self.new ≡ self.old) }
    {
        let is_own = self.shared.is_own();
        if self.newer.len() + self.added.len() > 0 || !is_own {
            let mut flat = self.flat()?;
            remove(&mut flat, name);
            self.hold(flat)?;
            return Ok(());
        }
        unbind(&mut self.shared, name)?;
        self.marks = Layer::Own(Vec::new(self.alloc));
        Ok(())
    }

    /// The old names with their newer values, in a map with room for all names.
    fn begin_flat(&self) -> Result<Names, OutOfMemory>
        ensures { IfOk result (λ m. names_of m.entries ≡ take (length m.entries) self.now) }
    {
        let mut flat = self.shared.as_ref().clone()?;
        put_newer(&mut flat, &self.newer)?;
        flat.reserve(self.added.len())?;
        Ok(flat)
    }

    /// The names in one map.
    fn flat(&self) -> Result<Names, OutOfMemory>
        ensures { IfOk result (λ m. names_of m.entries ≡ self.now) }
    {
        // proof: no name stands twice, by the invariant.
        let _ = &self.alloc;
        let mut flat = self.begin_flat()?;
        for i in flat.len()..self.len() {
            let (name, value) = self.entry(i);
            insert(&mut flat, name.clone()?, value.clone()?)?;
        }
        Ok(flat)
    }

    /// Makes these names the old ones, and the only ones.
    fn hold(&mut self, names: Names) -> Result<(), OutOfMemory>
        requires { AreDistinctNames (names_of names.entries) }
        ensures ok { OnOk result (self.new ≡ names_of names.entries) }
        ensures err { OnErr result (self.new ≡ self.old) }
    {
        let marks = Rc::new(self.alloc, marks_of(self.alloc, &names)?)?;
        self.shared = Layer::Shared(Rc::new(self.alloc, names)?);
        self.marks = Layer::Shared(marks);
        self.newer.clear();
        self.added.clear();
        Ok(())
    }

    /// Makes the old names the only layer where the others have more than this many.
    pub(crate) fn settle(&mut self, most: usize) -> Result<(), OutOfMemory>
        ensures { self.new ≡ self.old }
    {
        if self.newer.len() + self.added.len() <= most {
            return Ok(());
        }
        let flat = self.flat()?;
        self.hold(flat)
    }

    /// Makes the old names the only layer where the others are many for a table that is often copied.
    pub(crate) fn settle_early(&mut self) -> Result<(), OutOfMemory>
        ensures { self.new ≡ self.old }
    {
        let most = most_copied(self.shared.as_ref().len());
        self.settle(most)
    }

    /// Returns true only where a name of the newer layer has a value in the base.
    fn has_newer_holder(&self, base: Base) -> bool
        ensures { IsTrue result → IsTrue (model.is_held (base_of base) self.now) }
    {
        for i in (0..self.newer.len()).rev() {
            let Some((name, newer)) = self.newer.get_index(i) else {
                unreachable!();
            };
            if !lies_in(newer.as_ref(), base) {
                continue;
            }
            if let Some(value) = self.find(name.as_str()) {
                if lies_in(value.as_ref(), base) {
                    return true;
                }
            }
        }
        false
    }

    /// Whether some bound value lies in the base, name by name.
    fn has_holder(&self, base: Base) -> bool
        ensures { result ≡ model.is_held (base_of base) self.now }
    {
        for i in 0..self.len() {
            let (_, value) = self.entry(i);
            if lies_in(value.as_ref(), base) {
                return true;
            }
        }
        false
    }

    /// Whether some bound value lies in the base. A name is looked up where a value of an older layer lies in it, or one of the newer.
    pub(crate) fn is_held(&self, base: Base) -> bool
        ensures { result ≡ model.is_held (base_of base) self.now }
    {
        if is_held(&self.added, base) {
            return true;
        }
        if is_held(&self.newer, base) {
            return self.has_newer_holder(base) || self.has_holder(base);
        }
        let marks = self.marks.as_ref().as_slice();
        is_held_below(self.shared.as_ref(), &self.newer, marks, base)
    }

    /// Whether some bound value lies in a base of the label.
    pub(crate) fn is_label_held(&self, label: u64) -> bool
        ensures { IsFalse result ↔ ((b : values.Base) → b.label ≡ label
            → model.is_held b self.now ≡ false) }
    {
        for i in 0..self.len() {
            let (_, value) = self.entry(i);
            if lies_in_label(value.as_ref(), label) {
                return true;
            }
        }
        false
    }

    /// Takes out the bases that some bound value lies in, by one pass over the names.
    pub(crate) fn drop_held(&self, bases: &mut Bases)
        ensures less { index_map_len bases.new ≤ index_map_len bases.old }
        ensures left { (b : values.Base) → is_base_among (bases_of bases.new.entries) b
            ≡ (is_base_among (bases_of bases.old.entries) b && not (model.is_held b self.now)) }
    {
        for i in 0..self.len() {
            let (_, value) = self.entry(i);
            drop_base(bases, value.as_ref());
        }
    }

    /// The bases that some bound value lies in.
    pub(crate) fn held_bases(&self) -> Result<Bases, OutOfMemory>
        ensures { IfOk result (λ held. (b : values.Base)
            → is_base_among (bases_of held.entries) b ≡ model.is_held b self.now) }
    {
        let mut held = IndexMap::new(self.alloc);
        for i in 0..self.len() {
            let (_, value) = self.entry(i);
            note_base(&mut held, value.as_ref())?;
        }
        Ok(held)
    }
}
