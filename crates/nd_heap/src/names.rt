//! `Names`: one layer of names in order with their values, which versions share.

ghost use Rattle.std.specs.Prelude.{◌≡◌, ◌≤◌, ◌↔◌, ◌%◌, IfOk, IsFalse, IsTrue, OnErr, OnOk, false, length, option_map};
ghost use Rattle.std.specs.Rc.{rc_str_bytes};
ghost use Rattle.nd_model.specs.Cells.Session as model;
ghost use Rattle.nd_model.specs.Arrays.Value as values;
ghost use Rattle.nd_heap.specs.Layers.{AreMarked, LieElsewhere, overridden};
ghost use Rattle.nd_heap.specs.Sharing.{held_in};
ghost use Rattle.nd_heap.specs.Values.{base_of, value_of, names_of};

use crate::layer::Layer;
use crate::value::{Base, Value};
use indexmap::IndexMap;
use nd_memory::OutOfMemory;
use std::alloc::Global;
use std::rc::{Rc, RcStr};

/// A copy of the names shares each name's text and its value.
pub(crate) type Names = IndexMap<RcStr, Rc<Value>>;

/// How many marks are tested at once.
const ROW: usize = 64;

/// Binds a name: one that is bound keeps its place, another goes last.
pub(crate) fn insert(names: &mut Names, name: RcStr, value: Rc<Value>) -> Result<(), OutOfMemory>
    ensures ok { OnOk result (names_of names.new.entries ≡ model.bind (rc_str_bytes name)
        (value_of value.value) (names_of names.old.entries)) }
    ensures err { OnErr result (names_of names.new.entries ≡ names_of names.old.entries) }
{
    names.insert(name, value)?;
    Ok(())
}

/// Takes a name out.
pub(crate) fn remove(names: &mut Names, name: &str)
    ensures { names_of names.new.entries ≡ model.unbind name.now (names_of names.old.entries) }
{
    let _ = names.get_index_of(name);
    names.shift_remove(name);
}

/// Takes a name out. Names that are shared are copied first.
fn unbind_copied(names: &mut Rc<Names>, name: &str) -> Result<(), OutOfMemory>
    ensures ok { OnOk result (names_of names.new.value.entries
        ≡ model.unbind name.now (names_of names.old.value.entries)) }
    ensures err { OnErr result (names_of names.new.value.entries
        ≡ names_of names.old.value.entries) }
{
    let own = Rc::make_mut(names)?;
    remove(own, name);
    Ok(())
}

/// Takes a name out of a layer.
pub(crate) fn unbind(names: &mut Layer<Names>, name: &str) -> Result<(), OutOfMemory>
    ensures ok { OnOk result (names_of (held_in names.new).entries
        ≡ model.unbind name.now (names_of (held_in names.old).entries)) }
    ensures err { OnErr result (names_of (held_in names.new).entries
        ≡ names_of (held_in names.old).entries) }
{
    match names {
        Layer::Own(own) => remove(own, name),
        Layer::Shared(shared) => unbind_copied(shared, name)?,
    }
    Ok(())
}

/// The value of a name.
pub(crate) fn find<'a>(names: &'a Names, name: &str) -> Option<&'a Rc<Value>>
    ensures { option_map (λ v. value_of v.now.value) result
        ≡ model.lookup name.now (names_of names.now.entries) }
{
    names.get(name)
}

/// Gives names their newer values. A newer value of a name that is not there is passed over.
pub(crate) fn put_newer(names: &mut Names, newer: &Names) -> Result<(), OutOfMemory>
    ensures { OnOk result (names_of names.new.entries
        ≡ overridden (names_of newer.now.entries) (names_of names.old.entries)) }
{
    // proof: no name stands twice.
    let _ = (names.get_index_of(""), newer.get_index_of(""));
    for i in 0..newer.len() {
        let Some((name, value)) = newer.get_index(i) else {
            unreachable!();
        };
        if find(names, name.as_str()).is_none() {
            continue;
        }
        insert(names, name.clone()?, value.clone()?)?;
    }
    Ok(())
}

/// The end of a label, which stands beside each value that lies in one of its bases.
fn mark_of(label: u64) -> u32
    ensures { result ≡ label % 4294967296 }
{
    (label % (1 << 32)) as u32
}

/// The mark of the base that a value lies in, any mark where it lies in none.
fn value_mark(value: &Value) -> u32
    ensures { (b : values.Base) → IsTrue (values.lies_in b (value_of value.now))
        → b.label % 4294967296 ≡ result }
{
    match value {
        Value::Number(_) => 0,
        Value::Array(array) | Value::Row(array) => mark_of(array.base.label),
    }
}

/// The marks of names in order, by which a base is looked for among them.
pub(crate) fn marks_of(alloc: Global, names: &Names) -> Result<Vec<u32>, OutOfMemory>
    ensures { IfOk result (λ marks. AreMarked (names_of names.now.entries) marks.items) }
{
    let mut marks = Vec::with_capacity(alloc, names.len())?;
    for i in 0..names.len() {
        let Some((_, value)) = names.get_index(i) else {
            unreachable!();
        };
        marks.push(value_mark(value.as_ref()))?;
    }
    Ok(marks)
}

/// Whether one of the marks from a place up to another is this one. All are read: to stop at the first takes longer.
fn has_mark(marks: &[u32], from: usize, to: usize, mark: u32) -> bool
    requires { to ≤ length marks.now }
    ensures { IsFalse result → LieElsewhere marks.now mark from to }
{
    let mut is_there = false;
    for i in from..to {
        is_there |= marks[i] == mark;
    }
    is_there
}

/// Goes back from a place over rows of marks without this one, and tells how far.
fn skip_rows(marks: &[u32], end: usize, mark: u32) -> usize
    requires { end ≤ length marks.now }
    ensures within { result ≤ end }
    ensures elsewhere { LieElsewhere marks.now mark result end }
{
    let mut start = end;
    for _ in 0..end / ROW {
        if start < ROW || has_mark(marks, start - ROW, start, mark) {
            return start;
        }
        start -= ROW;
    }
    start
}

/// The place behind the last value in front of `end` that may lie in a base of this mark, 0 where there is none. Of a value without a mark
/// nothing is known.
fn behind_last(marks: &[u32], end: usize, mark: u32) -> usize
    ensures within { result ≤ end }
    ensures elsewhere { LieElsewhere marks.now mark result end }
{
    if end > marks.len() {
        return end;
    }
    let start = skip_rows(marks, end, mark);
    for i in (0..start).rev() {
        if marks[i] == mark {
            return i + 1;
        }
    }
    0
}

/// Whether the value lies in the base.
pub(crate) fn lies_in(value: &Value, base: Base) -> bool
    ensures { result ≡ values.lies_in (base_of base) (value_of value.now) }
{
    match value {
        Value::Number(_) => false,
        Value::Array(array) | Value::Row(array) => base == array.base,
    }
}

/// Whether some bound value lies in the base. The last names come first: a base that is new is theirs.
pub(crate) fn is_held(names: &Names, base: Base) -> bool
    ensures { result ≡ model.is_held (base_of base) (names_of names.now.entries) }
{
    for i in (0..names.len()).rev() {
        let Some((_, value)) = names.get_index(i) else {
            unreachable!();
        };
        if lies_in(value.as_ref(), base) {
            return true;
        }
    }
    false
}

/// Whether some value lies in the base whose name has no newer one, where no newer value lies in it.
/// Only values of the base's mark, and those behind the last mark, are looked at.
pub(crate) fn is_held_below(older: &Names, newer: &Names, marks: &[u32], base: Base) -> bool
    requires newer { model.is_held (base_of base) (names_of newer.now.entries) ≡ false }
    requires marks { AreMarked (names_of older.now.entries) marks.now }
    ensures { result ≡ model.is_held (base_of base)
        (overridden (names_of newer.now.entries) (names_of older.now.entries)) }
{
    let mark = mark_of(base.label);
    let mut behind = older.len();
    for _ in 0..older.len() {
        behind = behind_last(marks, behind, mark);
        if behind == 0 {
            return false;
        }
        let Some((name, value)) = older.get_index(behind - 1) else {
            unreachable!();
        };
        if lies_in(value.as_ref(), base) {
            if find(newer, name.as_str()).is_none() {
                return true;
            }
        }
        behind -= 1;
    }
    false
}

/// Whether the value lies in a base of the label.
pub(crate) fn lies_in_label(value: &Value, label: u64) -> bool
    ensures { IsFalse result ↔ ((b : values.Base) → b.label ≡ label
        → values.lies_in b (value_of value.now) ≡ false) }
{
    match value {
        Value::Number(_) => false,
        Value::Array(array) | Value::Row(array) => array.base.label == label,
    }
}
