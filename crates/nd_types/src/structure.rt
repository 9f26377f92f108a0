//! `RecType`: a structured dtype, several numbers in one element.
ghost use Rattle.std.specs.Prelude.{◌≡◌, ◌+◌, ◌<◌, ◌≤◌, length, IsTrue, ◌↔◌};
ghost use Rattle.std.specs.List.{All};
ghost use Rattle.nd_model.specs.Arrays.Element.{size_of};
ghost use Rattle.nd_model.specs.Arrays.Structure as structure;
ghost use Rattle.nd_types.specs.Fields.{field_of, fields_of};

use crate::field::Field;
use crate::name::is_field_name;
use std::marker::Model;

/// A structured dtype: its fields in the order of their offsets, and its itemsize with pad bytes.
///
/// It has 1 to 256 fields, which do not overlap and lie within the itemsize, at most 65,536 bytes.
/// Their names are distinct, as `is_field_name` wants them. A clause sees it as the definition's
/// fields and size.
#[derive(Drop)]
pub struct RecType {
    fields: Vec<Field>,
    size: u32,
}

impl Model for RecType {
    ghost use Rattle.std.specs.Prelude.{List, ℕ, IsTrue};
    ghost use Rattle.nd_model.specs.Arrays.View.{Field};
    ghost use Rattle.nd_model.specs.Arrays.Structure.{is_structure};
    ghost use Rattle.nd_types.specs.Fields.{fields_of};

    ghost Value = { List Field × ℕ };

    ghost view = { λ r. (fields_of r.fields.items, r.size) };

    ghost invariant = { λ r. IsTrue (is_structure (fields_of r.fields.items) r.size) };
}

fn are_named(fields: &[Field]) -> bool
    ensures { result ≡ structure.are_named (fields_of fields.now) }
{
    for field in fields {
        if !is_field_name(&field.name) {
            return false;
        }
    }
    true
}

fn has_name(name: &str, fields: &[Field]) -> bool
    ensures { result ≡ structure.has_name name.now (fields_of fields.now) }
{
    for field in fields {
        if name == field.name.as_str() {
            return true;
        }
    }
    false
}

fn are_distinct(fields: &[Field]) -> bool
    ensures { result ≡ structure.are_distinct (fields_of fields.now) }
{
    for (index, field) in fields.iter().enumerate() {
        if has_name(&field.name, &fields[index + 1..]) {
            return false;
        }
    }
    true
}

fn are_apart(fields: &[Field], size: u32) -> bool
    ensures { result ≡ structure.are_apart 0 (fields_of fields.now) size }
{
    let mut place = 0;
    for field in fields {
        if u64::from(field.at) < place {
            return false;
        }
        place = u64::from(field.at) + field.elem.size();
    }
    place <= u64::from(size)
}

fn is_structure(fields: &[Field], size: u32) -> bool
    ensures { result ≡ structure.is_structure (fields_of fields.now) size }
{
    !fields.is_empty()
        && fields.len() <= 256
        && size <= 65536
        && are_apart(fields, size)
        && are_named(fields)
        && are_distinct(fields)
}

fn are_same(these: &[Field], those: &[Field]) -> bool
    ensures { IsTrue result ↔ (fields_of these.now ≡ fields_of those.now) }
{
    if these.len() != those.len() {
        return false;
    }
    for (index, field) in these.iter().enumerate() {
        if !field.is_same(&those[index]) {
            return false;
        }
    }
    true
}

impl RecType {
    ghost use Rattle.nd_types.specs.Structures.{made};

    /// Returns the structured dtype of these fields and this itemsize in bytes, or `None` where a
    /// rule of [`RecType`] is broken.
    ///
    /// Fields `a` of `<i4` at 0 and `b` of `<u2` at 4 with itemsize 8 have two pad bytes behind
    /// them. With itemsize 5, or with `b` at 3, there is no such dtype.
    pub fn new(fields: Vec<Field>, size: u32) -> Option<RecType>
        ensures { result ≡ made (fields_of fields.items) size }
    {
        if is_structure(&fields, size) {
            Some(RecType { fields, size })
        } else {
            None
        }
    }

    /// Returns the fields, in the order of their offsets.
    pub fn fields(&self) -> &[Field]
        ensures value { fields_of result.now ≡ self.now.0 }
        ensures inside { All (λ f. f.at + size_of f.element.kind ≤ self.now.1) self.now.0 }
    {
        self.fields.as_slice()
    }

    /// Returns the itemsize in bytes, pad bytes among it.
    pub fn size(&self) -> u32
        ensures value { result ≡ self.now.1 }
        ensures range { (0 < result) × (result ≤ 65536) }
    {
        self.size
    }

    /// Returns whether both have the same fields, in the same order, and the same itemsize.
    pub fn is_same(&self, other: &RecType) -> bool
        ensures { IsTrue result ↔ (self.now ≡ other.now) }
    {
        are_same(&self.fields, &other.fields) && self.size == other.size
    }
}
