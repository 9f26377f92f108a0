//! `literal`: the Python literal of an NPY header, with dtype, order and shape.
ghost use Rattle.std.specs.Prelude.{◌≡◌, ◌++◌, ◌∷◌, List, ℕ, true, false, IfOk, OnOk};
ghost use Rattle.nd_model.specs.Formats.NpyWriting as model;
ghost use Rattle.nd_types.specs.Fields.{field_of, fields_of};
ghost use Rattle.nd_types.specs.Kinds.{kind_of};
ghost use Rattle.nd_types.specs.Types.{type_of};
ghost use Rattle.nd_npy.specs.Writing.Items.{items_left};

use crate::writing::items::{push_comma, push_number, push_text};
use nd_types::{Elem, ElemType, Field, Kind};
use std::alloc::{AllocError, Global};

fn kind_letter(kind: Kind) -> &'static str
    ensures { result.now ≡ model.kind_letter (kind_of kind) }
{
    match kind {
        Kind::Bool => "b",
        Kind::I8 | Kind::I16 | Kind::I32 | Kind::I64 => "i",
        Kind::U8 | Kind::U16 | Kind::U32 | Kind::U64 => "u",
    }
}

// The mark of the byte order, `|` for one byte.
fn order_mark(elem: Elem) -> &'static str
    ensures { result.now ≡ model.order_mark elem }
{
    if elem.size() == 1 {
        "|"
    } else if elem.big() {
        ">"
    } else {
        "<"
    }
}

// The array-protocol type string, such as `<i4`.
fn push_element(out: &mut Vec<u8>, elem: Elem) -> Result<(), AllocError>
    ensures { OnOk result (out.new.items ≡ out.old.items ++ model.element_text elem) }
{
    push_text(out, order_mark(elem))?;
    push_text(out, kind_letter(elem.kind()))?;
    push_number(out, elem.size())
}

fn push_quoted_element(out: &mut Vec<u8>, elem: Elem) -> Result<(), AllocError>
    ensures { OnOk result (out.new.items ≡ out.old.items ++ model.quote (model.element_text
        elem)) }
{
    push_text(out, "'")?;
    push_element(out, elem)?;
    push_text(out, "'")
}

// The name and the type string of a field.
fn push_pair(out: &mut Vec<u8>, name: &str, elem: Elem) -> Result<(), AllocError>
    ensures { OnOk result (out.new.items ≡ out.old.items ++ model.pair_text name.now
        (model.element_text elem)) }
{
    push_text(out, "('")?;
    push_text(out, name)?;
    push_text(out, "', ")?;
    push_quoted_element(out, elem)?;
    push_text(out, ")")
}

// Appends `count` pad bytes as an item of a list, if there are any. Returns whether the next item
// is the first one.
fn push_pads(out: &mut Vec<u8>, is_first: bool, count: u64) -> Result<bool, AllocError>
    ensures { IfOk result (λ first. (rest : List (List ℕ))
        → out.new.items ++ items_left first rest
        ≡ out.old.items ++ items_left is_first (model.pad_pairs count ++ rest)) }
{
    if count == 0 {
        return Ok(is_first);
    }
    push_comma(out, is_first)?;
    push_text(out, "('', '|V")?;
    push_number(out, count)?;
    push_text(out, "')")?;
    Ok(false)
}

// A field as an item of a list.
fn push_field(out: &mut Vec<u8>, is_first: bool, field: &Field) -> Result<(), AllocError>
    ensures { OnOk result ((rest : List (List ℕ)) → out.new.items ++ items_left false rest
        ≡ out.old.items ++ items_left is_first (model.field_pair (field_of field.now) ∷ rest)) }
{
    push_comma(out, is_first)?;
    push_pair(out, &field.name, field.elem)
}

// The fields of a structure of `size` bytes, with the pad bytes before and behind them.
fn push_fields(out: &mut Vec<u8>, fields: &[Field], size: u64) -> Result<(), AllocError>
    ensures { OnOk result (out.new.items ≡ out.old.items ++ items_left true (model.field_pairs 0
        size (fields_of fields.now))) }
{
    let mut place = 0;
    let mut is_first = true;
    for field in fields {
        let is_next_first = push_pads(out, is_first, u64::from(field.at).saturating_sub(place))?;
        push_field(out, is_next_first, field)?;
        is_first = false;
        place = u64::from(field.at) + field.elem.size();
    }
    let _is_first = push_pads(out, is_first, size.saturating_sub(place))?;
    Ok(())
}

fn push_descr(out: &mut Vec<u8>, elem: &ElemType) -> Result<(), AllocError>
    ensures { OnOk result (out.new.items ≡ out.old.items ++ model.descr_text (type_of elem.now)) }
{
    match elem {
        ElemType::One(elem) => push_quoted_element(out, *elem),
        ElemType::Rec(structure) => {
            push_text(out, "[")?;
            push_fields(out, structure.fields(), u64::from(structure.size()))?;
            push_text(out, "]")
        }
    }
}

// The tuple of a shape. One number has a comma behind it.
fn push_tuple(out: &mut Vec<u8>, numbers: &[u64]) -> Result<(), AllocError>
    ensures { OnOk result (out.new.items ≡ out.old.items ++ model.tuple_text numbers.now) }
{
    push_text(out, "(")?;
    for (index, number) in numbers.iter().enumerate() {
        push_comma(out, index == 0)?;
        push_number(out, *number)?;
    }
    push_text(out, if numbers.len() == 1 { ",)" } else { ")" })
}

/// Returns the literal of the header of an array with this dtype and shape, in UTF-8. For `<i2` and
/// (2,) it is:
///
/// ```text
/// {'descr': '<i2', 'fortran_order': False, 'shape': (2,), }
/// ```
pub fn literal(alloc: Global, elem: &ElemType, shape: &[u64]) -> Result<Vec<u8>, AllocError>
    ensures { IfOk result (λ v. v.items ≡ model.literal (type_of elem.now) shape.now) }
{
    let mut out = Vec::new(alloc);
    push_text(&mut out, "{'descr': ")?;
    push_descr(&mut out, elem)?;
    push_text(&mut out, ", 'fortran_order': False, 'shape': ")?;
    push_tuple(&mut out, shape)?;
    push_text(&mut out, ", }")?;
    Ok(out)
}
