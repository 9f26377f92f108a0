//! `write_format`: writes a dtype as a format string of PEP 3118.
ghost use Rattle.std.specs.Prelude.{◌≡◌, ◌++◌, IfOk, OnOk, string_bytes};
ghost use Rattle.nd_model.specs.Formats.Format as model;
ghost use Rattle.nd_types.specs.Fields.{field_of, fields_of};
ghost use Rattle.nd_types.specs.Kinds.{kind_of};
ghost use Rattle.nd_types.specs.Types.{type_of};

use itoa::Buffer;
use nd_types::{Elem, ElemType, Field, Kind};
use std::alloc::{AllocError, Global};

fn kind_code(kind: Kind) -> &'static str
    ensures { result.now ≡ model.kind_code (kind_of kind) }
{
    match kind {
        Kind::Bool => "?",
        Kind::I8 => "b",
        Kind::I16 => "h",
        Kind::I32 => "i",
        Kind::I64 => "q",
        Kind::U8 => "B",
        Kind::U16 => "H",
        Kind::U32 => "I",
        Kind::U64 => "Q",
    }
}

fn order_mark(big: bool) -> &'static str
    ensures { result.now ≡ model.order_text big }
{
    if big { ">" } else { "<" }
}

fn push_element(text: &mut String, elem: Elem) -> Result<(), AllocError>
    ensures { OnOk result (string_bytes text.new ≡ string_bytes text.old ++ model.element_format
        elem) }
{
    if elem.size() > 1 {
        text.push_str(order_mark(elem.big()))?;
    }
    text.push_str(kind_code(elem.kind()))?;
    Ok(())
}

// Appends `count` pad bytes, if there are any.
fn push_pads(text: &mut String, count: u64) -> Result<(), AllocError>
    ensures { OnOk result (string_bytes text.new ≡ string_bytes text.old ++ model.pad_format
        count) }
{
    if count == 0 {
        return Ok(());
    }
    if count > 1 {
        text.push_str(Buffer::new().format(count))?;
    }
    text.push_str("x")?;
    Ok(())
}

fn push_field(text: &mut String, field: &Field) -> Result<(), AllocError>
    ensures { OnOk result (string_bytes text.new ≡ string_bytes text.old ++ model.field_format
        (field_of field.now)) }
{
    push_element(text, field.elem)?;
    text.push_str(":")?;
    text.push_str(&field.name)?;
    text.push_str(":")?;
    Ok(())
}

// Appends the fields of a structure of `size` bytes, with the pad bytes before and behind them.
fn push_fields(text: &mut String, fields: &[Field], size: u64) -> Result<(), AllocError>
    ensures { OnOk result (string_bytes text.new ≡ string_bytes text.old ++ model.fields_format 0
        size (fields_of fields.now)) }
{
    let mut place = 0;
    for field in fields {
        push_pads(text, u64::from(field.at).saturating_sub(place))?;
        push_field(text, field)?;
        place = u64::from(field.at) + field.elem.size();
    }
    push_pads(text, size.saturating_sub(place))
}

/// Returns the format string of a dtype (PEP 3118). A code of more than one byte has `<` or `>`
/// before it, and pad bytes have their count: `T{<i:a:<H:b:2x}`.
pub fn write_format(alloc: Global, elem: &ElemType) -> Result<String, AllocError>
    ensures { IfOk result (λ s. string_bytes s ≡ model.format_text (type_of elem.now)) }
{
    let mut text = String::new(alloc);
    match elem {
        ElemType::One(elem) => push_element(&mut text, *elem)?,
        ElemType::Rec(structure) => {
            text.push_str("T{")?;
            push_fields(&mut text, structure.fields(), u64::from(structure.size()))?;
            text.push_str("}")?;
        }
    }
    Ok(text)
}
