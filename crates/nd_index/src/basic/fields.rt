//! `field`: the view of a field of a structured array.
ghost use Rattle.std.specs.Prelude.{◌≡◌, IfOk};
ghost use Rattle.std.specs.Option.{option_map};
ghost use Rattle.nd_model.specs.Indexing.Selecting.{field_in, field_view};
ghost use Rattle.nd_types.specs.Fields.{field_of, fields_of};

use nd_types::{ElemType, Field};
use nd_view::View;
use std::alloc::{AllocError, Global};

// The field of this name.
fn find<'f>(name: &str, fields: &'f [Field]) -> Option<&'f Field>
    ensures { option_map (λ f. field_of f.now) result ≡ field_in name.now (fields_of fields.now) }
{
    for field in fields {
        if name == field.name.as_str() {
            return Some(field);
        }
    }
    None
}

/// Returns the view of a field (`x['name']`), or `None` where the elements are no structures or
/// have no such field.
///
/// In a table of `[('id', '<i4'), ('level', 'u1')]`, the field `level` begins at byte offset 4
/// and has the table's strides, of 5 bytes.
pub fn field(alloc: Global, view: &View, name: &str) -> Result<Option<View>, AllocError>
    ensures { IfOk result (λ found. found ≡ field_view name.now view.now) }
{
    let ElemType::Rec(structure) = view.elem() else {
        return Ok(None);
    };
    let Some(field) = find(name, structure.fields()) else {
        return Ok(None);
    };
    let fielded = View::from_strides(
        alloc,
        ElemType::One(field.elem),
        view.shape(),
        view.held_strides(),
        view.offset() + u64::from(field.at),
        view.writable(),
    )?;
    Ok(Some(fielded))
}
