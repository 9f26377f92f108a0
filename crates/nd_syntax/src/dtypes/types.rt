//! `element_type`: the dtype that a statement writes, checked.

ghost use Rattle.std.specs.Prelude.{◌≡◌, ◌≤◌, length, map, string_bytes, IfOk};
ghost use Rattle.nd_model.specs.Arrays.Types as model;
ghost use Rattle.nd_syntax.specs.Trees.Calls.{dtype_of, field_type_of, type_name_of};
ghost use Rattle.nd_syntax.specs.Dtypes.Types.{Gives, GivesFields, are_all_named};

use crate::dtypes::fault::TypeFault;
use crate::trees::{DType, FieldType, TypeName};
use nd_types::{Elem, ElemType, Field, RecType, kind_named, parse_descr};
use std::alloc::Global;

/// The most fields of a structure.
const MOST_FIELDS: usize = 256;

// The dtype of a number by its name, or `None` where there is none.
fn element_named(name: &TypeName) -> Option<Elem>
    ensures { result ≡ model.element_named (type_name_of name.now) }
{
    match name {
        TypeName::Kind(kind) => Some(Elem::little(*kind)),
        TypeName::Text(text) => match kind_named(text.as_str()) {
            Some(kind) => Some(Elem::little(kind)),
            None => parse_descr(text.as_str()),
        },
    }
}

// Whether each field has a dtype. It takes no memory.
fn are_named(types: &[FieldType]) -> bool
    ensures { result ≡ are_all_named (map field_type_of types.now) }
{
    for field in types {
        if element_named(&field.type_name).is_none() {
            return false;
        }
    }
    true
}

// The fields, contiguous, and their bytes together.
fn fields_of(alloc: Global, types: &[FieldType]) -> Result<(Vec<Field>, u32), TypeFault>
    requires { length types.now ≤ 256 }
    ensures { GivesFields result (model.fields_from 0 (map field_type_of types.now)) }
{
    let mut fields = Vec::new(alloc);
    let mut at = 0;
    for field in types {
        let Some(elem) = element_named(&field.type_name) else {
            return Err(TypeFault::BadType);
        };
        let name = String::from_str(alloc, field.name.as_str())?;
        fields.push(Field { name, at, elem })?;
        at += elem.size() as u32;
    }
    Ok((fields, at))
}

// The structure of the fields.
fn structure_type(alloc: Global, types: &[FieldType]) -> Result<ElemType, TypeFault>
    ensures { Gives result
        (model.structure_type (model.fields_from 0 (map field_type_of types.now))) }
{
    if types.len() > MOST_FIELDS {
        return Err(TypeFault::BadType);
    }
    if !are_named(types) {
        return Err(TypeFault::BadType);
    }
    let (fields, size) = fields_of(alloc, types)?;
    let Some(structure) = RecType::new(fields, size) else {
        return Err(TypeFault::BadType);
    };
    let elem = ElemType::of_structure(alloc, structure)?;
    Ok(elem)
}

/// Returns the dtype that a statement writes: a number by its kind or array-protocol type string,
/// or a structure without pad bytes.
///
/// `'<i4'` has itemsize 4, and `[('a', np.int8), ('b', '<u2')]` has 3 (NumPy user guide,
/// "Structured arrays"). `BadType` for a text that names none, more than 256 fields, two of one
/// name, or a name that no field may have.
pub fn element_type(alloc: Global, dtype: &DType) -> Result<ElemType, TypeFault>
    ensures { Gives result (model.element_type (dtype_of dtype.now)) }
{
    match dtype {
        DType::Simple(name) => match element_named(name) {
            Some(elem) => Ok(ElemType::One(elem)),
            None => Err(TypeFault::BadType),
        },
        DType::Packed(types) => structure_type(alloc, types),
    }
}
