//! `push_element`: the byte offsets of the bytes of an element.
ghost use Rattle.std.specs.Prelude.{◌≡◌, ◌+◌, ◌≤◌, ◌^◌, ◌++◌, OnOk};
ghost use Rattle.std.specs.List.{All};
ghost use Rattle.nd_model.specs.Arrays.Element.{size_of};
ghost use Rattle.nd_model.specs.Arrays.Tuple.{count_up};
ghost use Rattle.nd_model.specs.Arrays.View.{item_size, element_places, field_places};
ghost use Rattle.nd_types.specs.Fields.{fields_of};
ghost use Rattle.nd_types.specs.Types.{type_of};

use nd_types::{ElemType, Field};
use std::alloc::AllocError;

// Appends `size` byte offsets from `first` on.
fn push_run(places: &mut Vec<u64>, first: u64, size: u64) -> Result<(), AllocError>
    requires { first + size ≤ 2 ^ 64 }
    ensures { OnOk result (places.new.items ≡ places.old.items ++ count_up first size) }
{
    for at in 0..size {
        places.push(first + at)?;
    }
    Ok(())
}

// Appends the byte offsets of the fields of a structure that begins at byte offset `place`.
fn push_fields(places: &mut Vec<u64>, fields: &[Field], place: u64) -> Result<(), AllocError>
    requires { All (λ f. place + (f.at + size_of f.element.kind) ≤ 2 ^ 64) (fields_of fields.now) }
    ensures { OnOk result (places.new.items ≡ places.old.items ++ field_places place
        (fields_of fields.now)) }
{
    for field in fields {
        let size = field.elem.size();
        push_run(places, place + u64::from(field.at), size)?;
    }
    Ok(())
}

/// Appends the byte offsets of the element that begins at `place`, without pad bytes.
pub(crate) fn push_element(
    places: &mut Vec<u64>,
    elem: &ElemType,
    place: u64,
) -> Result<(), AllocError>
    requires { place + item_size (type_of elem.now) ≤ 2 ^ 64 }
    ensures { OnOk result (places.new.items ≡ places.old.items ++ element_places
        (type_of elem.now) place) }
{
    match elem {
        ElemType::One(elem) => push_run(places, place, elem.size()),
        ElemType::Rec(structure) => push_fields(places, structure.fields(), place),
    }
}
