//! `write_npy` and `write_elements`: an array as the bytes of an NPY file.
ghost use Rattle.std.specs.Prelude.{◌≡◌, ◌++◌, map, IfOk};
ghost use Rattle.nd_model.specs.Arrays.Content.{content_at};
ghost use Rattle.nd_model.specs.Formats.NpyWriting as model;
ghost use Rattle.nd_types.specs.Types.{type_of};

use crate::writing::header::front;
use crate::writing::plain::plain_bytes;
use nd_convert::conversion::copy_elements;
use nd_types::ElemType;
use nd_view::View;
use std::alloc::{AllocError, Global};

// The header and the elements of a file, joined.
fn join(alloc: Global, front: &[u8], elements: &[u8]) -> Result<Vec<u8>, AllocError>
    ensures { IfOk result (λ v. v.items ≡ front.now ++ elements.now) }
{
    let mut file = Vec::with_capacity(alloc, front.len() + elements.len())?;
    file.extend_from_slice(front)?;
    file.extend_from_slice(elements)?;
    Ok(file)
}

/// Returns the NPY file of an array whose elements have the bytes `elements` in C order (NumPy's
/// description of the format). The version is 1.0, or 3.0 where the name of a field has a character
/// past U+00FF.
pub fn write_elements(
    alloc: Global,
    elem: &ElemType,
    shape: &[u64],
    elements: &[u8],
) -> Result<Vec<u8>, AllocError>
    ensures { IfOk result (λ file. file.items
        ≡ model.npy_front (type_of elem.now) shape.now ++ elements.now) }
{
    let front = front(alloc, elem, shape)?;
    join(alloc, &front, elements)
}

/// Returns the NPY file of an array, its elements in C order. A Boolean is written as 0 or 1, and
/// pad bytes as 0. A byte past the end of the block reads as 0.
///
/// The file of `[1 2]` as `<i2` has 132 bytes: 128 before the elements, which are `1 0 2 0`.
pub fn write_npy(alloc: Global, view: &View, block: &[u8]) -> Result<Vec<u8>, AllocError>
    ensures { IfOk result (λ file. file.items ≡ model.npy_bytes view.now.element view.now.shape
        (map (content_at view.now.element block.now) view.now.places)) }
{
    // proof: the number of elements is bounded, by the clause of count().
    let _count = view.count();
    if let Some(elements) = plain_bytes(view, block) {
        return write_elements(alloc, view.elem(), view.shape(), elements);
    }
    let elements = copy_elements(alloc, view, block)?;
    write_elements(alloc, view.elem(), view.shape(), elements.as_slice())
}
