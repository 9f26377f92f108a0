//! `canonical_bytes`: the bytes of elements as they are shown, with Booleans 0 or 1 and pad bytes
//! 0.

ghost use Rattle.std.specs.Prelude.{◌≡◌, ◌+◌, ◌≤◌, ◌^◌, drop, replicate, slice_index, IfOk, OnOk};
ghost use Rattle.nd_model.specs.Arrays.Content.{number_at};
ghost use Rattle.nd_model.specs.Arrays.Element.{IsValue};
ghost use Rattle.nd_model.specs.Arrays.View.{item_size};
ghost use Rattle.nd_types.specs.Types.{type_of};
ghost use Rattle.nd_element.specs.Elements as elements;
ghost use Rattle.nd_element.specs.Elements.{Appends, canonical_at, canonical_structure};

use nd_block::{RawBlock, push_bytes, store_at, value_at};
use nd_types::{Elem, ElemType, RecType};
use nd_view::View;
use std::alloc::{AllocError, Global};

// The byte at a byte offset, 0 past the end.
fn byte_at(bytes: &[u8], place: usize) -> u8
    ensures { result ≡ slice_index bytes.now place }
{
    bytes.get(place).copied().unwrap_or(0)
}

// The bytes from a byte offset on, none past the end.
fn bytes_from(bytes: &[u8], place: usize) -> &[u8]
    ensures { result.now ≡ drop place bytes.now }
{
    bytes.get(place..).unwrap_or(&[])
}

// The number at a byte offset, where some of its bytes lie past the end and read as 0.
#[inline(never)]
fn number_past(bytes: &[u8], place: usize, elem: Elem) -> i128
    ensures value { result ≡ number_at elem bytes.now place }
    ensures in_range { IsValue elem.kind result }
{
    let rest = bytes_from(bytes, place);
    let run = [
        byte_at(rest, 0),
        byte_at(rest, 1),
        byte_at(rest, 2),
        byte_at(rest, 3),
        byte_at(rest, 4),
        byte_at(rest, 5),
        byte_at(rest, 6),
        byte_at(rest, 7),
    ];
    value_at(&run, 0, elem)
}

// The number at a byte offset. A byte past the end reads as 0.
fn number(bytes: &[u8], place: usize, elem: Elem) -> i128
    ensures value { result ≡ number_at elem bytes.now place }
    ensures in_range { IsValue elem.kind result }
{
    let size = elem.size() as usize;
    if size <= bytes.len() && place <= bytes.len() - size {
        value_at(bytes, place, elem)
    } else {
        number_past(bytes, place, elem)
    }
}

/// Returns the number of the element at a byte offset. A byte past the end reads as 0: of the bytes
/// `1 2`, `<u4` at 1 is 2.
pub fn number_in(bytes: &[u8], place: u64, elem: Elem) -> i128
    ensures { result ≡ number_at elem bytes.now place }
{
    number(bytes, place as usize, elem)
}

/// Writes the structure at a byte offset over zeros, so that its pad bytes are 0. A byte past the
/// end reads as 0.
pub fn write_structure(out: &mut [u8], bytes: &[u8], place: u64, structure: &RecType)
    requires zeros { out.old ≡ replicate structure.now.1 0 }
    requires end { place + structure.now.1 ≤ 2 ^ 64 }
    ensures { out.new ≡ canonical_structure structure.now bytes.now place }
{
    // proof: the itemsize is bounded, by the clause of size().
    let _size = structure.size();
    for field in structure.fields() {
        let value = number(bytes, place as usize + field.at as usize, field.elem);
        store_at(out, field.at as usize, field.elem, value);
    }
}

// The structure at a byte offset, with pad bytes 0.
fn structure_at(
    alloc: Global,
    bytes: &[u8],
    place: usize,
    structure: &RecType,
) -> Result<RawBlock, AllocError>
    requires { place + structure.now.1 ≤ 2 ^ 64 }
    ensures { IfOk result (λ b. b ≡ canonical_structure structure.now bytes.now place) }
{
    let mut block = RawBlock::zeros(alloc, structure.size() as usize)?;
    write_structure(block.as_mut_slice(), bytes, place as u64, structure);
    Ok(block)
}

// Appends the bytes of the element at a byte offset.
fn push_canonical(
    alloc: Global,
    all: &mut Vec<u8>,
    bytes: &[u8],
    at: usize,
    elem: &ElemType,
) -> Result<(), AllocError>
    requires { at + item_size (type_of elem.now) ≤ 2 ^ 64 }
    ensures { OnOk result (Appends (canonical_at (type_of elem.now) bytes.now at) all.old all.new) }
{
    match elem {
        ElemType::One(elem) => push_bytes(all, *elem, number(bytes, at, *elem)),
        ElemType::Rec(structure) => {
            let block = structure_at(alloc, bytes, at, structure)?;
            all.extend_from_slice(block.as_slice())
        }
    }
}

/// Returns the bytes of a view's elements in C order, in the view's own dtype. A Boolean is 0 or 1,
/// and pad bytes are 0: of the Booleans `2 0` these are `1 0`. A byte past the end of the block
/// reads as 0.
pub fn canonical_bytes(alloc: Global, view: &View, bytes: &[u8]) -> Result<Vec<u8>, AllocError>
    ensures { IfOk result (λ v. v.items ≡ elements.canonical_bytes view.now bytes.now) }
{
    let mut all = Vec::new(alloc);
    let mut runs = view.runs();
    while let Some(run) = runs.next() {
        for number in 0..run.count() {
            push_canonical(
                alloc,
                &mut all,
                bytes,
                run.place(number) as usize,
                view.elem(),
            )?;
        }
    }
    Ok(all)
}
