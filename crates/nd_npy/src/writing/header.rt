//! `front`: what stands before the elements of an NPY file: magic bytes, version, the header's
//! length, the header.
ghost use Rattle.std.specs.Prelude.{◌≡◌, ◌++◌, ◌+◌, ◌<◌, ◌^◌, length, replicate, IfOk, OnOk};
ghost use Rattle.nd_model.specs.Formats.NpyWriting as model;
ghost use Rattle.nd_types.specs.Types.{type_of};

use crate::writing::items::push_text;
use crate::writing::literal::literal;
use nd_block::push_bytes;
use nd_types::{Elem, ElemType, Kind};
use std::alloc::{AllocError, Global};

const MAGIC: &[u8] = b"\x93NUMPY";

const MULTIPLE: usize = 64;

// Whether a text in UTF-8 has a character past U+00FF, which begins with a byte of 196 or more.
fn is_past_latin(text: &[u8]) -> bool
    ensures { result ≡ model.is_past_latin text.now }
{
    for byte in text {
        if *byte >= 196 {
            return true;
        }
    }
    false
}

// Appends a text in UTF-8 as Latin-1. All its characters must be at most U+00FF.
fn push_latin(out: &mut Vec<u8>, text: &[u8]) -> Result<(), AllocError>
    ensures { OnOk result (out.new.items ≡ out.old.items ++ model.latin_bytes 0 text.now) }
{
    let mut before = 0;
    for byte in text {
        if *byte != 194 && *byte != 195 {
            out.push(latin_byte(before, *byte))?;
        }
        before = *byte;
    }
    Ok(())
}

fn latin_byte(before: u8, byte: u8) -> u8
    ensures { result ≡ model.latin_byte before byte }
{
    if before == 195 {
        byte.wrapping_add(64)
    } else {
        byte
    }
}

// The literal in the encoding of the version.
fn encode(alloc: Global, is_wide: bool, text: Vec<u8>) -> Result<Vec<u8>, AllocError>
    ensures { IfOk result (λ v. v.items ≡ model.encode is_wide text.items) }
{
    if is_wide {
        return Ok(text);
    }
    let mut latin = Vec::with_capacity(alloc, text.len())?;
    push_latin(&mut latin, &text)?;
    Ok(latin)
}

// The dtype of the header's length: `<u4` in version 3.0, `<u2` in 1.0.
fn length_elem(is_wide: bool) -> Elem
    ensures { result ≡ model.length_element is_wide }
{
    Elem::little(if is_wide { Kind::U32 } else { Kind::U16 })
}

// The least number of spaces that put the elements at a multiple of 64 bytes, behind `count` bytes
// and a newline.
fn spaces(count: usize) -> usize
    requires { count < 2 ^ 63 + 64 }
    ensures { result ≡ model.spaces count }
{
    (MULTIPLE - (count + 1) % MULTIPLE) % MULTIPLE
}

fn push_spaces(out: &mut Vec<u8>, count: usize) -> Result<(), AllocError>
    ensures { OnOk result (out.new.items ≡ out.old.items ++ replicate count 32) }
{
    for _space in 0..count {
        out.push(b' ')?;
    }
    Ok(())
}

// Appends spaces and a newline to the literal, so that the elements are aligned.
fn push_end(header: &mut Vec<u8>, is_wide: bool) -> Result<(), AllocError>
    ensures { OnOk result (header.new.items ≡ model.header_of is_wide header.old.items) }
{
    let front = MAGIC.len() + 2 + length_elem(is_wide).size() as usize;
    push_spaces(header, spaces(front + header.len()))?;
    header.push(b'\n')?;
    Ok(())
}

/// Returns all that stands before the elements of an array with this dtype and shape. Its length is
/// a multiple of 64: 128 bytes for `<i2` and (2,).
#[tactic(auto, unfolding(nd_model::specs::Formats::NpyWriting::npy_front))]
pub fn front(alloc: Global, elem: &ElemType, shape: &[u64]) -> Result<Vec<u8>, AllocError>
    ensures { IfOk result (λ v. v.items ≡ model.npy_front (type_of elem.now) shape.now) }
{
    let text = literal(alloc, elem, shape)?;
    let is_wide = is_past_latin(&text);
    let mut header = encode(alloc, is_wide, text)?;
    push_end(&mut header, is_wide)?;
    let mut out = Vec::new(alloc);
    out.extend_from_slice(MAGIC)?;
    out.extend_from_slice(if is_wide { &[3, 0] } else { &[1, 0] })?;
    push_bytes(&mut out, length_elem(is_wide), header.len() as i128)?;
    out.extend_from_slice(&header)?;
    Ok(out)
}
