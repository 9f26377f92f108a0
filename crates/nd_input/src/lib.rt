//! [`Input`]: what a cell may load, a file or a buffer.
#![tactic(auto)]

ghost use Rattle.std.specs.Prelude.{◌≡◌, ◌↔◌, IfOk, IsTrue};
ghost use Rattle.nd_model.specs.Book.Book.{size_of_input};
ghost use Rattle.nd_input.specs.Sources.{source_of};

use nd_memory::OutOfMemory;
use std::alloc::Global;

/// What a cell may load: the bytes of an NPY file, or a strided buffer (PEP 3118).
#[derive(Drop)]
pub enum Input {
    Npy(Vec<u8>),
    /// Strides and the offset of the first element are counted in bytes.
    Buffer {
        format: String,
        itemsize: u64,
        shape: Vec<u64>,
        strides: Vec<i64>,
        offset: u64,
        bytes: Vec<u8>,
    },
}

impl Input {
    /// Returns the bytes that count towards the limit: its own, those of its format, and 8 for each
    /// length and stride.
    ///
    /// A buffer of 10 bytes of format `B`, shape (10,) and strides (1,) counts as 27.
    pub fn size(&self) -> u128
        ensures { result ≡ size_of_input (source_of self.now) }
    {
        match self {
            Input::Npy(bytes) => bytes.len() as u128,
            Input::Buffer {
                format,
                shape,
                strides,
                bytes,
                ..
            } => {
                let numbers = shape.len() as u128 + strides.len() as u128;
                bytes.len() as u128 + format.len() as u128 + 8 * numbers
            }
        }
    }

    /// Returns an equal input, with bytes of its own.
    pub fn try_clone(&self, alloc: Global) -> Result<Input, OutOfMemory>
        ensures { IfOk result (λ i. source_of i ≡ source_of self.now) }
    {
        match self {
            Input::Npy(bytes) => Ok(Input::Npy(Vec::from_slice(alloc, bytes)?)),
            Input::Buffer {
                format,
                itemsize,
                shape,
                strides,
                offset,
                bytes,
            } => Ok(Input::Buffer {
                format: String::from_str(alloc, format.as_str())?,
                itemsize: *itemsize,
                shape: Vec::from_slice(alloc, shape)?,
                strides: Vec::from_slice(alloc, strides)?,
                offset: *offset,
                bytes: Vec::from_slice(alloc, bytes)?,
            }),
        }
    }

    /// Returns whether both are of one form, with equal numbers and bytes.
    pub fn is_same(&self, other: &Input) -> bool
        ensures { IsTrue result ↔ (source_of self.now ≡ source_of other.now) }
    {
        match (self, other) {
            (Input::Npy(a), Input::Npy(b)) => a.as_slice() == b.as_slice(),
            (
                Input::Buffer {
                    format: a_format,
                    itemsize: a_itemsize,
                    shape: a_shape,
                    strides: a_strides,
                    offset: a_offset,
                    bytes: a_bytes,
                },
                Input::Buffer {
                    format: b_format,
                    itemsize: b_itemsize,
                    shape: b_shape,
                    strides: b_strides,
                    offset: b_offset,
                    bytes: b_bytes,
                },
            ) => {
                if a_format.as_str() != b_format.as_str() {
                    return false;
                }
                if *a_itemsize != *b_itemsize || *a_offset != *b_offset {
                    return false;
                }
                if !are_same_axes(a_shape, b_shape, a_strides, b_strides) {
                    return false;
                }
                a_bytes.as_slice() == b_bytes.as_slice()
            }
            _ => false,
        }
    }
}

// Whether both have equal lengths and equal strides.
fn are_same_axes(a_shape: &[u64], b_shape: &[u64], a_strides: &[i64], b_strides: &[i64]) -> bool
    ensures { IsTrue result
        ↔ ((a_shape.now ≡ b_shape.now) × (a_strides.now ≡ b_strides.now)) }
{
    if a_shape != b_shape {
        return false;
    }
    a_strides == b_strides
}
