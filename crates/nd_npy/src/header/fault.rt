//! `NpyFault`: why bytes are no NPY file of an array.
ghost use Rattle.std.specs.Prelude.{◌≡◌};
ghost use Rattle.nd_memory.specs.Want.{out_of_memory};
ghost use Rattle.nd_npy.specs.declared.header.fault.NpyError.TheVariants.{Memory, Fault};

use nd_memory::OutOfMemory;
use std::alloc::{AllocError, AllocFailed};

/// Why bytes are no NPY file of an array. Bytes of the header are counted from 0.
#[derive(Clone, Copy)]
pub enum NpyFault {
    /// The bytes do not begin with the magic bytes.
    BadMagic,
    /// The version of the format is not 1.0, 2.0 or 3.0.
    BadVersion,
    /// The file ends before its header or its elements do.
    Truncated,
    /// The header is no UTF-8 from this byte on.
    NotText(usize),
    /// The header is no literal of the wanted form: this is its first byte in error.
    BadHeader(usize),
    /// A key is missing, doubled or unknown.
    BadKeys,
    /// The type is that of no array of this program.
    BadDescr,
    /// The axes, elements or bytes exceed the limits of arrays.
    TooLarge,
}

/// Why no array was read.
#[derive(Drop)]
pub enum NpyError {
    /// Want of memory.
    Memory(OutOfMemory),
    Fault(NpyFault),
}

impl From<AllocError> for NpyError {
    ghost from_gives = { λ _ e. e ≡ Memory out_of_memory };

    fn from(refused: AllocError) -> NpyError {
        NpyError::Memory(refused.into())
    }
}

impl<T: Drop> From<AllocFailed<T>> for NpyError {
    ghost from_gives = { λ _ e. e ≡ Memory out_of_memory };

    fn from(failed: AllocFailed<T>) -> NpyError {
        NpyError::Memory(failed.into())
    }
}

impl From<NpyFault> for NpyError {
    ghost from_gives = { λ f e. e ≡ Fault f };

    fn from(fault: NpyFault) -> NpyError {
        NpyError::Fault(fault)
    }
}
