//! `FormatFault`: why a text is no format string of PEP 3118.
ghost use Rattle.std.specs.Prelude.{◌≡◌};
ghost use Rattle.nd_memory.specs.Want.{out_of_memory};
ghost use Rattle.nd_npy.specs.declared.pep3118.fault.FormatError.TheVariants.{Memory};

use nd_memory::OutOfMemory;
use std::alloc::{AllocError, AllocFailed};

/// Why a text is no format string for an item of a given size (PEP 3118). Bytes of the text are
/// counted from 0.
#[derive(Clone, Copy, PartialEq, Eq, Debug)]
pub enum FormatFault {
    /// The byte that begins no item, or the end of a text that is not whole.
    UnknownCode(usize),
    /// The end of the text, inside `T{`.
    Unclosed(usize),
    /// The first byte of a name that no field may have, or the byte where the colon is missing.
    NoName(usize),
    /// The first byte of a name that a field before it has.
    DoubleName(usize),
    /// The first digit of a count that stands anywhere but before `x`.
    CountNotHere(usize),
    /// The items need more bytes than the item has.
    LargerThanItem,
    /// The structure has more than 256 fields.
    TooManyFields,
    /// A single code needs fewer bytes, or the item has more than 65,536.
    BadItemSize,
}

/// Why no dtype was read: want of memory, or a fault of the text.
#[derive(Debug, Drop)]
pub enum FormatError {
    /// Want of memory.
    Memory(OutOfMemory),
    Fault(FormatFault),
}

impl From<AllocError> for FormatError {
    ghost from_gives = { λ _ e. e ≡ Memory out_of_memory };

    fn from(refused: AllocError) -> FormatError {
        FormatError::Memory(refused.into())
    }
}

impl<T: Drop> From<AllocFailed<T>> for FormatError {
    ghost from_gives = { λ _ e. e ≡ Memory out_of_memory };

    fn from(failed: AllocFailed<T>) -> FormatError {
        FormatError::Memory(failed.into())
    }
}
