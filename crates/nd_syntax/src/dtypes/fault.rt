//! `TypeFault`: why a dtype of a statement is refused.

ghost use Rattle.std.specs.Prelude.{◌≡◌};
ghost use Rattle.nd_memory.specs.Want.{out_of_memory};
ghost use Rattle.nd_syntax.specs.declared.dtypes.fault.TypeFault.TheVariants.{Memory};

use nd_memory::OutOfMemory;
use std::alloc::{AllocError, AllocFailed};

/// Why a dtype of a statement is refused.
#[derive(Clone, Copy)]
pub enum TypeFault {
    /// The text or the fields name no dtype.
    BadType,
    /// Want of memory.
    Memory(OutOfMemory),
}

impl From<AllocError> for TypeFault {
    ghost from_gives = { λ _ e. e ≡ Memory out_of_memory };

    fn from(refused: AllocError) -> TypeFault {
        TypeFault::Memory(refused.into())
    }
}

impl<T: Drop> From<AllocFailed<T>> for TypeFault {
    ghost from_gives = { λ _ e. e ≡ Memory out_of_memory };

    fn from(failed: AllocFailed<T>) -> TypeFault {
        TypeFault::Memory(failed.into())
    }
}
