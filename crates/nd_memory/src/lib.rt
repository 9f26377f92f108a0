//! [`OutOfMemory`]: want of memory, which only a refusal of the allocator makes.
#![tactic(auto)]

ghost use Rattle.std.specs.Prelude.{◌≡◌};
ghost use Rattle.nd_memory.specs.Want.{out_of_memory};

use std::alloc::{AllocError, AllocFailed};

/// Want of memory: an allocation was refused.
///
/// The field is private: a value is made only from an error of the standard library's own
/// allocations. The type does not say in which call the allocation was refused.
#[derive(Clone, Copy, PartialEq, Eq, Debug)]
pub struct OutOfMemory {
    refused: AllocError,
}

impl From<AllocError> for OutOfMemory {
    ghost from_gives = { λ _ e. e ≡ out_of_memory };

    fn from(refused: AllocError) -> OutOfMemory {
        OutOfMemory { refused }
    }
}

impl<T: Drop> From<AllocFailed<T>> for OutOfMemory {
    ghost from_gives = { λ _ e. e ≡ out_of_memory };

    fn from(failed: AllocFailed<T>) -> OutOfMemory {
        OutOfMemory {
            refused: failed.into(),
        }
    }
}

impl From<OutOfMemory> for AllocError {
    fn from(memory: OutOfMemory) -> AllocError {
        memory.refused
    }
}
