//! `RunFault`: why a script is not run to its end.

ghost use Rattle.std.specs.Prelude.{◌≡◌};
ghost use Rattle.nd_memory.specs.Want.{out_of_memory};
ghost use Rattle.nd_script.specs.declared.lines.run_fault.RunFault.TheVariants as faults;

use nd_memory::OutOfMemory;
use std::alloc::AllocError;
use thiserror::Error;

/// Why a script is not run to its end.
#[derive(Debug, Drop, Error)]
pub enum RunFault {
    /// A read failed, or the reader did not end within the reads allowed.
    #[error("the script could not be read")]
    ReadFault,
    /// A write failed, or took nothing.
    #[error("an answer could not be written")]
    WriteFault,
    /// A line has more than 2^28 bytes.
    #[error("a line of the script is too long")]
    LineTooLong,
    /// Want of memory to read a line: for its bytes, for a source or for an input. No answer takes
    /// memory of its own size.
    #[error("out of memory")]
    Memory(OutOfMemory),
}

impl From<AllocError> for RunFault {
    ghost from_gives = { λ _ e. e ≡ faults.Memory out_of_memory };

    fn from(refused: AllocError) -> RunFault {
        RunFault::Memory(refused.into())
    }
}
