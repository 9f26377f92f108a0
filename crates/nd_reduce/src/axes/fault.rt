//! `AxisFault`: why a reduction is refused.
ghost use Rattle.std.specs.Prelude.{◌≡◌};
ghost use Rattle.nd_memory.specs.Want.{out_of_memory};
ghost use Rattle.nd_reduce.specs.declared.axes.fault.AxisFault.TheVariants.{Memory, View};

use nd_memory::OutOfMemory;
use nd_view::ViewFault;
use std::alloc::AllocError;

/// Why a reduction is refused.
#[derive(Clone, Copy)]
pub enum AxisFault {
    /// Want of memory for the results.
    Memory(OutOfMemory),
    /// The operand's elements are structures.
    NotNumbers,
    /// The operand has no such axis.
    NoAxis,
    /// The least or greatest of no numbers is asked for.
    EmptyReduce,
    /// The array of the results exceeds the limits of arrays.
    View(ViewFault),
}

impl From<AllocError> for AxisFault {
    ghost from_gives = { λ _ e. e ≡ Memory out_of_memory };

    fn from(refused: AllocError) -> AxisFault {
        AxisFault::Memory(refused.into())
    }
}
