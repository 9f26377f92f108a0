//! `MapFault`: why a universal function gives no array of results.
ghost use Rattle.std.specs.Prelude.{◌≡◌};
ghost use Rattle.nd_memory.specs.Want.{out_of_memory};
ghost use Rattle.nd_ufunc.specs.declared.elementwise.fault.MapFault.TheVariants.{Memory, Ufunc, View};

use crate::scalar::UfuncFault;
use nd_memory::OutOfMemory;
use nd_view::ViewFault;
use std::alloc::AllocError;

/// Why a universal function gives no array of results.
#[derive(Clone, Copy)]
pub enum MapFault {
    /// Want of memory for the results.
    Memory(OutOfMemory),
    /// The function does not take these operands.
    Ufunc(UfuncFault),
    /// The array of the results exceeds the limits of arrays.
    View(ViewFault),
}

impl From<AllocError> for MapFault {
    ghost from_gives = { λ _ e. e ≡ Memory out_of_memory };

    fn from(refused: AllocError) -> MapFault {
        MapFault::Memory(refused.into())
    }
}

impl From<UfuncFault> for MapFault {
    ghost from_gives = { λ f e. e ≡ Ufunc f };

    fn from(fault: UfuncFault) -> MapFault {
        MapFault::Ufunc(fault)
    }
}

impl From<ViewFault> for MapFault {
    ghost from_gives = { λ f e. e ≡ View f };

    fn from(fault: ViewFault) -> MapFault {
        MapFault::View(fault)
    }
}
