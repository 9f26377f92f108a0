//! `ItemFault` and `FancyFault`: why an advanced index is refused.
ghost use Rattle.std.specs.Prelude.{◌≡◌};
ghost use Rattle.nd_memory.specs.Want.{out_of_memory};
ghost use Rattle.nd_index.specs.declared.items.fault.FancyFault.TheVariants.{Memory};
ghost use Rattle.nd_index.specs.Items.Faults.{fault_of_select};

use crate::basic::SelectFault;
use nd_memory::OutOfMemory;
use nd_view::ViewFault;
use std::alloc::AllocError;

/// Why the items of an index are refused.
#[derive(Clone, Copy)]
pub enum ItemFault {
    /// There is more than one `...`.
    TwoEllipses,
    /// The items stand for more axes than the array has.
    TooManyIndices,
    /// The step of a slice is 0.
    ZeroStep,
    /// The index is not in `-size..size`, where `size` is the length of the axis. Axes are counted
    /// from 0.
    OutOfBounds { axis: usize, index: i128, size: u64 },
    /// A mask has another length than this axis. Axes are counted from 0.
    MaskShape { axis: usize },
    /// The arrays do not broadcast together.
    IndexShapes,
}

/// Why an advanced index selects no elements.
#[derive(Clone, Copy)]
pub enum FancyFault {
    /// Want of memory for the byte offsets.
    Memory(OutOfMemory),
    /// The items are refused.
    Index(ItemFault),
    /// The selection would exceed the limits of arrays.
    View(ViewFault),
}

impl From<AllocError> for FancyFault {
    ghost from_gives = { λ _ e. e ≡ Memory out_of_memory };

    fn from(refused: AllocError) -> FancyFault {
        FancyFault::Memory(refused.into())
    }
}

impl From<SelectFault> for FancyFault {
    ghost from_gives = { λ f e. e ≡ fault_of_select f };

    fn from(fault: SelectFault) -> FancyFault {
        match fault {
            SelectFault::TwoEllipses => FancyFault::Index(ItemFault::TwoEllipses),
            SelectFault::TooManyIndices => FancyFault::Index(ItemFault::TooManyIndices),
            SelectFault::ZeroStep => FancyFault::Index(ItemFault::ZeroStep),
            SelectFault::OutOfBounds { axis, index, size } => {
                FancyFault::Index(ItemFault::OutOfBounds { axis, index, size })
            }
            SelectFault::View(fault) => FancyFault::View(fault),
        }
    }
}
