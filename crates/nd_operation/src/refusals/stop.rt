//! `Stop`: why an evaluation stops, by a refusal or for want of memory.

ghost use Rattle.std.specs.Prelude.{◌≡◌};
ghost use Rattle.nd_memory.specs.Want.{out_of_memory};
ghost use Rattle.nd_operation.specs.declared.refusals.fault.StmtFault.TheVariants.{Shape};
ghost use Rattle.nd_operation.specs.declared.refusals.stop.Stop.TheVariants.{Memory, Refused};
ghost use Rattle.nd_operation.specs.Refusals.Faults.{refusal_of_select};
ghost use Rattle.nd_operation.specs.Refusals.Stops.{format_stop, map_stop, npy_stop, type_stop};

use crate::refusals::fault::{IndexFault, StmtError, StmtFault};
use nd_index::basic::SelectFault;
use nd_memory::OutOfMemory;
use nd_npy::header::NpyError;
use nd_npy::pep3118::FormatError;
use nd_shape::ShapeFault;
use nd_syntax::dtypes::TypeFault;
use nd_ufunc::elementwise::MapFault;
use std::alloc::{AllocError, AllocFailed};

/// Why an evaluation stops: want of memory, or a refusal of the statement.
#[derive(Drop)]
pub enum Stop {
    Memory(OutOfMemory),
    Refused(StmtFault),
}

impl From<StmtFault> for Stop {
    ghost from_gives = { λ f e. e ≡ Refused f };

    fn from(fault: StmtFault) -> Stop {
        Stop::Refused(fault)
    }
}

impl From<SelectFault> for Stop {
    ghost from_gives = { λ f e. e ≡ Refused (refusal_of_select f) };

    fn from(fault: SelectFault) -> Stop {
        Stop::Refused(match fault {
            SelectFault::TwoEllipses => StmtFault::Index(IndexFault::TwoEllipses),
            SelectFault::TooManyIndices => StmtFault::Index(IndexFault::TooManyIndices),
            SelectFault::ZeroStep => StmtFault::Index(IndexFault::ZeroStep),
            SelectFault::OutOfBounds { axis, index, size } => {
                StmtFault::Index(IndexFault::OutOfBounds { axis, index, size })
            }
            SelectFault::View(fault) => StmtFault::View(fault),
        })
    }
}

impl From<ShapeFault> for Stop {
    ghost from_gives = { λ f e. e ≡ Refused (Shape f) };

    fn from(fault: ShapeFault) -> Stop {
        Stop::Refused(StmtFault::Shape(fault))
    }
}

impl From<OutOfMemory> for Stop {
    ghost from_gives = { λ _ e. e ≡ Memory out_of_memory };

    fn from(memory: OutOfMemory) -> Stop {
        Stop::Memory(memory)
    }
}

impl From<TypeFault> for Stop {
    ghost from_gives = { λ f e. e ≡ type_stop f };

    fn from(fault: TypeFault) -> Stop {
        match fault {
            TypeFault::BadType => Stop::Refused(StmtFault::Stmt(StmtError::BadType)),
            TypeFault::Memory(memory) => Stop::Memory(memory),
        }
    }
}

impl From<FormatError> for Stop {
    ghost from_gives = { λ f e. e ≡ format_stop f };

    fn from(error: FormatError) -> Stop {
        match error {
            FormatError::Memory(memory) => Stop::Memory(memory),
            FormatError::Fault(fault) => Stop::Refused(StmtFault::Format(fault)),
        }
    }
}

impl From<NpyError> for Stop {
    ghost from_gives = { λ f e. e ≡ npy_stop f };

    fn from(error: NpyError) -> Stop {
        match error {
            NpyError::Memory(memory) => Stop::Memory(memory),
            NpyError::Fault(fault) => Stop::Refused(StmtFault::Npy(fault)),
        }
    }
}

impl From<MapFault> for Stop {
    ghost from_gives = { λ f e. e ≡ map_stop f };

    fn from(fault: MapFault) -> Stop {
        match fault {
            MapFault::Memory(memory) => Stop::Memory(memory),
            MapFault::Ufunc(fault) => Stop::Refused(StmtFault::Ufunc(fault)),
            MapFault::View(fault) => Stop::Refused(StmtFault::View(fault)),
        }
    }
}

impl From<AllocError> for Stop {
    ghost from_gives = { λ _ e. e ≡ Memory out_of_memory };

    fn from(refused: AllocError) -> Stop {
        Stop::Memory(refused.into())
    }
}

impl<T: Drop> From<AllocFailed<T>> for Stop {
    ghost from_gives = { λ _ e. e ≡ Memory out_of_memory };

    fn from(failed: AllocFailed<T>) -> Stop {
        Stop::Memory(failed.into())
    }
}
