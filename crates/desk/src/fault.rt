// Why a call of the desk failed.
ghost use Rattle.std.specs.Prelude.{◌≡◌};
ghost use Rattle.desk.specs.declared.fault.DeskFault.TheVariants.{Memory};

use octets::NoMemory;
use std::alloc::{AllocError, AllocFailed};
use thiserror::Error;

/// The fault of a call of the desk. Its derived texts are not for a report.
#[derive(Clone, Copy, Debug, PartialEq, Eq, Error)]
pub enum DeskFault {
    /// The outside failed, and the desk's count of faults rose.
    #[error("the outside failed")]
    Failed,
    /// An allocation was refused.
    #[error("memory was refused")]
    Memory,
}

impl From<NoMemory> for DeskFault {
    ghost from_gives = { λ _ fault. fault ≡ Memory };

    fn from(_: NoMemory) -> Self {
        DeskFault::Memory
    }
}

impl From<AllocError> for DeskFault {
    ghost from_gives = { λ _ fault. fault ≡ Memory };

    fn from(_: AllocError) -> Self {
        DeskFault::Memory
    }
}

impl<T: Drop> From<AllocFailed<T>> for DeskFault {
    ghost from_gives = { λ _ fault. fault ≡ Memory };

    fn from(_: AllocFailed<T>) -> Self {
        DeskFault::Memory
    }
}
