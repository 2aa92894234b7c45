//! Why a call to the outside gave nothing.

use pb_base::Memory;
use std::alloc::{AllocError, AllocFailed};

/// Why a call to the outside failed.
#[derive(Clone, Copy, Debug, PartialEq, Eq)]
pub enum OutError {
    /// The object failed. Its count of faults rose in this call.
    Failed,
    /// Want of memory.
    Memory,
}

impl From<Memory> for OutError {
    ghost use Rattle.std.specs.Prelude.{◌≡◌};
    ghost use Rattle.pb_outside.specs.declared.error.OutError.TheVariants.{Memory};

    ghost from_gives = { λ _ e. e ≡ Memory };

    fn from(_: Memory) -> OutError {
        OutError::Memory
    }
}

impl From<AllocError> for OutError {
    ghost use Rattle.std.specs.Prelude.{◌≡◌};
    ghost use Rattle.pb_outside.specs.declared.error.OutError.TheVariants.{Memory};

    ghost from_gives = { λ _ e. e ≡ Memory };

    fn from(_: AllocError) -> OutError {
        OutError::Memory
    }
}

impl<T: Drop> From<AllocFailed<T>> for OutError {
    ghost use Rattle.std.specs.Prelude.{◌≡◌};
    ghost use Rattle.pb_outside.specs.declared.error.OutError.TheVariants.{Memory};

    ghost from_gives = { λ _ e. e ≡ Memory };

    fn from(_: AllocFailed<T>) -> OutError {
        OutError::Memory
    }
}
