//! What a call answers that may refuse or find no memory.
ghost use Rattle.pb_base.specs.Answers.{ForRefusal, Changes};

use std::alloc::{AllocError, AllocFailed};

/// Want of memory: a growth was refused by the allocator. The call may be made again.
#[derive(Clone, Copy, Debug, PartialEq, Eq)]
pub struct Memory;

/// Why a call gave no value: it refuses for a reason that its contract names, or it found no memory.
#[derive(Debug, Drop)]
pub enum Fail<E> {
    Refused(E),
    Memory,
}

impl<E> Fail<E> {
    /// The same with another refusal in place of this one. Want of memory stays what it is.
    pub fn map<D, F: FnOnce(E) -> D>(self, change: F) -> Fail<D>
        requires { ForRefusal self (F.pre change) }
        ensures { Changes self (F.post change) result }
    {
        match self {
            Fail::Refused(fault) => Fail::Refused(change(fault)),
            Fail::Memory => Fail::Memory,
        }
    }
}

impl From<AllocError> for Memory {
    fn from(_: AllocError) -> Memory {
        Memory
    }
}

impl<T: Drop> From<AllocFailed<T>> for Memory {
    fn from(_: AllocFailed<T>) -> Memory {
        Memory
    }
}

impl<E> From<Memory> for Fail<E> {
    ghost use Rattle.std.specs.Prelude.{◌≡◌};
    ghost use Rattle.pb_base.specs.declared.answer.Fail.TheVariants.{Memory};

    ghost from_gives = { λ _ e. e ≡ Memory };

    fn from(_: Memory) -> Fail<E> {
        Fail::Memory
    }
}

impl<E> From<AllocError> for Fail<E> {
    ghost use Rattle.std.specs.Prelude.{◌≡◌};
    ghost use Rattle.pb_base.specs.declared.answer.Fail.TheVariants.{Memory};

    ghost from_gives = { λ _ e. e ≡ Memory };

    fn from(_: AllocError) -> Fail<E> {
        Fail::Memory
    }
}

impl<E, T: Drop> From<AllocFailed<T>> for Fail<E> {
    ghost use Rattle.std.specs.Prelude.{◌≡◌};
    ghost use Rattle.pb_base.specs.declared.answer.Fail.TheVariants.{Memory};

    ghost from_gives = { λ _ e. e ≡ Memory };

    fn from(_: AllocFailed<T>) -> Fail<E> {
        Fail::Memory
    }
}
