// Want of memory, and refusals.
ghost use Rattle.std.specs.Prelude.{◌≡◌};

use std::alloc::{AllocError, AllocFailed};

/// Want of memory. Only a keep of the real files merges it with another answer.
#[derive(Clone, Copy, Debug, PartialEq, Eq)]
pub struct Memory;

/// Why a call that can be refused gave nothing: want of memory, or a refusal with its cause.
#[derive(Debug, Drop)]
pub enum Fail<E> {
    /// There was not enough memory.
    Memory,
    /// The call was refused, for this cause.
    Refused(E),
}

impl From<AllocError> for Memory {
    fn from(_: AllocError) -> Memory {
        Memory
    }
}

impl<T: Drop> From<AllocFailed<T>> for Memory {
    fn from(_: AllocFailed<T>) -> Memory {
        Memory
    }
}

impl<E> From<AllocError> for Fail<E> {
    ghost use Rattle.carp_base.specs.declared.fail.Fail.TheVariants.{Memory as OutOfMemory};

    ghost from_gives = { λ _ e. e ≡ OutOfMemory };

    fn from(_: AllocError) -> Fail<E> {
        Fail::Memory
    }
}

impl<T: Drop, E> From<AllocFailed<T>> for Fail<E> {
    ghost use Rattle.carp_base.specs.declared.fail.Fail.TheVariants.{Memory as OutOfMemory};

    ghost from_gives = { λ _ e. e ≡ OutOfMemory };

    fn from(_: AllocFailed<T>) -> Fail<E> {
        Fail::Memory
    }
}

impl<E> From<Memory> for Fail<E> {
    ghost use Rattle.carp_base.specs.declared.fail.Fail.TheVariants.{Memory as OutOfMemory};

    ghost from_gives = { λ _ e. e ≡ OutOfMemory };

    fn from(_: Memory) -> Fail<E> {
        Fail::Memory
    }
}
