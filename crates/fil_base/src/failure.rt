ghost use Rattle.std.specs.Prelude.{◌≡◌};
ghost use Rattle.fil_base.specs.declared.failure.Failure.TheVariants.{NoMemory as OutOfMemory};

use std::alloc::{AllocError, AllocFailed};

/// There was no memory.
#[derive(Clone, Copy, Debug, PartialEq, Eq)]
pub struct NoMemory;

/// The answer of a call that fails only where there is no memory.
pub type Mem<T> = Result<T, NoMemory>;

/// Why a call failed that may run out of memory: it did, or there is a fault in what it was given.
#[derive(Clone, Copy, Debug, PartialEq, Eq)]
pub enum Failure<F> {
    NoMemory,
    Fault(F),
}

impl From<AllocError> for NoMemory {
    fn from(_: AllocError) -> NoMemory {
        NoMemory
    }
}

impl<T: Drop> From<AllocFailed<T>> for NoMemory {
    fn from(_: AllocFailed<T>) -> NoMemory {
        NoMemory
    }
}

impl<F> From<NoMemory> for Failure<F> {
    ghost from_gives = { λ _ failure. failure ≡ OutOfMemory };

    fn from(_: NoMemory) -> Failure<F> {
        Failure::NoMemory
    }
}

impl<F> From<AllocError> for Failure<F> {
    ghost from_gives = { λ _ failure. failure ≡ OutOfMemory };

    fn from(_: AllocError) -> Failure<F> {
        Failure::NoMemory
    }
}

impl<T: Drop, F> From<AllocFailed<T>> for Failure<F> {
    ghost from_gives = { λ _ failure. failure ≡ OutOfMemory };

    fn from(_: AllocFailed<T>) -> Failure<F> {
        Failure::NoMemory
    }
}
