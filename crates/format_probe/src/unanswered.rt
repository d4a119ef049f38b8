use fil_base::NoMemory;
use std::alloc::{AllocError, AllocFailed};

/// The text of an answer, or why there is none.
pub type Answer = Result<String, Unanswered>;

/// Why a line has no answer of its verb's.
#[derive(Clone, Copy, Debug, PartialEq, Eq)]
pub enum Unanswered {
    /// No verb has this form.
    BadLine,

    NoMemory,
}

impl From<AllocError> for Unanswered {
    fn from(_: AllocError) -> Unanswered {
        Unanswered::NoMemory
    }
}

impl<T: Drop> From<AllocFailed<T>> for Unanswered {
    fn from(_: AllocFailed<T>) -> Unanswered {
        Unanswered::NoMemory
    }
}

impl From<NoMemory> for Unanswered {
    fn from(_: NoMemory) -> Unanswered {
        Unanswered::NoMemory
    }
}
