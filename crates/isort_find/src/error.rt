//! Why a finder gives no import, or doesn't go on.
ghost use Rattle.std.specs.Prelude.{◌≡◌};
ghost use Rattle.isort_find.specs.declared.error.FindError.TheVariants.{Memory};

use py_lines::Fault;
use std::alloc::{AllocError, AllocFailed};
use thiserror::Error;

/// Why a finder gave no import.
#[derive(Clone, Copy, Debug, PartialEq, Eq, Error)]
pub enum FindError {
    /// Memory ran out; the same import comes next.
    #[error("out of memory")]
    Memory,
    /// The text's fault, after its last import. Every later call answers it too.
    #[error("{0}")]
    Fault(Fault),
}

impl From<AllocError> for FindError {
    ghost from_gives = { λ _ e. e ≡ Memory };

    fn from(_error: AllocError) -> FindError {
        FindError::Memory
    }
}

impl<T: Drop> From<AllocFailed<T>> for FindError {
    ghost from_gives = { λ _ e. e ≡ Memory };

    fn from(_error: AllocFailed<T>) -> FindError {
        FindError::Memory
    }
}

/// Why a finder didn't go on from a cursor.
#[derive(Clone, Copy, Debug, PartialEq, Eq, Error)]
pub enum ResumeError {
    /// Memory ran out.
    #[error("out of memory")]
    Memory,
    /// C1: the text ends before the cursor's offset.
    #[error("C1 text is shorter than the cursor's offset")]
    TextTooShort,
}
