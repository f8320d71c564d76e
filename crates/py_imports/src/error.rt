//! Why a logical line gives no bindings.
ghost use Rattle.std.specs.Prelude.{◌≡◌};
ghost use Rattle.py_imports.specs.declared.error.ImportError.TheVariants.{Memory};

use py_lines::Fault;
use std::alloc::AllocError;
use thiserror::Error;

/// Why a logical line gave no bindings.
#[derive(Clone, Copy, Debug, PartialEq, Eq, Error)]
pub enum ImportError {
    /// Out of memory.
    #[error("out of memory")]
    Memory,
    /// An import statement isn't in the grammar: F9 at the first token of the first one.
    #[error("{0}")]
    Fault(Fault),
}

impl From<AllocError> for ImportError {
    ghost from_gives = { λ _ e. e ≡ Memory };

    fn from(_error: AllocError) -> ImportError {
        ImportError::Memory
    }
}
