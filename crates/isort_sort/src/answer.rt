//! What sorting answers.
ghost use Rattle.std.specs.Prelude.{◌≡◌};
ghost use Rattle.isort_sort.specs.Errors.{sort_error_of, sort_error_of_import};
ghost use Rattle.isort_sort.specs.declared.answer.SortError.TheVariants.{Memory};

use py_imports::ImportError;
use py_lines::{Fault, LexError};
use std::alloc::AllocError;
use thiserror::Error;

/// A block of a text: import lines that are sorted together.
#[derive(Clone, Copy, Debug, PartialEq, Eq)]
pub struct Block {
    /// The byte at which its span begins, from the text's start.
    pub start: u64,
    /// The byte after its span, which takes in the blank lines after the last member.
    pub stop: u64,
    /// How many import lines are its members.
    pub members: usize,
}

/// What sorting makes of a text.
#[derive(Debug, Drop)]
pub enum Sorted {
    /// The text is sorted as it is.
    Same,
    /// The sorted text, which differs from the text.
    Changed(String),
    /// The text asks to be left as it is: it says `skip_file`.
    Skipped,
}

/// What sorting a text came to.
#[derive(Clone, Copy, Debug, PartialEq, Eq)]
pub enum Outcome {
    /// The text is sorted as it is.
    Same,
    /// The sorted text differs from the text.
    Changed,
    /// The text asks to be left as it is.
    Skipped,
}

/// Why a text isn't sorted.
#[derive(Clone, Copy, Debug, PartialEq, Eq, Error)]
pub enum SortError {
    /// There was no memory.
    #[error("out of memory")]
    Memory,
    /// The fault of a text that isn't accepted: F1 to F8 or F10, or F9 for an import statement outside the grammar.
    #[error("{0}")]
    Fault(Fault),
    /// The sorted text can't be written. No call that writes nothing gives this.
    #[error("cannot be written")]
    Write,
}

impl From<AllocError> for SortError {
    ghost from_gives = { λ _ e. e ≡ Memory };

    fn from(_error: AllocError) -> SortError {
        SortError::Memory
    }
}

impl From<LexError> for SortError {
    ghost from_gives = { λ given e. e ≡ sort_error_of given };

    fn from(error: LexError) -> SortError {
        match error {
            LexError::Memory => SortError::Memory,
            LexError::Fault(fault) => SortError::Fault(fault),
        }
    }
}

impl From<ImportError> for SortError {
    ghost from_gives = { λ given e. e ≡ sort_error_of_import given };

    fn from(error: ImportError) -> SortError {
        match error {
            ImportError::Memory => SortError::Memory,
            ImportError::Fault(fault) => SortError::Fault(fault),
        }
    }
}
