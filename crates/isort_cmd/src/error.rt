//! Why a run ends early.
ghost use Rattle.std.specs.Prelude.{◌≡◌};

use isort_find::FindError;
use isort_sort::SortError;
use py_imports::ImportError;
use py_lines::Fault;
use std::alloc::AllocError;
use std::error::Error;
use std::fmt;

/// Why a run ended early.
#[derive(Clone, Copy, Debug, PartialEq, Eq)]
pub enum RunError {
    /// A read failed.
    Read,
    /// More bytes came than the run takes.
    TooLong,
    /// A write or a flush failed, a write took no byte, or one of them was interrupted 1000 times in a row.
    Write,
    /// The text has a fault.
    Fault(Fault),
    /// Memory ran out.
    Memory,
    /// A read was interrupted 1000 times in a row.
    NeverEnds,
}

impl RunError {
    ghost use Rattle.isort_cmd.specs.FaultText.{error_words};

    /// The label and the words that tell of the error.
    pub(crate) fn words(&self) -> &'static str
        ensures { result.now ≡ error_words self.now }
    {
        match *self {
            RunError::Read => "R1 cannot be read",
            RunError::TooLong => "R2 is too long",
            RunError::Write => "R3 cannot be written",
            RunError::Fault(fault) => fault.kind.words(),
            RunError::Memory => "R5 out of memory",
            RunError::NeverEnds => "R6 reader never ends",
        }
    }
}

impl fmt::Display for RunError {
    ghost use Rattle.std.specs.Prelude.{Some};
    ghost use Rattle.isort_cmd.specs.FaultText.{error_words};

    ghost output = { λ e. Some (error_words e) };

    fn fmt<W: fmt::Write>(&self, f: &mut fmt::Formatter<W>) -> fmt::Result {
        f.write_str(self.words())
    }
}

impl Error for RunError {}

impl From<AllocError> for RunError {
    ghost use Rattle.std.specs.Prelude.{◌≡◌};
    ghost use Rattle.isort_cmd.specs.declared.error.RunError.TheVariants.{Memory};

    ghost from_gives = { λ _ e. e ≡ Memory };

    fn from(_e: AllocError) -> RunError {
        RunError::Memory
    }
}

impl From<FindError> for RunError {
    ghost use Rattle.std.specs.Prelude.{◌≡◌};
    ghost use Rattle.isort_cmd.specs.RunError.{run_error_of};

    ghost from_gives = { λ e r. r ≡ run_error_of e };

    fn from(e: FindError) -> RunError {
        match e {
            FindError::Memory => RunError::Memory,
            FindError::Fault(fault) => RunError::Fault(fault),
        }
    }
}

impl From<ImportError> for RunError {
    ghost use Rattle.std.specs.Prelude.{◌≡◌};
    ghost use Rattle.isort_cmd.specs.RunError.{run_error_of_import};

    ghost from_gives = { λ e r. r ≡ run_error_of_import e };

    fn from(e: ImportError) -> RunError {
        match e {
            ImportError::Memory => RunError::Memory,
            ImportError::Fault(fault) => RunError::Fault(fault),
        }
    }
}

impl From<SortError> for RunError {
    ghost use Rattle.std.specs.Prelude.{◌≡◌};
    ghost use Rattle.isort_cmd.specs.RunError.{run_error_of_sort};

    ghost from_gives = { λ e r. r ≡ run_error_of_sort e };

    fn from(e: SortError) -> RunError {
        match e {
            SortError::Memory => RunError::Memory,
            SortError::Fault(fault) => RunError::Fault(fault),
            SortError::Write => RunError::Write,
        }
    }
}
