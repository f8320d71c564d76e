//! The text of each error.
use isort_find::{FindError, ResumeError};
use isort_sort::SortError;
use py_imports::ImportError;
use py_lines::{Fault, FaultKind as Kind, LexError};
use std::alloc::Global;
use std::test::Fail;
use test_harness::cases::{Case, each_holds_again, is_shown};

/// A fault, and its text in each error that has it.
const FAULT: Fault = Fault {
    kind: Kind::BadChar,
    offset: 40,
    line: 3,
};

const FAULT_TEXT: &str = "line 3: F2 unexpected character";

const NO_MEMORY: &str = "out of memory";

/// An error of a library, or the kind of a fault.
enum Error {
    Kind(Kind),
    Lexing(LexError),
    Imports(ImportError),
    Finding(FindError),
    Resuming(ResumeError),
    Sorting(SortError),
}

/// An error, and how it is shown.
struct Shown(Error, &'static str);

impl Case for Shown {
    fn holds(&self, alloc: Global) -> bool {
        match &self.0 {
            Error::Kind(kind) => is_shown(alloc, kind, self.1),
            Error::Lexing(error) => is_shown(alloc, error, self.1),
            Error::Imports(error) => is_shown(alloc, error, self.1),
            Error::Finding(error) => is_shown(alloc, error, self.1),
            Error::Resuming(error) => is_shown(alloc, error, self.1),
            Error::Sorting(error) => is_shown(alloc, error, self.1),
        }
    }
}

static KINDS: &[Shown] = &[
    Shown(Error::Kind(Kind::BadUtf8), "F1 not UTF-8"),
    Shown(Error::Kind(Kind::BadChar), "F2 unexpected character"),
    Shown(Error::Kind(Kind::OpenString), "F3 string not closed"),
    Shown(
        Error::Kind(Kind::OpenTriple),
        "F4 triple-quoted string not closed",
    ),
    Shown(
        Error::Kind(Kind::WrongClose),
        "F5 closing bracket without its opening",
    ),
    Shown(Error::Kind(Kind::OpenBracket), "F6 bracket not closed"),
    Shown(
        Error::Kind(Kind::BadJoin),
        "F7 backslash not before a line end",
    ),
    Shown(Error::Kind(Kind::TooDeep), "F8 more than 200 brackets open"),
    Shown(
        Error::Kind(Kind::BadImport),
        "F9 import statement not understood",
    ),
    Shown(Error::Kind(Kind::OpenField), "F10 field not closed"),
];

static ERRORS: &[Shown] = &[
    Shown(Error::Lexing(LexError::Memory), NO_MEMORY),
    Shown(Error::Lexing(LexError::Fault(FAULT)), FAULT_TEXT),
    Shown(Error::Imports(ImportError::Memory), NO_MEMORY),
    Shown(Error::Imports(ImportError::Fault(FAULT)), FAULT_TEXT),
    Shown(Error::Finding(FindError::Memory), NO_MEMORY),
    Shown(Error::Finding(FindError::Fault(FAULT)), FAULT_TEXT),
    Shown(Error::Resuming(ResumeError::Memory), NO_MEMORY),
    Shown(
        Error::Resuming(ResumeError::TextTooShort),
        "C1 text is shorter than the cursor's offset",
    ),
    Shown(Error::Sorting(SortError::Memory), NO_MEMORY),
    Shown(Error::Sorting(SortError::Fault(FAULT)), FAULT_TEXT),
    Shown(Error::Sorting(SortError::Write), "cannot be written"),
];

#[test]
fn displays_errors(rt: HostRuntime) -> Result<(), Fail> {
    each_holds_again(rt.alloc(), &[("KINDS", KINDS), ("ERRORS", ERRORS)])
}
