//! What is wrong with a text, and where.
ghost use Rattle.std.specs.Prelude.{◌≡◌, Some};
ghost use Rattle.py_lines.specs.declared.fault.LexError.TheVariants.{Memory};
ghost use Rattle.py_lines.specs.FaultWords.{fault_words};

use std::alloc::{AllocError, AllocFailed};
use std::fmt;
use thiserror::Error;

/// What can be wrong with a text (Python Language Reference, chapter 2).
#[derive(Clone, Copy, Debug, PartialEq, Eq)]
pub enum FaultKind {
    /// Bytes that begin no character of UTF-8.
    BadUtf8,
    /// A character that begins no piece of the lexical grammar.
    BadChar,
    /// A line end or the text's end in a short string.
    OpenString,
    /// The text's end in a long string.
    OpenTriple,
    /// A closing bracket without its opening one.
    WrongClose,
    /// The text's end inside brackets.
    OpenBracket,
    /// A backslash outside strings and comments that isn't before a line end (2.1.5).
    BadJoin,
    /// An opening bracket where 200 are open.
    TooDeep,
    /// An import statement that isn't in the import grammar.
    BadImport,
    /// The text's end in a field of a string, or a closing quote in a field's format specification.
    OpenField,
}

impl FaultKind {
    /// The label and the words that tell of the fault.
    pub fn words(self) -> &'static str
        ensures { result.now ≡ fault_words self }
    {
        match self {
            FaultKind::BadUtf8 => "F1 not UTF-8",
            FaultKind::BadChar => "F2 unexpected character",
            FaultKind::OpenString => "F3 string not closed",
            FaultKind::OpenTriple => "F4 triple-quoted string not closed",
            FaultKind::WrongClose => "F5 closing bracket without its opening",
            FaultKind::OpenBracket => "F6 bracket not closed",
            FaultKind::BadJoin => "F7 backslash not before a line end",
            FaultKind::TooDeep => "F8 more than 200 brackets open",
            FaultKind::BadImport => "F9 import statement not understood",
            FaultKind::OpenField => "F10 field not closed",
        }
    }
}

impl fmt::Display for FaultKind {
    ghost output = { λ k. Some (fault_words k) };

    fn fmt<W: fmt::Write>(&self, f: &mut fmt::Formatter<W>) -> fmt::Result {
        f.write_str(self.words())
    }
}

impl std::error::Error for FaultKind {}

/// What is wrong with a text, and where.
#[derive(Clone, Copy, Debug, PartialEq, Eq)]
pub struct Fault {
    pub kind: FaultKind,
    /// The byte at which the fault stands, from the text's start.
    pub offset: u64,
    /// The line of that byte, from 1.
    pub line: u64,
}

impl fmt::Display for Fault {
    fn fmt<W: fmt::Write>(&self, f: &mut fmt::Formatter<W>) -> fmt::Result {
        write!(f, "line {}: {}", self.line, self.kind)
    }
}

/// Why no logical line was given.
#[derive(Clone, Copy, Debug, PartialEq, Eq, Error)]
pub enum LexError {
    /// There was no memory for the next line. The reader is as it was, and the same line comes next.
    #[error("out of memory")]
    Memory,
    /// The text's fault. Every later call answers it too.
    #[error("{0}")]
    Fault(Fault),
}

impl From<AllocError> for LexError {
    ghost from_gives = { λ _ e. e ≡ Memory };

    fn from(_error: AllocError) -> LexError {
        LexError::Memory
    }
}

impl<T: Drop> From<AllocFailed<T>> for LexError {
    ghost from_gives = { λ _ e. e ≡ Memory };

    fn from(_error: AllocFailed<T>) -> LexError {
        LexError::Memory
    }
}
