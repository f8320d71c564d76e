//! What calls answer.
ghost use Rattle.std.specs.Prelude.{◌≡◌};
ghost use Rattle.isort_c.specs.Answers.{plain_answer, fault_number, fault_answer};

use py_lines::{Fault, FaultKind};

/// The text is sorted as it is. Of a call that sorts nothing: it is done.
pub const SAME: u32 = 0;
/// The sorted text differs from the text.
pub const CHANGED: u32 = 1;
/// The text asks to be left as it is.
pub const SKIPPED: u32 = 2;
/// The text isn't accepted.
pub const FAULT: u32 = 3;
/// The settings are refused.
pub const SETTINGS: u32 = 4;
/// Memory ran out.
pub const MEMORY: u32 = 5;
/// An argument means nothing: a module that is not UTF-8, or a number that no key and no profile has.
pub const ARGUMENT: u32 = 6;

/// What a call came to. A number that isn't spoken of is 0.
#[repr(C)]
#[derive(Clone, Copy)]
pub struct Answer {
    /// What the call came to: one of the constants above.
    pub status: u32,
    /// The number in the label: at `FAULT` 1 to 10 for F1 to F10, at `SETTINGS` 1 to 4 for S1 to S4.
    pub label: u32,
    /// At S2 the number of the key whose value is bad: 26 for the list of an own section.
    pub key: u32,
    /// The section of a module: 0 to 4 for `FUTURE`, `STDLIB`, `THIRDPARTY`, `FIRSTPARTY` and `LOCALFOLDER`, 5 and more for
    /// own ones, in their order.
    pub section: u32,
    /// At `FAULT` the byte at which the fault stands, from 0.
    pub offset: u64,
    /// At `FAULT` the line of that byte, from 1.
    pub line: u64,
    /// How many bytes the result has.
    pub size: usize,
}

impl Answer {
    /// An answer with nothing but a status.
    pub(crate) fn plain(status: u32) -> Answer
        ensures { result ≡ plain_answer status }
    {
        Answer {
            status,
            label: 0,
            key: 0,
            section: 0,
            offset: 0,
            line: 0,
            size: 0,
        }
    }

    /// The answer at a fault.
    pub(crate) fn at_fault(fault: Fault) -> Answer
        ensures { result ≡ fault_answer fault }
    {
        let mut answer = Answer::plain(FAULT);
        answer.label = number_of(fault.kind);
        answer.offset = fault.offset;
        answer.line = fault.line;
        answer
    }
}

/// The number in the label of a fault.
fn number_of(kind: FaultKind) -> u32
    ensures { result ≡ fault_number kind }
{
    match kind {
        FaultKind::BadUtf8 => 1,
        FaultKind::BadChar => 2,
        FaultKind::OpenString => 3,
        FaultKind::OpenTriple => 4,
        FaultKind::WrongClose => 5,
        FaultKind::OpenBracket => 6,
        FaultKind::BadJoin => 7,
        FaultKind::TooDeep => 8,
        FaultKind::BadImport => 9,
        FaultKind::OpenField => 10,
    }
}
