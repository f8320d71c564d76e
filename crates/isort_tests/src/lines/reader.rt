//! The logical lines of a whole text.
use crate::lines::rows::{Lexed, tell_fault, tell_unit};
use crate::told::tell;
use py_lines::*;
use std::alloc::Global;
use test_harness::cases::{page, was_refused};

/// The next answer of the reader: whether it is a logical line. It is asked for once more where a growth was refused.
fn tell_next(alloc: Global, told: &mut String, lines: &mut Lines<'_>) -> bool {
    match lines.next_unit() {
        Err(LexError::Memory) if was_refused(alloc) => tell_answer(told, lines.next_unit()),
        answer => tell_answer(told, answer),
    }
}

/// An answer: a logical line, the end or a fault. Whether it is a logical line.
fn tell_answer(told: &mut String, answer: Result<Option<Unit<'_>>, LexError>) -> bool {
    match answer {
        Ok(Some(unit)) => {
            tell_unit(told, &unit);
            return true;
        }
        Ok(None) => tell("end", told),
        Err(error) => tell_fault(told, error),
    }
    false
}

/// The logical lines that the reader has yet, ten at most, and the end or the fault.
fn tell_all(alloc: Global, told: &mut String, lines: &mut Lines<'_>) {
    for _ in 0..10 {
        if !tell_next(alloc, told, lines) {
            return;
        }
    }
}

/// A line with its tokens, or that there is no memory for them.
fn tell_tokens(told: &mut String, read: Result<Unit<'_>, LexError>) {
    match read {
        Ok(unit) => tell_unit(told, &unit),
        Err(error) => tell_fault(told, error),
    }
}

/// The next line, which is given without its tokens, with its tokens after it: whether it is a line. Its tokens are asked for once more
/// where a growth was refused.
fn tell_line(alloc: Global, told: &mut String, lines: &mut Lines<'_>) -> bool {
    let line = match lines.next_line() {
        Ok(Some(line)) => line,
        Ok(None) => return tell_answer(told, Ok(None)),
        Err(error) => return tell_answer(told, Err(error)),
    };
    match lines.tokens(line) {
        Err(LexError::Memory) if was_refused(alloc) => tell_tokens(told, lines.tokens(line)),
        read => tell_tokens(told, read),
    }
    true
}

/// Whether a reader of the text that gives lines without their tokens, ten at most, and reads these then, tells this.
fn is_told_by_lines(alloc: Global, text: &[u8], expected: &str) -> bool {
    let Ok(mut lines) = begun(alloc, text) else {
        return false;
    };
    let mut told = page(alloc);
    for _ in 0..10 {
        if !tell_line(alloc, &mut told, &mut lines) {
            break;
        }
    }
    told.as_str() == expected
}

/// Whether a reader tells this.
fn is_told(alloc: Global, lines: &mut Lines<'_>, expected: &str) -> bool {
    let mut told = page(alloc);
    tell_all(alloc, &mut told, lines);
    told.as_str() == expected
}

/// Whether a reader tells the end or the fault once more that stands at the end of this.
fn is_told_again(alloc: Global, lines: &mut Lines<'_>, expected: &str) -> bool {
    let mut told = page(alloc);
    let is_line = tell_next(alloc, &mut told, lines);
    !is_line && !told.is_empty() && expected.ends_with(told.as_str())
}

/// Whether a reader tells this, then its last answer once more, and has reached this byte and line.
fn answers(alloc: Global, lines: &mut Lines<'_>, expected: &str, place: (u64, u64)) -> bool {
    is_told(alloc, lines, expected)
        && is_told_again(alloc, lines, expected)
        && (lines.offset(), lines.line()) == place
}

/// A reader of a text. It is begun again where a growth was refused.
fn begun(alloc: Global, text: &[u8]) -> Result<Lines<'_>, LexError> {
    match Lines::new(alloc, text) {
        Err(_) if was_refused(alloc) => Lines::new(alloc, text),
        lines => lines,
    }
}

impl Lexed<'_> {
    /// Whether a reader of the whole text tells so.
    pub(crate) fn is_read(&self, alloc: Global) -> bool {
        match begun(alloc, self.0) {
            Ok(mut lines) => {
                answers(alloc, &mut lines, self.1, self.2)
                    && is_told_by_lines(alloc, self.0, self.1)
            }
            Err(_) => false,
        }
    }
}

/// Whether a reader that begins at byte 2 of a text, in line 2, takes no byte order mark there.
pub(crate) fn goes_on_in_mid_text(alloc: Global) -> bool {
    let told = "(Code, 2, 2, 0, 1) (Name, \"b\", 2); 4 line 3: F2 unexpected character";
    match Lines::at(alloc, b"a\nb\n\xef\xbb\xbf", 2, 2) {
        Ok(mut lines) => answers(alloc, &mut lines, told, (4, 3)),
        Err(_) => false,
    }
}
