//! What the program tells on standard error.
use isort_cmd::{OUT_OF_MEMORY, RunError, fault_text};
use std::io::{self, ErrorKind, Write};

/// Puts a text on standard error. One that can't be written there is lost: no other place is left to tell it.
pub(crate) fn tell(rt: &HostRuntime, text: &str) {
    let _lost = rt.stderr().write_all(text.as_bytes());
}

/// Tells that memory ran out, where no file is to blame.
pub(crate) fn tell_no_memory(rt: &HostRuntime) {
    tell(rt, OUT_OF_MEMORY);
}

/// What an error of a file is told as: that memory ran out, or else as the other one.
pub(crate) fn told_as(error: &io::Error, other: RunError) -> RunError {
    if error.kind() == ErrorKind::OutOfMemory {
        RunError::Memory
    } else {
        other
    }
}

/// Tells why the file at `path` could not be read, understood or written.
pub(crate) fn tell_error(rt: &HostRuntime, path: &str, error: &RunError) {
    match fault_text(rt.alloc(), path, error) {
        Ok(line) => tell(rt, line.as_str()),
        Err(_) => tell_no_memory(rt),
    }
}
