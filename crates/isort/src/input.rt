//! Where texts come from.
use crate::messages::told_as;
use isort_cmd::{LIST_CHUNK, RunError, STANDARD_INPUT};
use std::fs::File;
use std::io::{self, Read, Stdin};

/// Where a text comes from.
#[derive(Drop)]
pub(crate) enum Input {
    /// Standard input.
    Standard(Stdin),
    /// A file.
    File(File),
    /// Standard input that was named before: an empty text.
    Empty,
}

impl Read for Input {
    fn read(&mut self, buf: &mut [u8]) -> io::Result<usize> {
        match self {
            Input::Standard(stdin) => stdin.read(buf),
            Input::File(file) => file.read(buf),
            Input::Empty => Ok(0),
        }
    }
}

/// The inputs of one run of the program.
#[derive(Drop)]
pub(crate) struct Inputs {
    /// Whether standard input was named before.
    is_standard_taken: bool,
    /// What each text that is listed is read into.
    pub(crate) buffer: [u8; LIST_CHUNK],
}

impl Inputs {
    /// Inputs of which none was named yet.
    pub(crate) fn new() -> Inputs {
        Inputs {
            is_standard_taken: false,
            buffer: [0; LIST_CHUNK],
        }
    }

    /// What the path stands for. Standard input that is named again is empty, also where a fault ended its first reading
    /// before its end.
    pub(crate) fn open(&mut self, rt: &HostRuntime, path: &str) -> Result<Input, RunError> {
        if path == STANDARD_INPUT {
            return Ok(self.take_standard(rt));
        }
        match File::open(rt, path) {
            Ok(file) => Ok(Input::File(file)),
            Err(error) => Err(told_as(&error, RunError::Read)),
        }
    }

    /// Standard input, or an empty text where it was taken before.
    fn take_standard(&mut self, rt: &HostRuntime) -> Input {
        if self.is_standard_taken {
            return Input::Empty;
        }
        self.is_standard_taken = true;
        Input::Standard(rt.stdin())
    }
}
