//! Standard output, and what is told of each file.
use crate::FAILED;
use crate::messages::{tell, tell_error, tell_no_memory};
use isort_cmd::{Action, Outcome, RunError, report};
use std::io::Write;

/// What standard output is called where it can't be written.
const OUTPUT_NAME: &str = "standard output";

/// Standard output. Where it breaks, this is told once, and nothing more is printed.
#[derive(Drop)]
pub(crate) struct Output {
    /// Whether a write failed.
    is_broken: bool,
}

impl Output {
    /// Standard output of which nothing bad is known yet.
    pub(crate) fn new() -> Output {
        Output { is_broken: false }
    }

    /// Prints a text, and answers the status for it.
    pub(crate) fn print(&mut self, rt: &HostRuntime, text: &str) -> u8 {
        if text.is_empty() {
            return 0;
        }
        if !self.is_broken && rt.stdout().write_all(text.as_bytes()).is_ok() {
            return 0;
        }
        self.tell_broken(rt)
    }

    /// Tells what came of the file at `path`, and answers the status for it.
    pub(crate) fn tell_result(
        &mut self,
        rt: &HostRuntime,
        path: &str,
        action: &Action,
        answer: &Result<Outcome, RunError>,
    ) -> u8 {
        let Ok(report) = report(rt.alloc(), path, action, answer) else {
            tell_no_memory(rt);
            return FAILED;
        };
        tell(rt, report.err.as_str());
        report.status.max(self.print(rt, report.out.as_str()))
    }

    /// Tells that standard output is broken, where it wasn't told before, and answers the status.
    pub(crate) fn tell_broken(&mut self, rt: &HostRuntime) -> u8 {
        if !self.is_broken {
            self.is_broken = true;
            tell_error(rt, OUTPUT_NAME, &RunError::Write);
        }
        FAILED
    }
}
