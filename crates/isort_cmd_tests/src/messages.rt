//! The lines that tell of errors.
use crate::listing::End;
use isort_cmd::{RunError, fault_text, settings_text};
use isort_settings::SettingsError;
use py_lines::FaultKind as Kind;
use std::alloc::Global;
use std::test::Fail;
use test_harness::cases::{Case, all_are_so, each_holds_again, is_shown, refusal, was_refused};

/// Whether this line tells of the error.
fn is_line(alloc: Global, error: &RunError, line: &str) -> bool {
    match fault_text(alloc, "-", error) {
        Ok(text) => text.as_str() == line,
        Err(_) => false,
    }
}

/// An error of a run, and the line that tells of it.
struct ErrorLine(End, &'static str);

impl Case for ErrorLine {
    fn holds(&self, alloc: Global) -> bool {
        match self.0.answer() {
            Ok(()) => false,
            Err(error) => is_line(alloc, &error, self.1),
        }
    }
}

static FAULT_LINES: &[ErrorLine] = &[
    ErrorLine(End::Fault(Kind::BadUtf8, 1, 1), "-:1: F1 not UTF-8\n"),
    ErrorLine(
        End::Fault(Kind::BadChar, 13, 2),
        "-:2: F2 unexpected character\n",
    ),
    ErrorLine(
        End::Fault(Kind::OpenString, 4, 1),
        "-:1: F3 string not closed\n",
    ),
    ErrorLine(
        End::Fault(Kind::BadImport, 9, 2),
        "-:2: F9 import statement not understood\n",
    ),
    ErrorLine(
        End::Fault(Kind::OpenField, 2, 1),
        "-:1: F10 field not closed\n",
    ),
];

static RUN_ERRORS: &[ErrorLine] = &[
    ErrorLine(End::Error(RunError::Read), "isort: -: R1 cannot be read\n"),
    ErrorLine(End::Error(RunError::TooLong), "isort: -: R2 is too long\n"),
    ErrorLine(
        End::Error(RunError::Write),
        "isort: -: R3 cannot be written\n",
    ),
    ErrorLine(End::Error(RunError::Memory), "isort: -: R5 out of memory\n"),
    ErrorLine(
        End::Error(RunError::NeverEnds),
        "isort: -: R6 reader never ends\n",
    ),
];

/// Lines of settings that are refused, the text of the error, and the line that tells of it.
struct Refusal(&'static str, &'static str, &'static str);

/// Whether the error has this text, and this line tells of it.
fn is_told(alloc: Global, error: &SettingsError, shown: &str, line: &str) -> bool {
    match settings_text(alloc, error) {
        Ok(told) => told.as_str() == line && is_shown(alloc, error, shown),
        Err(_) => false,
    }
}

impl Case for Refusal {
    fn holds(&self, alloc: Global) -> bool {
        match refusal(alloc, self.0.as_bytes(), None) {
            Some(error) => is_told(alloc, &error, self.1, self.2),
            None => false,
        }
    }
}

static REFUSALS: &[Refusal] = &[
    Refusal(
        "[tool",
        "the settings are not TOML",
        "isort: settings: S1 not TOML\n",
    ),
    Refusal(
        "[tool.isort]\nline_length = 0",
        "bad value for line_length",
        "isort: settings: S2 bad value for line_length\n",
    ),
    Refusal(
        "[tool]\nisort = 1",
        "bad value for tool.isort",
        "isort: settings: S2 bad value for tool.isort\n",
    ),
    Refusal(
        "[tool.isort]\nsections = [\"A\", \"a\"]",
        "bad value for sections",
        "isort: settings: S2 bad value for sections\n",
    ),
    Refusal(
        "[tool.isort]\nsections = [\"Django\"]\nknown_django = 1",
        "bad value for known_django",
        "isort: settings: S2 bad value for known_django\n",
    ),
    Refusal(
        "[tool.isort]\nprofile = \"white\"",
        "unknown profile",
        "isort: settings: S3 unknown profile\n",
    ),
    Refusal(
        "[tool.isort]\nmulti_line_output = 4",
        "unsupported wrap mode",
        "isort: settings: S4 unsupported multi_line_output\n",
    ),
];

fn tells_of_memory(alloc: Global) -> bool {
    is_told(
        alloc,
        &SettingsError::Memory,
        "out of memory",
        "isort: R5 out of memory\n",
    )
}

#[test]
fn tells_errors_and_of_settings(rt: HostRuntime) -> Result<(), Fail> {
    let alloc = rt.alloc();
    all_are_so(&[tells_of_memory(alloc) || was_refused(alloc) && tells_of_memory(alloc)])?;
    each_holds_again(
        alloc,
        &[("FAULT_LINES", FAULT_LINES), ("RUN_ERRORS", RUN_ERRORS)],
    )?;
    each_holds_again(alloc, &[("REFUSALS", REFUSALS)])
}
