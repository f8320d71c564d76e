//! What is told of a file after it was listed, checked or sorted.
ghost use Rattle.std.specs.Prelude.{◌≡◌, [], IfOk, IfErr, string_bytes};
ghost use Rattle.isort_cmd.specs.Reported.{report_value, reported};

use crate::error::RunError;
use crate::job::{Action, Task};
use crate::message::fault_text;
use crate::told::Report;
use isort_sort::Outcome;
use std::alloc::Global;

/// A report of what is wrong, for standard error.
fn complaint(alloc: Global, err: String) -> Report
    ensures { report_value result ≡ record { out = []; err = string_bytes err; status = 1 } }
{
    Report {
        out: String::new(alloc),
        err,
        status: 1,
    }
}

/// A report of what was done, for standard output.
fn note(alloc: Global, out: String) -> Report
    ensures { report_value result ≡ record { out = string_bytes out; err = []; status = 0 } }
{
    Report {
        out,
        err: String::new(alloc),
        status: 0,
    }
}

/// What is told of the file at `path` after the action was done on it. A listing that ended well is handed in as `Same`,
/// and so is a check that found the file sorted; one that didn't as `Changed`.
///
/// The only error is `Memory`.
pub fn report(
    alloc: Global,
    path: &str,
    action: &Action,
    answer: &Result<Outcome, RunError>,
) -> Result<Report, RunError>
    ensures ok { IfOk result (λ r. report_value r ≡ reported path.now action.now answer.now) }
    ensures memory { IfErr result (λ e. e ≡ RunError.Memory) }
{
    match (action.task(path), answer) {
        (_, Err(error)) => Ok(complaint(alloc, fault_text(alloc, path, error)?)),
        (Task::Check, Ok(Outcome::Changed)) => {
            let err = format!(in alloc;
                "ERROR: {path} Imports are incorrectly sorted and/or formatted.\n"
            )?;
            Ok(complaint(alloc, err))
        }
        (Task::Rewrite, Ok(Outcome::Changed)) => {
            let out = format!(in alloc; "Fixing {path}\n")?;
            Ok(note(alloc, out))
        }
        _ => Ok(note(alloc, String::new(alloc))),
    }
}
