//! What is told of a file.
use isort_cmd::{Action, RunError, report};
use isort_find::FindOptions;
use isort_sort::Outcome;
use std::alloc::Global;
use std::test::Fail;
use test_harness::cases::{Case, each_holds_again};

const UNSORTED: &str = "ERROR: b.py Imports are incorrectly sorted and/or formatted.\n";

const UNREAD: &str = "isort: b.py: R1 cannot be read\n";

/// An action that sorts.
const fn sort(check: bool, to_stdout: bool) -> Action {
    Action::Sort {
        check,
        to_stdout,
        settings_file: None,
        profile: None,
        line_length: None,
        multi_line: None,
    }
}

/// An action: none of the two flags of sorting for a listing.
const fn action(flags: Option<(bool, bool)>) -> Action {
    match flags {
        Some((check, to_stdout)) => sort(check, to_stdout),
        None => Action::Identify(FindOptions {
            unique: None,
            top_only: false,
        }),
    }
}

const CHANGED: Result<Outcome, RunError> = Ok(Outcome::Changed);

const SAME: Result<Outcome, RunError> = Ok(Outcome::Same);

const SKIPPED: Result<Outcome, RunError> = Ok(Outcome::Skipped);

const FAILED: Result<Outcome, RunError> = Err(RunError::Read);

const LIST: Option<(bool, bool)> = None;

const SORT: Option<(bool, bool)> = Some((false, false));

const TO_STDOUT: Option<(bool, bool)> = Some((false, true));

const CHECK: Option<(bool, bool)> = Some((true, false));

const CHECK_TO_STDOUT: Option<(bool, bool)> = Some((true, true));

/// A path, an action, its answer, and what is told: the two texts and the status.
struct Told(
    &'static str,
    Option<(bool, bool)>,
    Result<Outcome, RunError>,
    &'static str,
    &'static str,
    u8,
);

impl Case for Told {
    fn holds(&self, alloc: Global) -> bool {
        match report(alloc, self.0, &action(self.1), &self.2) {
            Ok(told) => {
                told.out.as_str() == self.3 && told.err.as_str() == self.4 && told.status == self.5
            }
            Err(_) => false,
        }
    }
}

static ROWS: &[Told] = &[
    Told("b.py", SORT, CHANGED, "Fixing b.py\n", "", 0),
    Told("-", SORT, CHANGED, "", "", 0),
    Told("b.py", TO_STDOUT, CHANGED, "", "", 0),
    Told("b.py", CHECK, CHANGED, "", UNSORTED, 1),
    Told("b.py", CHECK_TO_STDOUT, CHANGED, "", UNSORTED, 1),
    Told("b.py", LIST, CHANGED, "", "", 0),
];

/// Texts that stay as they are.
static KEPT: &[Told] = &[
    Told("b.py", SORT, SAME, "", "", 0),
    Told("b.py", CHECK, SAME, "", "", 0),
    Told("b.py", LIST, SAME, "", "", 0),
    Told("b.py", SORT, SKIPPED, "", "", 0),
    Told("b.py", CHECK, SKIPPED, "", "", 0),
    Told("b.py", LIST, SKIPPED, "", "", 0),
];

/// Files that can't be read.
static UNREADABLE: &[Told] = &[
    Told("b.py", SORT, FAILED, "", UNREAD, 1),
    Told("b.py", CHECK, FAILED, "", UNREAD, 1),
    Told("b.py", LIST, FAILED, "", UNREAD, 1),
];

#[test]
fn tells_of_files(rt: HostRuntime) -> Result<(), Fail> {
    each_holds_again(
        rt.alloc(),
        &[("ROWS", ROWS), ("KEPT", KEPT), ("UNREADABLE", UNREADABLE)],
    )
}
