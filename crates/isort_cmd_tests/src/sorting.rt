//! Sorting and checking what a reader has.
use isort_cmd::{Metered, RunError, check_run, sort_run};
use isort_settings::Settings;
use isort_sort::Outcome;
use py_lines::{Fault, FaultKind};
use std::alloc::Global;
use std::test::Fail;
use test_harness::cases::{SettingsCase, each_holds_under_settings};
use test_harness::devices::{Device, Trouble};
use test_harness::texts::{
    BROKEN, DJANGO, DJANGO_SORTED, DJANGO_UNSORTED, SKIPPED, SORTED, UNSORTED,
};

const WRONG_CLOSE: RunError = RunError::Fault(Fault {
    kind: FaultKind::WrongClose,
    offset: 22,
    line: 3,
});

/// Lines of `[tool.isort]`, a text, how many bytes are taken, how it is sorted to a writer with room for 1000 bytes or fewer,
/// what is written, and what a check answers.
struct Run(
    &'static str,
    &'static str,
    (u16, usize),
    Result<Outcome, RunError>,
    &'static str,
    Result<bool, RunError>,
);

impl Run {
    fn is_sorted_so(&self, alloc: Global, settings: &Settings) -> bool {
        let (max, room) = self.2;
        let mut reader = Metered::new(self.1.as_bytes());
        let mut writer = Device::new(alloc, b"", 1000, Trouble::Full(room));
        let got = sort_run(alloc, &mut reader, &mut writer, settings, u64::from(max));
        got == self.3 && writer.into_inner().taken.as_slice() == self.4.as_bytes()
    }
}

impl SettingsCase for Run {
    fn lines(&self) -> &str {
        self.0
    }

    fn holds_under(&self, alloc: Global, settings: &Settings) -> bool {
        let mut reader = Metered::new(self.1.as_bytes());
        self.is_sorted_so(alloc, settings)
            && check_run(alloc, &mut reader, settings, u64::from(self.2.0)) == self.5
    }
}

const ALL: (u16, usize) = (1000, 1000);

const CHANGED: Result<Outcome, RunError> = Ok(Outcome::Changed);

const TOO_LONG: RunError = RunError::TooLong;

static RUNS: &[Run] = &[
    Run("", UNSORTED, ALL, CHANGED, SORTED, Ok(false)),
    Run("", SORTED, ALL, Ok(Outcome::Same), SORTED, Ok(true)),
    Run("", SKIPPED, ALL, Ok(Outcome::Skipped), SKIPPED, Ok(true)),
    Run("", "", (0, 1000), Ok(Outcome::Same), "", Ok(true)),
];

/// Faults, long texts, own sections, and a writer without room.
static BAD_RUNS: &[Run] = &[
    Run("", BROKEN, ALL, Err(WRONG_CLOSE), "", Err(WRONG_CLOSE)),
    Run("", BROKEN, (22, 1000), Err(TOO_LONG), "", Err(TOO_LONG)),
    Run(
        DJANGO,
        DJANGO_UNSORTED,
        ALL,
        CHANGED,
        DJANGO_SORTED,
        Ok(false),
    ),
    // Of a text for which the writer has no room the first bytes are written.
    Run(
        "",
        UNSORTED,
        (1000, 5),
        Err(RunError::Write),
        "from ",
        Ok(false),
    ),
];

#[test]
fn sorts_and_checks_texts(rt: HostRuntime) -> Result<(), Fail> {
    each_holds_under_settings(rt.alloc(), &[("RUNS", RUNS), ("BAD_RUNS", BAD_RUNS)])
}
