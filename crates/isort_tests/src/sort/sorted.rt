//! What each call answers of a text that is sorted.
use crate::sort::writing::is_written;
use isort_settings::Settings;
use isort_sort::{Outcome, SortError, Sorted, blocks, check_code, sort_code, sort_outcome};
use py_lines::{Fault, FaultKind};
use std::alloc::Global;
use std::test::Fail;
use test_harness::cases::{SettingsCase, each_holds_under_settings};
use test_harness::texts::BROKEN;

/// What sorting a text in memory comes to.
fn outcome_of(alloc: Global, text: &[u8], settings: &Settings) -> Option<Outcome> {
    match sort_code(alloc, text, settings) {
        Ok(Sorted::Same) => Some(Outcome::Same),
        Ok(Sorted::Changed(_)) => Some(Outcome::Changed),
        Ok(Sorted::Skipped) => Some(Outcome::Skipped),
        Err(_) => None,
    }
}

/// A text, and how it is answered: when it is sorted and when it is checked.
struct Answered(&'static str, Outcome);

impl SettingsCase for Answered {
    fn holds_under(&self, alloc: Global, settings: &Settings) -> bool {
        let text = self.0.as_bytes();
        outcome_of(alloc, text, settings) == Some(self.1)
            && sort_outcome(alloc, text, settings) == Ok(self.1)
            && check_code(alloc, text, settings) == Ok(self.1 != Outcome::Changed)
    }
}

static SAME: &[Answered] = &[
    Answered("", Outcome::Same),
    Answered("\u{feff}", Outcome::Same),
    Answered("x = 1\n", Outcome::Same),
    Answered("  import b\n import a\n", Outcome::Same),
    Answered("import b  # isort: skip\nimport a\n", Outcome::Same),
    Answered("import b; import a\n", Outcome::Same),
    Answered("import a\n\nx = 'isort: skip_file'\n", Outcome::Same),
];

static SKIPPED: &[Answered] = &[
    Answered(
        "\"\"\"isort: skip_file\"\"\"\nimport b\nimport a\n",
        Outcome::Skipped,
    ),
    Answered(
        "# about\n\nr'isort:skip_file'; x = 1\nimport b\nimport a\n",
        Outcome::Skipped,
    ),
    Answered("# isort: skip_file\nimport b\nimport a\n", Outcome::Skipped),
    Answered("import b\nimport a  # isort: skip_file\n", Outcome::Skipped),
    Answered(
        "from b import (  # isort: skip_file\n    c)\nimport a\n",
        Outcome::Skipped,
    ),
    Answered("import b\nimport a\n# isort: skip_file", Outcome::Skipped),
];

static CHANGED: &[Answered] = &[
    Answered("import b\nimport a\n", Outcome::Changed),
    Answered("import a\nx = 1\n", Outcome::Changed),
    Answered("import b\nimport a\n'isort: skip_file'\n", Outcome::Changed),
    Answered(
        "x = 'isort: skip_file'\nimport b\nimport a\n",
        Outcome::Changed,
    ),
    Answered(
        "# isort: skip_files\nimport b\nimport a\n",
        Outcome::Changed,
    ),
];

/// A text, and the kind, the byte and the line of its fault.
struct Faulty(&'static str, FaultKind, u64, u64);

impl SettingsCase for Faulty {
    /// Whether each call refuses the text so.
    fn holds_under(&self, alloc: Global, settings: &Settings) -> bool {
        let want = SortError::Fault(Fault {
            kind: self.1,
            offset: self.2,
            line: self.3,
        });
        let text = self.0.as_bytes();
        is_written(alloc, settings, self.0, Err(want), b"")
            && sort_code(alloc, text, settings).err() == Some(want)
            && sort_outcome(alloc, text, settings) == Err(want)
            && check_code(alloc, text, settings) == Err(want)
            && blocks(alloc, text).err() == Some(want)
    }
}

static FAULTS: &[Faulty] = &[
    Faulty("from b import c,\n", FaultKind::BadImport, 0, 1),
    Faulty("import a\nx = 1; import\n", FaultKind::BadImport, 16, 2),
    Faulty("import b\nimport a\nx = (\n", FaultKind::OpenBracket, 22, 3),
    Faulty(BROKEN, FaultKind::WrongClose, 22, 3),
    Faulty("import\n$", FaultKind::BadImport, 0, 1),
    Faulty("x = 'abc\n", FaultKind::OpenString, 4, 1),
    Faulty("# isort: skip_file\nimport\n", FaultKind::BadImport, 19, 2),
    Faulty("# isort: skip_file\n)", FaultKind::WrongClose, 19, 2),
    Faulty(
        "import b\nimport a\nx = f\"{y\n",
        FaultKind::OpenField,
        24,
        3,
    ),
];

#[test]
fn answers_texts_and_refuses_faults(rt: HostRuntime) -> Result<(), Fail> {
    let alloc = rt.alloc();
    each_holds_under_settings(
        alloc,
        &[("SAME", SAME), ("SKIPPED", SKIPPED), ("CHANGED", CHANGED)],
    )?;
    each_holds_under_settings(alloc, &[("FAULTS", FAULTS)])
}
