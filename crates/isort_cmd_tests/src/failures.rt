//! Runs over readers and writers that are interrupted, fail at some call, or never end.
ghost use Rattle.std.specs.Prelude.{◌≡◌};
ghost use Rattle.isort_sort.specs.Metered.{last_of};

use isort_cmd::{LIST_CHUNK, Last, Metered, RunError, identify, sort_run};
use isort_settings::Settings;
use std::alloc::Global;
use std::io;
use std::io::{ErrorKind, Read};
use std::test::Fail;
use test_harness::cases::{SettingsCase, each_holds_under_settings};
use test_harness::devices::{Device, Trouble};
use test_harness::options::ALL;
use test_harness::texts::{FIRST, FIRST_LINES, SORTED, UNSORTED};

/// What is run.
#[derive(Clone, Copy)]
enum Task {
    Identify,
    Sort,
}

/// Runs this over a text of at most 1000 bytes.
fn run<R: Read>(
    alloc: Global,
    settings: &Settings,
    task: Task,
    reader: &mut Metered<R>,
    writer: &mut Metered<Device<'_>>,
) -> Result<(), RunError>
    requires reader_fine { last_of reader.old ≡ Last.Fine }
    requires writer_fine { last_of writer.old ≡ Last.Fine }
{
    match task {
        Task::Identify => {
            let mut buffer = [0u8; LIST_CHUNK];
            identify(alloc, reader, writer, "-", ALL, 1000, &mut buffer)
        }
        Task::Sort => match sort_run(alloc, reader, writer, settings, 1000) {
            Ok(_) => Ok(()),
            Err(error) => Err(error),
        },
    }
}

/// Which device fails.
#[derive(Clone, Copy)]
enum Side {
    Reader,
    Writer,
}

/// Which device fails, how, and what a run answers then.
#[derive(Clone, Copy)]
struct Failure(Side, ErrorKind, RunError);

static FAILURES: &[Failure] = &[
    Failure(Side::Reader, ErrorKind::Other, RunError::Read),
    Failure(Side::Reader, ErrorKind::Interrupted, RunError::NeverEnds),
    Failure(Side::Writer, ErrorKind::Other, RunError::Write),
    Failure(Side::Writer, ErrorKind::Interrupted, RunError::Write),
];

impl Failure {
    /// What goes wrong with the reader and the writer, after so many calls.
    fn troubles(self, sound: u32) -> (Trouble, Trouble) {
        let trouble = Trouble::After(sound, self.1);
        match self.0 {
            Side::Reader => (trouble, Trouble::None),
            Side::Writer => (Trouble::None, trouble),
        }
    }
}

/// What a run comes to.
#[derive(Clone, Copy)]
enum Met {
    /// It meets the failure, and answers as it has to.
    Failure,
    /// It ends before, and has written all of its output.
    End,
    /// It answers otherwise.
    Else,
}

/// How often a reader and a writer are interrupted before each call, and what a run answers.
static WAITS: &[(u16, u16, Result<(), RunError>)] = &[
    (999, 999, Ok(())),
    (1000, 0, Err(RunError::NeverEnds)),
    (0, 1000, Err(RunError::Write)),
];

/// What is run, over which text, and what it writes.
struct Ran(Task, &'static str, &'static str);

impl Ran {
    /// Whether the answer to a failure is right: that failure, after a part of the output, and none of it where a text to
    /// sort can't be read.
    fn is_failure(
        &self,
        failure: Failure,
        answer: Result<(), RunError>,
        unread: bool,
        written: &[u8],
    ) -> bool {
        answer == Err(failure.2)
            && self.2.as_bytes().starts_with(written)
            && (!unread || matches!(self.0, Task::Identify) || written.is_empty())
    }

    /// What a run with this answer comes to, after which these are the devices.
    fn met(
        &self,
        failure: Failure,
        answer: Result<(), RunError>,
        reader: &Device<'_>,
        writer: &Device<'_>,
    ) -> Met {
        let written = writer.taken.as_slice();
        if reader.has_failed() || writer.has_failed() {
            if self.is_failure(failure, answer, reader.has_failed(), written) {
                return Met::Failure;
            }
        } else if answer == Ok(()) && written == self.2.as_bytes() {
            return Met::End;
        }
        Met::Else
    }

    /// What a run comes to of which so many calls go well.
    fn meets(
        &self,
        alloc: Global,
        settings: &Settings,
        failure: Failure,
        most: usize,
        sound: u32,
    ) -> Met {
        let (reads, writes) = failure.troubles(sound);
        let mut reader = Device::new(alloc, self.1.as_bytes(), most, reads);
        let mut writer = Device::new(alloc, b"", most, writes);
        let answer = run(alloc, settings, self.0, &mut reader, &mut writer);
        self.met(failure, answer, &reader.into_inner(), &writer.into_inner())
    }

    /// Whether the run answers as it has to, whichever call is the first that fails, up to the first that isn't reached.
    fn meets_each(
        &self,
        alloc: Global,
        settings: &Settings,
        failure: Failure,
        most: usize,
    ) -> bool {
        for sound in 0..1000 {
            match self.meets(alloc, settings, failure, most, sound) {
                Met::Failure => {}
                Met::End => return 0 < sound,
                Met::Else => return false,
            }
        }
        false
    }

    /// Whether the run answers each failure as it has to, over devices of so many bytes a call.
    fn meets_failures(&self, alloc: Global, settings: &Settings, most: usize) -> bool {
        for failure in FAILURES {
            if !self.meets_each(alloc, settings, *failure, most) {
                return false;
            }
        }
        true
    }

    /// Whether a run a byte a call over devices that are interrupted so often has this answer, and all of its output, or
    /// none of it.
    fn waits_so(
        &self,
        alloc: Global,
        settings: &Settings,
        waits: (u16, u16),
        answer: Result<(), RunError>,
    ) -> bool {
        let mut reader = Device::new(alloc, self.1.as_bytes(), 1, Trouble::Waits(waits.0));
        let mut writer = Device::new(alloc, b"", 1, Trouble::Waits(waits.1));
        let got = run(alloc, settings, self.0, &mut reader, &mut writer);
        let output = if answer.is_ok() { self.2 } else { "" };
        got == answer && writer.into_inner().taken.as_slice() == output.as_bytes()
    }

    /// Whether the run waits for interrupted calls as it has to.
    fn waits(&self, alloc: Global, settings: &Settings) -> bool {
        for (reads, writes, answer) in WAITS {
            if !self.waits_so(alloc, settings, (*reads, *writes), *answer) {
                return false;
            }
        }
        true
    }
}

impl SettingsCase for Ran {
    fn holds_under(&self, alloc: Global, settings: &Settings) -> bool {
        self.meets_failures(alloc, settings, 1)
            && self.meets_failures(alloc, settings, 7)
            && self.meets_failures(alloc, settings, 1000)
            && self.waits(alloc, settings)
    }
}

static ROWS: &[Ran] = &[
    Ran(Task::Identify, FIRST, FIRST_LINES),
    Ran(
        Task::Identify,
        "\"\"\"a \\\" import a\nimport b\n\"\"\"\ny = \"\"\nimport c\n",
        "-:5 import c\n",
    ),
    Ran(
        Task::Identify,
        "import é\r\nx = \"\"\"\"\"\"\nimport b",
        "-:1 import é\n-:3 import b\n",
    ),
    Ran(Task::Sort, UNSORTED, SORTED),
];

/// What is run over a reader without end, which is too long.
struct Endless(Task);

impl SettingsCase for Endless {
    fn holds_under(&self, alloc: Global, settings: &Settings) -> bool {
        let mut reader = Metered::new(io::repeat(b'#'));
        let mut writer = Device::new(alloc, b"", 1000, Trouble::None);
        let answer = run(alloc, settings, self.0, &mut reader, &mut writer);
        answer == Err(RunError::TooLong) && writer.into_inner().taken.is_empty()
    }
}

static TASKS: &[Endless] = &[Endless(Task::Identify), Endless(Task::Sort)];

#[test]
fn answers_each_failure_waits_for_interrupted_calls_and_leaves_a_reader_without_end(
    rt: HostRuntime,
) -> Result<(), Fail> {
    each_holds_under_settings(rt.alloc(), &[("ROWS", ROWS)])?;
    each_holds_under_settings(rt.alloc(), &[("TASKS", TASKS)])
}
