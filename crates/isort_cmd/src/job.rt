//! What the program is asked to do.
ghost use Rattle.std.specs.Prelude.{◌≡◌};

use isort_find::FindOptions;

/// The path that stands for standard input.
pub const STANDARD_INPUT: &str = "-";

/// What one run of the program has to do.
#[derive(Debug, Drop)]
pub struct Job {
    /// The paths of the files, in the order of the words. `-` is standard input.
    pub files: Vec<String>,
    /// What is done with each of them.
    pub action: Action,
}

/// What is asked for.
#[derive(Debug, Drop)]
pub enum Action {
    /// Its imports are listed: those that the options ask for.
    Identify(FindOptions),
    /// Its imports are sorted.
    Sort {
        /// Only tell whether the file is sorted. This wins over `to_stdout`.
        check: bool,
        /// Write the sorted text to standard output, and no file.
        to_stdout: bool,
        /// The file with the settings, in place of `pyproject.toml`.
        settings_file: Option<String>,
        /// The name of the profile, as it was given.
        profile: Option<String>,
        /// The length of a line in characters, as it was given: it may be out of range.
        line_length: Option<u32>,
        /// The number of the wrap mode, as it was given: there may be no such mode.
        multi_line: Option<u32>,
    },
}

/// What is done with one file.
#[derive(Clone, Copy, Debug)]
pub enum Task {
    /// Its imports are listed on standard output: those that the options ask for.
    List(FindOptions),
    /// It is compared with its sorted text.
    Check,
    /// Its sorted text goes to standard output.
    Print,
    /// It is rewritten where its sorted text differs.
    Rewrite,
}

impl Action {
    ghost use Rattle.isort_cmd.specs.Task.{task_of};

    /// What is done with the file at `path`. A check wins over printing, and standard input, `-`, is printed where a file
    /// would be rewritten.
    pub fn task(&self, path: &str) -> Task
        ensures { result ≡ task_of path.now self.now }
    {
        match self {
            Action::Identify(options) => Task::List(*options),
            Action::Sort { check: true, .. } => Task::Check,
            Action::Sort {
                to_stdout: true,
                ..
            } => Task::Print,
            Action::Sort { .. } if path == STANDARD_INPUT => Task::Print,
            Action::Sort { .. } => Task::Rewrite,
        }
    }
}
