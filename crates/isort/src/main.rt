//! The program `isort`: it sorts the import statements of Python files where they stand, tells whether they are sorted,
//! or lists them.
//!
//! What it does with a text, and what it tells of it, stands in `isort_cmd`, with proofs. Here are the files, the
//! streams and the process's status.
#![tactic(auto)]

mod input;
mod messages;
mod output;
mod rewrite;
mod settings;
mod task;

use crate::input::Inputs;
use crate::messages::{tell, tell_no_memory};
use crate::output::Output;
use crate::settings::{settings_of, tell_refusal};
use crate::task::{perform, prints};
use isort_cmd::{Action, Job, RunError, Settings, UsageError, command};
use std::env;
use std::io::{self, ErrorKind};
use std::process::ExitCode;

/// How many bytes a file may have.
const MAX_BYTES: u64 = 1 << 30;

/// The status where a file isn't sorted under a check, or where something could not be read, understood or written.
const FAILED: u8 = 1;

/// The status of wrong usage, and of wrong settings.
const REFUSED: u8 = 2;

/// Does what the command line asks for.
fn main(rt: HostRuntime) -> ExitCode {
    let status = match words(&rt) {
        Ok(words) => match command(rt.alloc(), words) {
            Ok(job) => run(&rt, &job),
            Err(error) => refuse(&rt, &error),
        },
        Err(error) => refuse_words(&rt, &error),
    };
    ExitCode::from(status)
}

/// The words of the command line, of which the first is the program's name.
fn words(rt: &HostRuntime) -> io::Result<Vec<String>> {
    Ok(env::args(rt)?.collect(rt.alloc())?)
}

/// Words that can't be had: one of them is not UTF-8, or memory ran out.
fn refuse_words(rt: &HostRuntime, error: &io::Error) -> u8 {
    if error.kind() == ErrorKind::OutOfMemory {
        tell_no_memory(rt);
    } else {
        tell(rt, "isort: the command line is not UTF-8\n");
    }
    REFUSED
}

/// Words that give no job. Only help that was asked for goes to standard output, and is no failure.
fn refuse(rt: &HostRuntime, error: &UsageError) -> u8 {
    if let UsageError::Help(text) = error {
        return Output::new().print(rt, text.as_str());
    }
    tell(rt, error.text());
    REFUSED
}

/// Does the job, and answers the process's status.
fn run(rt: &HostRuntime, job: &Job) -> u8 {
    match settings_of(rt, &job.action) {
        Ok(settings) => run_over_files(rt, job, &settings),
        Err(refusal) => {
            tell_refusal(rt, &refusal);
            REFUSED
        }
    }
}

/// Takes the files in the order given. What comes of one says nothing of the next.
fn run_over_files(rt: &HostRuntime, job: &Job, settings: &Settings) -> u8 {
    let mut inputs = Inputs::new();
    let mut output = Output::new();
    let mut status = 0;
    for path in &job.files {
        let told = run_over_file(
            rt,
            &mut inputs,
            &mut output,
            &job.action,
            path.as_str(),
            settings,
        );
        status = status.max(told);
    }
    status
}

/// Does the action on the file at `path`, tells what came of it, and answers the status for it. A write that failed where the
/// text goes to standard output is no fault of the file.
fn run_over_file(
    rt: &HostRuntime,
    inputs: &mut Inputs,
    output: &mut Output,
    action: &Action,
    path: &str,
    settings: &Settings,
) -> u8 {
    let task = action.task(path);
    let result = perform(rt, inputs, task, path, settings);
    if prints(task) && matches!(result, Err(RunError::Write)) {
        return output.tell_broken(rt);
    }
    output.tell_result(rt, path, action, &result)
}
