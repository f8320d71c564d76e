//! What is done with each file.
use crate::MAX_BYTES;
use crate::input::Inputs;
use crate::messages::told_as;
use crate::rewrite::rewrite;
use isort_cmd::{
    FindOptions, Metered, Outcome, RunError, Settings, Task, check_run, identify, read_text,
    sort_run,
};
use std::fs::{self, Metadata};
use std::io::{BufWriter, Stdout, Write};

/// Does the task with the file at `path`. By then no file is open any more, so that what is told of it goes nowhere else,
/// even where the process was begun with a closed output.
pub(crate) fn perform(
    rt: &HostRuntime,
    inputs: &mut Inputs,
    task: Task,
    path: &str,
    settings: &Settings,
) -> Result<Outcome, RunError> {
    match task {
        Task::List(options) => list(rt, inputs, path, options),
        Task::Check => Ok(if is_sorted(rt, inputs, path, settings)? {
            Outcome::Same
        } else {
            Outcome::Changed
        }),
        Task::Print => print_sorted(rt, inputs, path, settings),
        Task::Rewrite => sort_file(rt, inputs, path, settings),
    }
}

/// Whether the task prints on standard output what it makes of the text.
pub(crate) fn prints(task: Task) -> bool {
    matches!(task, Task::List(_) | Task::Print)
}

/// Standard output, through a buffer.
fn buffered_output(rt: &HostRuntime) -> Result<BufWriter<Stdout>, RunError> {
    match BufWriter::new(rt.alloc(), rt.stdout()) {
        Ok(out) => Ok(out),
        Err(_) => Err(RunError::Memory),
    }
}

/// The answer of a run, once what it wrote to standard output is out. What can't be written whole is a failed write.
fn written_out(
    out: Metered<BufWriter<Stdout>>,
    answer: Result<Outcome, RunError>,
) -> Result<Outcome, RunError> {
    match out.into_inner().flush() {
        Ok(()) => answer,
        Err(_) => Err(RunError::Write),
    }
}

/// Lists the imports on standard output.
fn list(
    rt: &HostRuntime,
    inputs: &mut Inputs,
    path: &str,
    options: FindOptions,
) -> Result<Outcome, RunError> {
    let mut reader = Metered::new(inputs.open(rt, path)?);
    let mut writer = Metered::new(buffered_output(rt)?);
    let listed = identify(
        rt.alloc(),
        &mut reader,
        &mut writer,
        path,
        options,
        MAX_BYTES,
        &mut inputs.buffer,
    );
    written_out(writer, listed.map(|()| Outcome::Same))
}

/// Whether the text is its own sorted text.
fn is_sorted(
    rt: &HostRuntime,
    inputs: &mut Inputs,
    path: &str,
    settings: &Settings,
) -> Result<bool, RunError> {
    let mut reader = Metered::new(inputs.open(rt, path)?);
    check_run(rt.alloc(), &mut reader, settings, MAX_BYTES)
}

/// Puts the sorted text on standard output.
fn print_sorted(
    rt: &HostRuntime,
    inputs: &mut Inputs,
    path: &str,
    settings: &Settings,
) -> Result<Outcome, RunError> {
    let mut reader = Metered::new(inputs.open(rt, path)?);
    let mut writer = Metered::new(buffered_output(rt)?);
    let sorted = sort_run(rt.alloc(), &mut reader, &mut writer, settings, MAX_BYTES);
    written_out(writer, sorted)
}

/// Rewrites the file where its sorted text differs. A file that is sorted is only checked, which takes no second text.
fn sort_file(
    rt: &HostRuntime,
    inputs: &mut Inputs,
    path: &str,
    settings: &Settings,
) -> Result<Outcome, RunError> {
    let seen = look_at(rt, path)?;
    if is_sorted(rt, inputs, path, settings)? {
        return Ok(Outcome::Same);
    }
    let mut reader = Metered::new(inputs.open(rt, path)?);
    let old = read_text(rt.alloc(), &mut reader, MAX_BYTES)?;
    drop(reader);
    let (outcome, new) = sort_in_memory(rt, old.as_slice(), settings)?;
    if !matches!(outcome, Outcome::Changed) {
        return Ok(outcome);
    }
    match rewrite(rt, path, &seen, old.as_slice(), new.as_slice()) {
        Ok(()) => Ok(outcome),
        Err(error) => Err(told_as(&error, RunError::Write)),
    }
}

/// The sorted text, and what sorting came to.
fn sort_in_memory(
    rt: &HostRuntime,
    text: &[u8],
    settings: &Settings,
) -> Result<(Outcome, Vec<u8>), RunError> {
    let mut reader = Metered::new(text);
    let mut writer = Metered::new(Vec::with_capacity(rt.alloc(), text.len())?);
    match sort_run(rt.alloc(), &mut reader, &mut writer, settings, MAX_BYTES) {
        Ok(outcome) => Ok((outcome, writer.into_inner())),
        // A vector refuses bytes only where memory runs out.
        Err(RunError::Write) => Err(RunError::Memory),
        Err(error) => Err(error),
    }
}

/// What the system says of a file that is to be sorted. What is neither a file nor a folder, such as a pipe, can't be
/// rewritten, so it isn't read either. A folder is refused when it is read.
fn look_at(rt: &HostRuntime, path: &str) -> Result<Metadata, RunError> {
    match fs::metadata(rt, path) {
        Ok(seen) if seen.is_file() || seen.is_dir() => Ok(seen),
        Ok(_) => Err(RunError::Write),
        Err(error) => Err(told_as(&error, RunError::Read)),
    }
}
