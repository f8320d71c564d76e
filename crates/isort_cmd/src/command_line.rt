//! The words of a command line, read as a job.
ghost use Rattle.std.specs.Prelude.{◌≡◌, IfOk, IfErr, map, true, string_bytes};
ghost use Rattle.clap.specs.Words.{HasKind, fault_of, kind_of, takes};
ghost use Rattle.isort_cmd.specs.Options.{isort_app};
ghost use Rattle.isort_cmd.specs.CommandLine.{IsOfParser, IsReadAsJob, IsUsageError};
ghost use Rattle.isort_cmd.specs.UsageText.{EndsInLineFeed, usage_text};
ghost use Rattle.isort_cmd.specs.Private.ParserSteps.{IsParse, IsToldAs};

use crate::arguments::isort_command;
use crate::choice::job_of;
use crate::job::Job;
use crate::usage::UsageError;
use clap::error::ErrorKind;
use clap::{ArgMatches, Error};
use std::alloc::{AllocError, Global};

/// Reads the words of a command line, of which the first is the program's name.
///
/// Numbers are whole, from 0 to 2^32 - 1; whether the settings allow them is not asked. Nor is a profile's name.
///
/// - `Help`: the words ask for help.
/// - `Refused`: there is no file, an option that is not known, one that is given twice, or one whose value is missing or
///   is not a number where it has to be one.
/// - `Together`: options were given that do not go together. With `--identify` it is an option of sorting, or two of
///   `--unique`, `--packages`, `--modules` and `--attributes`. Without it, it is one of these four, or `--top-only`.
/// - `Memory`: memory ran out.
pub fn command(alloc: Global, words: Vec<String>) -> Result<Job, UsageError>
    ensures ok { IfOk result (IsReadAsJob (map string_bytes words.items)) }
    ensures err { IfErr result (IsUsageError (map string_bytes words.items)) }
    // What is printed is a line at least: the parser's text too isn't empty.
    ensures line { IfErr result (λ e. EndsInLineFeed (usage_text e)) }
    // Words that the parser takes are neither refused nor answered with help.
    ensures taken { takes isort_app (map string_bytes words.items) ≡ true
        → IfErr result (λ e. ¬ IsOfParser e) }
{
    match parse(alloc, words.as_slice()) {
        Ok(matches) => job_of(alloc, &matches),
        Err(error) => Err(refusal(alloc, &error)),
    }
}

/// What the parser finds in the words.
fn parse<'a>(alloc: Global, words: &'a [String]) -> Result<ArgMatches<'a>, Error>
    ensures ok { IfOk result (IsParse (map string_bytes words.now)) }
    ensures err { IfErr result (HasKind (fault_of isort_app (map string_bytes words.now))) }
    ensures taken { IfErr result (λ e. takes isort_app (map string_bytes words.now) ≡ true
        → kind_of e ≡ ErrorKind.OutOfMemory) }
{
    isort_command(alloc)?.try_get_matches_from(words)
}

/// What an error of the parser is told as.
fn refusal(alloc: Global, error: &Error) -> UsageError
    ensures told { IsToldAs (kind_of error.now) result }
    ensures line { EndsInLineFeed (usage_text result) }
{
    let kind = error.kind();
    if kind == ErrorKind::OutOfMemory {
        return UsageError::Memory;
    }
    match parser_text(alloc, error) {
        Ok(text) if kind == ErrorKind::DisplayHelp => UsageError::Help(text),
        Ok(text) => UsageError::Refused(text),
        Err(_) => UsageError::Memory,
    }
}

/// The parser's text of an error. The parser doesn't promise how it ends: it gets a line feed where it has none.
fn parser_text(alloc: Global, error: &Error) -> Result<String, AllocError>
    ensures { IfOk result (λ text. EndsInLineFeed (string_bytes text)) }
{
    let mut text = format!(in alloc; "{error}")?;
    if !text.ends_with('\n') {
        text.push('\n')?;
    }
    Ok(text)
}
