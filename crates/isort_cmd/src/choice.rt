//! What the options of a command line ask for.
ghost use Rattle.std.specs.Prelude.{◌≡◌, IfOk, IfErr, codes, map, unwrap_or, option_map, string_bytes, []};
ghost use Rattle.clap.specs.Words.{all_of, first_of};
ghost use Rattle.isort_cmd.specs.Choice.{IsAction, IsJob, is_forbidden, key_count, key_option, option_number, wants_sorting, was_given};
ghost use Rattle.isort_cmd.specs.Private.ParserSteps.{IsNoJob, rows_in};

use crate::job::{Action, Job};
use crate::usage::UsageError;
use clap::ArgMatches;
use clap::parser::ValueSource;
use isort_find::{FindOptions, ImportKey};
use std::alloc::{AllocError, Global};

/// The job that the matches ask for.
pub(crate) fn job_of(alloc: Global, matches: &ArgMatches<'_>) -> Result<Job, UsageError>
    ensures ok { IfOk result (IsJob (rows_in matches.now)) }
    ensures err { IfErr result (IsNoJob (rows_in matches.now)) }
{
    if is_forbidden(matches) {
        return Err(UsageError::Together);
    }
    Ok(Job {
        files: files_of(alloc, matches)?,
        action: action_of(alloc, matches)?,
    })
}

/// Whether options were given that do not go together.
fn is_forbidden(matches: &ArgMatches<'_>) -> bool
    ensures { result ≡ is_forbidden (rows_in matches.now) }
{
    if was_given(matches, "identify") {
        wants_sorting(matches) || key_count(matches) > 1
    } else {
        was_given(matches, "top-only") || key_count(matches) > 0
    }
}

/// Whether an option was given that goes with sorting alone.
fn wants_sorting(matches: &ArgMatches<'_>) -> bool
    ensures { result ≡ wants_sorting (rows_in matches.now) }
{
    was_given(matches, "check-only")
        || was_given(matches, "check")
        || was_given(matches, "stdout")
        || was_given(matches, "settings-file")
        || was_given(matches, "profile")
        || was_given(matches, "line-length")
        || was_given(matches, "multi-line")
}

/// How many options that name a key were given.
fn key_count(matches: &ArgMatches<'_>) -> usize
    ensures { result ≡ key_count (rows_in matches.now) }
{
    usize::from(was_given(matches, "unique"))
        + usize::from(was_given(matches, "packages"))
        + usize::from(was_given(matches, "modules"))
        + usize::from(was_given(matches, "attributes"))
}

/// What is done with each file.
fn action_of(alloc: Global, matches: &ArgMatches<'_>) -> Result<Action, AllocError>
    ensures { IfOk result (IsAction (rows_in matches.now)) }
{
    if was_given(matches, "identify") {
        return Ok(Action::Identify(FindOptions {
            unique: key_option(matches),
            top_only: was_given(matches, "top-only"),
        }));
    }
    Ok(Action::Sort {
        check: was_given(matches, "check-only") || was_given(matches, "check"),
        to_stdout: was_given(matches, "stdout"),
        settings_file: option_text(alloc, matches, "settings-file")?,
        profile: option_text(alloc, matches, "profile")?,
        line_length: option_number(matches, "line-length"),
        multi_line: option_number(matches, "multi-line"),
    })
}

/// The key of the option that names one.
fn key_option(matches: &ArgMatches<'_>) -> Option<ImportKey>
    ensures { result ≡ key_option (rows_in matches.now) }
{
    if was_given(matches, "unique") {
        Some(ImportKey::Alias)
    } else if was_given(matches, "packages") {
        Some(ImportKey::Package)
    } else if was_given(matches, "modules") {
        Some(ImportKey::Module)
    } else if was_given(matches, "attributes") {
        Some(ImportKey::Attribute)
    } else {
        None
    }
}

/// The files, in their order.
fn files_of(alloc: Global, matches: &ArgMatches<'_>) -> Result<Vec<String>, AllocError>
    ensures { IfOk result (λ files. map string_bytes files.items
        ≡ unwrap_or (all_of (codes "FILE") (rows_in matches.now)) []) }
{
    let mut files = Vec::new(alloc);
    for path in matches.get_raw("FILE").unwrap_or(&[]) {
        files.push(String::from_str(alloc, path)?)?;
    }
    Ok(files)
}

/// The number that the option was given.
fn option_number(matches: &ArgMatches<'_>, name: &str) -> Option<u32>
    ensures { result ≡ option_number name.now (rows_in matches.now) }
{
    matches.get_one::<u32>(name)
}

/// The text that the option was given.
#[tactic(auto, using(crate::proofs::MatchLemmas::first_found))]
fn option_text(
    alloc: Global,
    matches: &ArgMatches<'_>,
    name: &str,
) -> Result<Option<String>, AllocError>
    ensures { IfOk result (λ text. option_map string_bytes text
        ≡ first_of name.now (rows_in matches.now)) }
{
    match matches.get_str(name) {
        Some(text) => Ok(Some(String::from_str(alloc, text)?)),
        None => Ok(None),
    }
}

/// Whether the words gave the option.
#[tactic(auto, using(crate::proofs::MatchLemmas::source_found))]
fn was_given(matches: &ArgMatches<'_>, name: &str) -> bool
    ensures { result ≡ was_given name.now (rows_in matches.now) }
{
    matches!(matches.value_source(name), Some(ValueSource::CommandLine))
}
