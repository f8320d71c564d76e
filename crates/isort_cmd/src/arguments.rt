//! The options and files of the command line, and its help.
ghost use Rattle.std.specs.Prelude.{◌≡◌, IfOk, false};
ghost use Rattle.clap.specs.Words.{app_of, rule_of};
ghost use Rattle.isort_cmd.specs.Options.{files_rule, isort_app};
ghost use Rattle.isort_cmd.specs.Private.ParserSteps.{rule_of_option, with_rules_of};

use clap::{Arg, ArgAction, Command, value_parser};
use std::alloc::{AllocError, Global};

/// What the help says of the program.
const ABOUT: &str = "Sort the import statements of Python files, or list them.";

/// What the help says after the options.
const AFTER_HELP: &str = "\
A file is sorted in place, and standard input to standard output.
Options of listing need --identify, and those of sorting and its settings exclude it.
At most one of --unique, --packages, --modules and --attributes can be given.

Exit status:
  0  All is well
  1  A file is not sorted, with --check-only; or it could not be read, understood
     or written
  2  The options or the settings are wrong

Examples:
  isort -c a.py b.py  Say which of the two files are not sorted
  isort --identify -  List the imports of standard input";

/// What the help says of the files.
const FILES: &str = "Python files; - is standard input";

/// The help's heading of the options of a listing.
const LISTING_HEADING: &str = "Listing";

/// The help's heading of the options of sorting.
const SORTING_HEADING: &str = "Sorting";

/// The help's heading of the options of sorting's settings.
const SETTINGS_HEADING: &str = "Settings of sorting";

/// What an option takes.
enum OptionValue {
    /// Nothing.
    Flag,
    /// A text, and what the help calls it.
    Text(&'static str),
    /// A whole number.
    Number,
}

/// An option of the command line.
struct CommandOption {
    /// The heading in the help under which it stands.
    heading: &'static str,
    /// What follows `--`.
    name: &'static str,
    /// What follows `-`, if it has a letter too.
    letter: Option<char>,
    /// What it takes.
    value: OptionValue,
    /// What the help says of it.
    help: &'static str,
}

/// The options, in the order of the help.
static OPTIONS: [CommandOption; 13] = [
    CommandOption {
        heading: LISTING_HEADING,
        name: "identify",
        letter: None,
        value: OptionValue::Flag,
        help: "List the imports, and sort nothing",
    },
    CommandOption {
        heading: LISTING_HEADING,
        name: "unique",
        letter: None,
        value: OptionValue::Flag,
        help: "List only the first of equal imports",
    },
    CommandOption {
        heading: LISTING_HEADING,
        name: "packages",
        letter: None,
        value: OptionValue::Flag,
        help: "List only the first import of each package",
    },
    CommandOption {
        heading: LISTING_HEADING,
        name: "modules",
        letter: None,
        value: OptionValue::Flag,
        help: "List only the first import of each module",
    },
    CommandOption {
        heading: LISTING_HEADING,
        name: "attributes",
        letter: None,
        value: OptionValue::Flag,
        help: "List only the first import of each attribute of a module",
    },
    CommandOption {
        heading: LISTING_HEADING,
        name: "top-only",
        letter: None,
        value: OptionValue::Flag,
        help: "List only the imports before the first function or class",
    },
    CommandOption {
        heading: SORTING_HEADING,
        name: "check-only",
        letter: Some('c'),
        value: OptionValue::Flag,
        help: "Change nothing, and say which files are not sorted",
    },
    CommandOption {
        heading: SORTING_HEADING,
        name: "check",
        letter: None,
        value: OptionValue::Flag,
        help: "The same as --check-only",
    },
    CommandOption {
        heading: SORTING_HEADING,
        name: "stdout",
        letter: Some('d'),
        value: OptionValue::Flag,
        help: "Write the sorted text to standard output, not to the file",
    },
    CommandOption {
        heading: SETTINGS_HEADING,
        name: "settings-file",
        letter: None,
        value: OptionValue::Text("F"),
        help: "Read the settings from F, not from ./pyproject.toml",
    },
    CommandOption {
        heading: SETTINGS_HEADING,
        name: "profile",
        letter: None,
        value: OptionValue::Text("P"),
        help: "Start from the settings of profile P; the only one is black",
    },
    CommandOption {
        heading: SETTINGS_HEADING,
        name: "line-length",
        letter: Some('l'),
        value: OptionValue::Number,
        help: "Wrap imports longer than N characters, 1 to 10000",
    },
    CommandOption {
        heading: SETTINGS_HEADING,
        name: "multi-line",
        letter: Some('m'),
        value: OptionValue::Number,
        help: "How to wrap: 0 grid, 1 vertical, 2 hanging, 3 vertical hanging",
    },
];

/// The parser of the command line.
pub(crate) fn isort_command<'a>(alloc: Global) -> Result<Command<'a>, AllocError>
    ensures { IfOk result (λ c. app_of c ≡ isort_app) }
{
    let command = Command::new(alloc, "isort")
        .about(ABOUT)
        .after_help(AFTER_HELP)
        .bin_name("isort")?;
    with_options(alloc, command.arg(files_argument(alloc))?, &OPTIONS)
}

/// The files as the parser takes them.
fn files_argument<'a>(alloc: Global) -> Arg<'a>
    ensures rule { rule_of result ≡ files_rule }
    ensures local { result.global ≡ false }
{
    Arg::new(alloc, "FILE")
        .required(true)
        .num_args(1..)
        .help(FILES)
}

/// The parser with these options too.
fn with_options<'a>(
    alloc: Global,
    command: Command<'a>,
    options: &[CommandOption],
) -> Result<Command<'a>, AllocError>
    ensures { IfOk result (λ c. app_of c ≡ with_rules_of options.now (app_of command.entry)) }
{
    let mut command = command;
    for option in options {
        command = command
            .next_help_heading(option.heading)
            .arg(argument(alloc, option))?;
    }
    Ok(command)
}

/// The option as the parser takes it.
fn argument<'a>(alloc: Global, option: &CommandOption) -> Arg<'a>
    ensures rule { rule_of result ≡ rule_of_option option.now }
    ensures local { result.global ≡ false }
{
    let argument = Arg::new(alloc, option.name)
        .long(option.name)
        .help(option.help);
    let argument = match option.value {
        OptionValue::Flag => argument.action(ArgAction::SetTrue),
        OptionValue::Text(name) => argument.value_name(name),
        OptionValue::Number => argument.value_name("N").value_parser(value_parser!(u32)),
    };
    match option.letter {
        Some(letter) => argument.short(letter),
        None => argument,
    }
}
