//! The words of a command line.
use isort_cmd::{UsageError, command};
use std::alloc::Global;
use std::test::Fail;
use test_harness::cases::{Case, all_are_so, each_holds_again, is_shown, was_refused};

/// The words of a line, as `command` takes them.
fn words_of(alloc: Global, line: &str) -> Option<Vec<String>> {
    let mut words = Vec::new(alloc);
    for word in line.split_whitespace() {
        words.push(String::from_str(alloc, word).ok()?).ok()?;
    }
    Some(words)
}

/// A line of words, and how what `command` makes of them begins, as it is shown for debugging. A job is shown whole.
struct Reads(&'static str, &'static str);

/// What `command` makes of a line of words, as it is shown for debugging.
fn shown(alloc: Global, line: &str) -> Option<String> {
    let answer = command(alloc, words_of(alloc, line)?);
    format!(in alloc; "{answer:?}").ok()
}

impl Case for Reads {
    fn holds(&self, alloc: Global) -> bool {
        match shown(alloc, self.0) {
            Some(text) => text.as_str().starts_with(self.1),
            None => false,
        }
    }
}

/// Options that don't go together.
static TOGETHER: &[Reads] = &[
    Reads("isort --identify --modules --packages -", "Err(Together)"),
    Reads("isort --packages a.py", "Err(Together)"),
    Reads("isort --top-only a.py", "Err(Together)"),
    Reads("isort --identify --check a.py", "Err(Together)"),
    Reads("isort --identify -d a.py", "Err(Together)"),
    Reads("isort --identify --profile black a.py", "Err(Together)"),
    Reads("isort --identify -m 3 a.py", "Err(Together)"),
];

/// Words that are refused.
static REFUSED: &[Reads] = &[
    Reads(
        "isort",
        "Err(Refused(\"error: the following required arguments were not provided:\\n",
    ),
    Reads(
        "isort -c -c a.py",
        "Err(Refused(\"error: the argument '--check-only' cannot be used multiple times\\n",
    ),
    Reads(
        "isort -x a.py",
        "Err(Refused(\"error: unexpected argument '-x' found\\n",
    ),
    Reads(
        "isort a.py -l",
        "Err(Refused(\"error: a value is required for '--line-length <N>' but none was supplied\\n",
    ),
    Reads(
        "isort -l x a.py",
        "Err(Refused(\"error: invalid value 'x' for '--line-length <N>'",
    ),
    Reads(
        "isort -l=-1 a.py",
        "Err(Refused(\"error: invalid value '-1' for '--line-length <N>'",
    ),
    Reads(
        "isort -m 4294967296 a.py",
        "Err(Refused(\"error: invalid value '4294967296' for '--multi-line <N>'",
    ),
];

/// Help.
static HELP: &[Reads] = &[
    Reads(
        "isort --help",
        "Err(Help(\"Sort the import statements of Python files, or list them.\\n",
    ),
    Reads(
        "isort -h",
        "Err(Help(\"Sort the import statements of Python files, or list them.\\n",
    ),
];

/// Listings.
static LISTINGS: &[Reads] = &[
    Reads(
        "isort --identify -",
        "Ok(Job { files: [\"-\"], action: Identify(FindOptions { unique: None, top_only: false }) })",
    ),
    Reads(
        "isort --identify --top-only a.py b.py",
        "Ok(Job { files: [\"a.py\", \"b.py\"], action: Identify(FindOptions { unique: None, top_only: true }) })",
    ),
    Reads(
        "isort a.py --unique --identify -- -c",
        "Ok(Job { files: [\"a.py\", \"-c\"], action: Identify(FindOptions { unique: Some(Alias), top_only: false }) })",
    ),
    Reads(
        "isort --identify --packages a.py",
        "Ok(Job { files: [\"a.py\"], action: Identify(FindOptions { unique: Some(Package), top_only: false }) })",
    ),
    Reads(
        "isort --identify --modules a.py",
        "Ok(Job { files: [\"a.py\"], action: Identify(FindOptions { unique: Some(Module), top_only: false }) })",
    ),
    Reads(
        "isort --identify --attributes a.py",
        "Ok(Job { files: [\"a.py\"], action: Identify(FindOptions { unique: Some(Attribute), top_only: false }) })",
    ),
];

/// Sorting and checking.
static SORTINGS: &[Reads] = &[
    Reads(
        "isort a.py b.py",
        "Ok(Job { files: [\"a.py\", \"b.py\"], action: Sort { check: false, to_stdout: false, settings_file: None, \
         profile: None, line_length: None, multi_line: None } })",
    ),
    Reads(
        "isort -l 0 a.py",
        "Ok(Job { files: [\"a.py\"], action: Sort { check: false, to_stdout: false, settings_file: None, profile: None, \
         line_length: Some(0), multi_line: None } })",
    ),
    Reads(
        "isort -c -l 100 a.py",
        "Ok(Job { files: [\"a.py\"], action: Sort { check: true, to_stdout: false, settings_file: None, profile: None, \
         line_length: Some(100), multi_line: None } })",
    ),
    Reads(
        "isort --check -m=3 -",
        "Ok(Job { files: [\"-\"], action: Sort { check: true, to_stdout: false, settings_file: None, profile: None, \
         line_length: None, multi_line: Some(3) } })",
    ),
    Reads(
        "isort a.py -cdl5 b.py",
        "Ok(Job { files: [\"a.py\", \"b.py\"], action: Sort { check: true, to_stdout: true, settings_file: None, \
         profile: None, line_length: Some(5), multi_line: None } })",
    ),
    Reads(
        "isort --settings-file s.toml --profile= a.py",
        "Ok(Job { files: [\"a.py\"], action: Sort { check: false, to_stdout: false, settings_file: Some(\"s.toml\"), \
         profile: Some(\"\"), line_length: None, multi_line: None } })",
    ),
];

/// Whether options that do not go together are told so.
fn is_printed(alloc: Global) -> bool {
    is_shown(
        alloc,
        &UsageError::Together,
        "isort: U1 options do not go together\n",
    )
}

#[test]
fn reads_words(rt: HostRuntime) -> Result<(), Fail> {
    let alloc = rt.alloc();
    all_are_so(&[is_printed(alloc) || was_refused(alloc) && is_printed(alloc)])?;
    each_holds_again(
        alloc,
        &[
            ("TOGETHER", TOGETHER),
            ("REFUSED", REFUSED),
            ("HELP", HELP),
            ("LISTINGS", LISTINGS),
            ("SORTINGS", SORTINGS),
        ],
    )
}
