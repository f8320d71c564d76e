//! Listing the imports of a reader.
use isort_cmd::*;
use py_lines::{Fault, FaultKind as Kind};
use std::alloc::Global;
use std::io::ErrorKind;
use std::test::Fail;
use test_harness::cases::{Case, each_holds_again};
use test_harness::devices::{Device, Trouble};
use test_harness::options::{ALL, ATTRIBUTES, MODULES, PACKAGES, TOP, UNIQUE};
use test_harness::texts::{ALIKE, BRACKETS, DECLARED, FIRST, FIRST_LINES, TOO_MANY};

/// How a run ends.
#[derive(Clone, Copy)]
pub(crate) enum End {
    /// Well.
    Fine,
    /// With this error.
    Error(RunError),
    /// With this fault at this byte, in this line.
    Fault(Kind, u64, u64),
}

impl End {
    /// What the run answers.
    pub(crate) fn answer(self) -> Result<(), RunError> {
        match self {
            End::Fine => Ok(()),
            End::Error(error) => Err(error),
            End::Fault(kind, offset, line) => Err(RunError::Fault(Fault { kind, offset, line })),
        }
    }
}

/// What is seen of a reader and a writer after a listing.
#[derive(Clone, Copy)]
enum Seen {
    /// Nothing.
    None,
    /// How the reader's last call ended.
    Read(Last),
    /// How the writer's last call ended.
    Written(Last),
    /// How many calls of each were made.
    Calls(u32, u32),
}

impl Seen {
    /// Whether the last calls of the reader and the writer ended so, or so many calls of each were made.
    fn is_so(self, lasts: (Last, Last), calls: (u32, u32)) -> bool {
        match self {
            Seen::None => true,
            Seen::Read(last) => lasts.0 == last,
            Seen::Written(last) => lasts.1 == last,
            Seen::Calls(reads, writes) => calls == (reads, writes),
        }
    }
}

/// A listing.
#[derive(Clone, Copy)]
struct Listing<'t> {
    path: &'static str,
    /// The text, and how many bytes of it the reader gives a call.
    text: (&'t [u8], usize),
    /// What goes wrong with the reader and with the writer.
    troubles: (Trouble, Trouble),
    /// How many bytes a call the writer takes.
    most: usize,
    /// Which imports are listed, and how many bytes are taken.
    asked: (FindOptions, u16),
}

impl Listing<'_> {
    /// Whether it ends so, with these lines, after which this is seen.
    fn is_so(&self, alloc: Global, end: End, lines: &str, seen: Seen) -> bool {
        let mut reader = Device::new(alloc, self.text.0, self.text.1, self.troubles.0);
        let mut writer = Device::new(alloc, b"", self.most, self.troubles.1);
        let max = u64::from(self.asked.1);
        let mut buffer = [0u8; LIST_CHUNK];
        let got = identify(
            alloc,
            &mut reader,
            &mut writer,
            self.path,
            self.asked.0,
            max,
            &mut buffer,
        );
        let lasts = (reader.last(), writer.last());
        let (reader, writer) = (reader.into_inner(), writer.into_inner());
        got == end.answer()
            && writer.taken.as_slice() == lines.as_bytes()
            && seen.is_so(lasts, (reader.calls, writer.calls))
    }
}

/// A text, the options with how many bytes are taken, its lines, and how the listing ends.
struct Listed(&'static [u8], (FindOptions, u16), &'static str, End);

impl Case for Listed {
    fn holds(&self, alloc: Global) -> bool {
        let listing = Listing {
            path: "p.py",
            text: (self.0, 8192),
            troubles: (Trouble::None, Trouble::None),
            most: 8192,
            asked: self.1,
        };
        listing.is_so(alloc, self.3, self.2, Seen::None)
    }
}

/// All imports of a text of at most 1000 bytes.
const WHOLE: (FindOptions, u16) = (ALL, 1000);

const TOO_LONG: End = End::Error(RunError::TooLong);

const THREE: &str = "p.py:1 import a.b\np.py:2 from a import c\np.py:3 from .a import d\n";

const BOTH: &str = "p.py:1 import a\np.py:4 indented import b\n";

static LISTED: &[Listed] = &[
    Listed(b"", WHOLE, "", End::Fine),
    Listed(b"\xef\xbb\xbf", WHOLE, "", End::Fine),
    Listed(
        b"import os, sys as s",
        WHOLE,
        "p.py:1 import os\np.py:1 import sys as s\n",
        End::Fine,
    ),
    Listed(
        b"x = \"import a\"  # import b\nimport c",
        WHOLE,
        "p.py:2 import c\n",
        End::Fine,
    ),
    Listed(
        b"\"\"\"a \\\" import a\nimport b\n\"\"\"\ny = \"\"\nimport c\n",
        WHOLE,
        "p.py:5 import c\n",
        End::Fine,
    ),
    Listed(
        b"from a import (  # k\n    b as x,  # l\n    c,\n)\n",
        WHOLE,
        "p.py:1 from a import b as x\np.py:1 from a import c\n",
        End::Fine,
    ),
];

/// Texts of several lines, and other names.
static LISTED_LINES: &[Listed] = &[
    Listed(
        b"x = 1 + \\\r\n  2\r\nfrom . .x import y\r\n",
        WHOLE,
        "p.py:3 from ..x import y\n",
        End::Fine,
    ),
    Listed(
        b"if a: import b; from c import *\nraise X from Y\nz = yield from w\n",
        WHOLE,
        "p.py:1 import b\np.py:1 from c import *\n",
        End::Fine,
    ),
    Listed(
        b"if a:\n    import b\n",
        WHOLE,
        "p.py:2 indented import b\n",
        End::Fine,
    ),
    Listed(b"import \xc3\xa9", WHOLE, "p.py:1 import é\n", End::Fine),
    Listed(
        b"import a.b as c, d",
        WHOLE,
        "p.py:1 import a.b as c\np.py:1 import d\n",
        End::Fine,
    ),
    Listed(
        b"  import a\n",
        WHOLE,
        "p.py:1 indented import a\n",
        End::Fine,
    ),
];

/// Texts with a fault.
static FAULTS: &[Listed] = &[
    Listed(b"import as\n", WHOLE, "", End::Fault(Kind::BadImport, 0, 1)),
    Listed(b"x = \"a\n", WHOLE, "", End::Fault(Kind::OpenString, 4, 1)),
    Listed(
        b"import a\nimport b\nx = (1,",
        WHOLE,
        "p.py:1 import a\np.py:2 import b\n",
        End::Fault(Kind::OpenBracket, 22, 3),
    ),
    Listed(
        b"import a\nfrom b import c,\n",
        WHOLE,
        "p.py:1 import a\n",
        End::Fault(Kind::BadImport, 9, 2),
    ),
    Listed(
        b"import a; import\n",
        WHOLE,
        "",
        End::Fault(Kind::BadImport, 10, 1),
    ),
];

/// Short texts with a fault, and one with fields.
static SHORT_FAULTS: &[Listed] = &[
    Listed(b"x = 'abc\n", WHOLE, "", End::Fault(Kind::OpenString, 4, 1)),
    Listed(b"\"\"\"a", WHOLE, "", End::Fault(Kind::OpenTriple, 0, 1)),
    Listed(b"x = )", WHOLE, "", End::Fault(Kind::WrongClose, 4, 1)),
    Listed(b"x = \\ 1\n", WHOLE, "", End::Fault(Kind::BadJoin, 4, 1)),
    Listed(b"$", WHOLE, "", End::Fault(Kind::BadChar, 0, 1)),
    Listed(b"a\xff", WHOLE, "", End::Fault(Kind::BadUtf8, 1, 1)),
    Listed(
        b"f'{\n1}'\nimport a\nx = f\"{d[\"import\"]}\"\nf\"{y",
        WHOLE,
        "p.py:3 import a\n",
        End::Fault(Kind::OpenField, 40, 5),
    ),
];

/// What the options ask for, and how many bytes are taken.
static ASKED: &[Listed] = &[
    // What the options ask for.
    Listed(
        ALIKE,
        (PACKAGES, 1000),
        "p.py:1 import a.b\np.py:3 from .a import d\n",
        End::Fine,
    ),
    Listed(ALIKE, (MODULES, 1000), THREE, End::Fine),
    Listed(ALIKE, (ATTRIBUTES, 1000), THREE, End::Fine),
    Listed(
        ALIKE,
        (UNIQUE, 1000),
        "p.py:1 import a.b\np.py:2 from a import c\np.py:3 from .a import d\np.py:4 from a import c as e\n",
        End::Fine,
    ),
    Listed(DECLARED, (TOP, 1000), BOTH, End::Fine),
    Listed(DECLARED, WHOLE, BOTH, End::Fault(Kind::OpenBracket, 53, 6)),
    // At most so many bytes are taken.
    Listed(b"a = 1\n", (ALL, 5), "", TOO_LONG),
    Listed(b"a = 1\n", (ALL, 6), "", End::Fine),
];

/// A text, how its listing ends, and the lines of it and of another text, which is listed to the same writer and read into the same
/// buffer.
struct Followed(&'static [u8], End, &'static str);

impl Case for Followed {
    fn holds(&self, alloc: Global) -> bool {
        let mut reader = Metered::new(self.0);
        let mut other = Metered::new(b"import b".as_slice());
        let mut writer = Metered::new(Vec::new(alloc));
        let mut buffer = [0u8; LIST_CHUNK];
        let got = identify(alloc, &mut reader, &mut writer, "a", ALL, 20, &mut buffer);
        got == self.1.answer()
            && got != Err(RunError::Write)
            && identify(alloc, &mut other, &mut writer, "b", ALL, 20, &mut buffer).is_ok()
            && writer.into_inner().as_slice() == self.2.as_bytes()
    }
}

static FOLLOWED: &[Followed] = &[
    Followed(b"import a", End::Fine, "a:1 import a\nb:1 import b\n"),
    Followed(
        b"import a\nx = )",
        End::Fault(Kind::WrongClose, 13, 2),
        "a:1 import a\nb:1 import b\n",
    ),
    Followed(b"import a, c, d, e, f\n", TOO_LONG, "b:1 import b\n"),
];

/// Brackets: as many as may be open, and one more.
static BRACKETED: &[Listed] = &[
    Listed(BRACKETS, WHOLE, "", End::Fine),
    Listed(
        &[b'('; 200],
        WHOLE,
        "",
        End::Fault(Kind::OpenBracket, 199, 1),
    ),
    Listed(TOO_MANY, WHOLE, "", End::Fault(Kind::TooDeep, 200, 1)),
];

#[test]
fn lists_texts(rt: HostRuntime) -> Result<(), Fail> {
    let alloc = rt.alloc();
    each_holds_again(
        alloc,
        &[
            ("BRACKETED", BRACKETED),
            ("LISTED", LISTED),
            ("LISTED_LINES", LISTED_LINES),
            ("FAULTS", FAULTS),
            ("SHORT_FAULTS", SHORT_FAULTS),
            ("ASKED", ASKED),
        ],
    )?;
    each_holds_again(alloc, &[("FOLLOWED", FOLLOWED)])
}

/// A text, what goes wrong with its reader, the options, how many bytes are taken, and how the listing of `import a`
/// ends.
struct Cut(&'static [u8], Trouble, (FindOptions, u16), End);

impl Case for Cut {
    fn holds(&self, alloc: Global) -> bool {
        for piece in [1, 7, 8192] {
            let listing = Listing {
                path: "-",
                text: (self.0, piece),
                troubles: (self.1, Trouble::None),
                most: 8192,
                asked: self.2,
            };
            if !listing.is_so(alloc, self.3, "-:1 import a\n", Seen::None) {
                return false;
            }
        }
        true
    }
}

/// A reader that fails at its end.
const FAILS: Trouble = Trouble::End(ErrorKind::Other);

const UNREAD: End = End::Error(RunError::Read);

/// The fault of a bracket at byte 9, in line 2.
const CLOSED: End = End::Fault(Kind::WrongClose, 9, 2);

static CUT: &[Cut] = &[
    Cut(b"import a\nimport b", FAILS, WHOLE, UNREAD),
    Cut(
        b"import a\nimport b",
        Trouble::End(ErrorKind::Interrupted),
        WHOLE,
        End::Error(RunError::NeverEnds),
    ),
    Cut(b"import a\nimport b\r", FAILS, WHOLE, UNREAD),
    Cut(b"import a\nimport b\n", Trouble::None, (ALL, 12), TOO_LONG),
    Cut(
        b"import a\nimport b\r\n",
        Trouble::None,
        (ALL, 18),
        TOO_LONG,
    ),
];

/// Texts with a fault.
static CUT_FAULTS: &[Cut] = &[
    Cut(b"import a\n)", FAILS, WHOLE, CLOSED),
    Cut(b"import a\n)import b\n", Trouble::None, (ALL, 10), CLOSED),
    Cut(b"import a\r)", FAILS, WHOLE, CLOSED),
    Cut(
        b"import a\nimport b,\n",
        FAILS,
        WHOLE,
        End::Fault(Kind::BadImport, 9, 2),
    ),
    Cut(b"import a\nimport b,", FAILS, WHOLE, UNREAD),
];

/// Texts of which the top is listed, and one that is taken whole.
static CUT_TOPS: &[Cut] = &[
    Cut(
        b"import a\ndef f(): pass\n(",
        Trouble::None,
        (TOP, 1000),
        End::Fine,
    ),
    Cut(b"import a\ndef f(): pass\n)", FAILS, (TOP, 1000), UNREAD),
    Cut(
        b"import a\ndef f(): pass\n)",
        Trouble::None,
        (TOP, 23),
        TOO_LONG,
    ),
    Cut(b"import a\n", Trouble::None, (ALL, 9), End::Fine),
];

/// A text, what goes wrong with its reader and with the writer, how many bytes a call the writer takes, how the listing
/// ends, its lines, and what is seen then.
struct Troubled(
    &'static str,
    (Trouble, Trouble),
    usize,
    End,
    &'static str,
    Seen,
);

impl Case for Troubled {
    fn holds(&self, alloc: Global) -> bool {
        let listing = Listing {
            path: "-",
            text: (self.0.as_bytes(), 1000),
            troubles: self.1,
            most: self.2,
            asked: WHOLE,
        };
        listing.is_so(alloc, self.3, self.4, self.5)
    }
}

static TROUBLED: &[Troubled] = &[
    // A writer is full, or takes a byte a call.
    Troubled(
        FIRST,
        (Trouble::None, Trouble::Full(5)),
        1000,
        End::Error(RunError::Write),
        "-:1 i",
        Seen::Written(Last::Failed),
    ),
    Troubled(
        FIRST,
        (Trouble::None, Trouble::None),
        1,
        End::Fine,
        FIRST_LINES,
        Seen::Written(Last::Fine),
    ),
    // A reader fails, or is interrupted for ever.
    Troubled(
        "",
        (Trouble::After(0, ErrorKind::Other), Trouble::None),
        1000,
        End::Error(RunError::Read),
        "",
        Seen::Read(Last::Failed),
    ),
    Troubled(
        "",
        (Trouble::After(0, ErrorKind::Interrupted), Trouble::None),
        1000,
        End::Error(RunError::NeverEnds),
        "",
        Seen::Read(Last::Interrupted(1000)),
    ),
];

/// Writers that can't be flushed, and calls that fail once.
static MORE_TROUBLED: &[Troubled] = &[
    // Lines alone are flushed.
    Troubled(
        "import a\nx = 1\n",
        (Trouble::None, Trouble::Flush),
        1000,
        End::Error(RunError::Write),
        "-:1 import a\n",
        Seen::None,
    ),
    Troubled(
        "x = 1\n",
        (Trouble::None, Trouble::Flush),
        1000,
        End::Fine,
        "",
        Seen::None,
    ),
    // A call that is interrupted is made again.
    Troubled(
        FIRST,
        (
            Trouble::First(ErrorKind::Interrupted),
            Trouble::First(ErrorKind::Interrupted),
        ),
        1000,
        End::Fine,
        FIRST_LINES,
        Seen::Calls(3, 5),
    ),
    // The first failure ends a run.
    Troubled(
        FIRST,
        (Trouble::First(ErrorKind::Other), Trouble::None),
        1000,
        End::Error(RunError::Read),
        "",
        Seen::Calls(1, 0),
    ),
    Troubled(
        FIRST,
        (Trouble::None, Trouble::First(ErrorKind::Other)),
        1000,
        End::Error(RunError::Write),
        "",
        Seen::Calls(1, 1),
    ),
];

#[test]
fn lists_what_came_through_troubled_devices(rt: HostRuntime) -> Result<(), Fail> {
    let alloc = rt.alloc();
    each_holds_again(
        alloc,
        &[
            ("CUT", CUT),
            ("CUT_FAULTS", CUT_FAULTS),
            ("CUT_TOPS", CUT_TOPS),
        ],
    )?;
    each_holds_again(
        alloc,
        &[("TROUBLED", TROUBLED), ("MORE_TROUBLED", MORE_TROUBLED)],
    )
}
