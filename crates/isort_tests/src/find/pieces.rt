//! Finding the imports of a text in pieces.
ghost use Rattle.std.specs.Prelude.{◌≤◌, length};

use crate::find::acts::{Act, tell_acts, tells};
use isort_find::FindOptions;
use std::alloc::Global;
use std::test::Fail;
use test_harness::cases::{Case, all_are_so, each_holds, was_refused};
use test_harness::options::{ALL, ATTRIBUTES, MODULES, PACKAGES, TOP, UNIQUE};
use test_harness::texts::{ALIKE, BRACKETS, DECLARED, TOO_MANY};

/// Whether a finder that is fed the text in one piece tells what a finder of the whole text tells.
fn tells_of_a_piece_as_of_a_whole(alloc: Global, options: FindOptions, text: &[u8]) -> bool {
    let whole = tell_acts(alloc, options, &[Act::Found(text), Act::Stop]);
    let piece = Act::Text(text, b"");
    tells(alloc, options, &[piece, Act::Stop], whole.as_str())
}

/// A text, options, and what is told of the text with them.
pub(super) struct Row(
    pub(super) &'static [u8],
    pub(super) FindOptions,
    pub(super) &'static str,
);

impl Row {
    /// Whether the text in two pieces tells what the row says, and the first one alone what a finder of whole texts tells
    /// of it.
    fn is_told_in_cut(&self, alloc: Global, cut: usize) -> bool
        requires { cut ≤ length self.now.0.now }
    {
        let (first, second) = (&self.0[..cut], &self.0[cut..]);
        tells_of_a_piece_as_of_a_whole(alloc, self.1, first)
            && tells(
                alloc,
                self.1,
                &[Act::Text(first, second), Act::Stop],
                self.2,
            )
    }

    /// Whether the text is told so in each cut.
    fn is_told_in_cuts(&self, alloc: Global) -> bool {
        for cut in 0..=self.0.len() {
            if !self.is_told_in_cut(alloc, cut) {
                return false;
            }
        }
        true
    }
}

impl Case for Row {
    fn holds(&self, alloc: Global) -> bool {
        self.is_told_in_cuts(alloc)
            && tells(alloc, self.1, &[Act::Bytes(self.0), Act::Stop], self.2)
    }
}

static STATEMENTS: &[Row] = &[
    Row(
        b"import a, b, c",
        ALL,
        "1 import a\n1 import b\n1 import c\nend\nat 14, 3\n",
    ),
    Row(
        b"import os, sys as s",
        ALL,
        "1 import os\n1 import sys as s\nend\nat 19, 2\n",
    ),
    Row(
        b"x = \"import a\"  # import b\nimport c",
        ALL,
        "2 import c\nend\nat 35, 1\n",
    ),
    Row(
        b"\"\"\"a \\\" import a\nimport b\n\"\"\"\ny = \"\"\nimport c\n",
        ALL,
        "5 import c\nend\nat 46, 1\n",
    ),
    Row(
        b"if a: import b; from c import *\nraise X from Y\nz = yield from w\n",
        ALL,
        "1 import b\n1 from c import *\nend\nat 64, 2\n",
    ),
    Row(
        b"if a:\n    import b\n",
        ALL,
        "2 indented import b\nend\nat 19, 1\n",
    ),
];

/// What the options ask for.
static KEYS: &[Row] = &[
    Row(
        ALIKE,
        PACKAGES,
        "1 import a.b\n3 from .a import d\nend\nat 65, 2\n",
    ),
    Row(
        ALIKE,
        ATTRIBUTES,
        "1 import a.b\n2 from a import c\n3 from .a import d\nend\nat 65, 3\n",
    ),
    Row(
        ALIKE,
        UNIQUE,
        "1 import a.b\n2 from a import c\n3 from .a import d\n4 from a import c as e\nend\nat 65, 4\n",
    ),
];

/// Texts of one line and of several.
static LINES: &[Row] = &[
    Row(
        b"import \xc3\xa9\r\nx = \"\"\"\"\"\"\nimport b",
        ALL,
        "1 import \u{e9}\n3 import b\nend\nat 30, 2\n",
    ),
    Row(
        b"import os, sys as s  # import x\n\"import a\"\nimport os.path\n",
        ALL,
        "1 import os\n1 import sys as s\n3 import os.path\nend\nat 58, 3\n",
    ),
    Row(b"", ALL, "end\nat 0, 0\n"),
    Row(b"\xef\xbb\xbf", ALL, "end\nat 3, 0\n"),
    Row(
        b"from a import (  # k\n    b as x,  # l\n    c,\n)\n",
        ALL,
        "1 from a import b as x\n1 from a import c\nend\nat 47, 2\n",
    ),
    Row(
        b"x = 1 + \\\r\n  2\r\nfrom . .x import y\r\n",
        ALL,
        "3 from ..x import y\nend\nat 36, 1\n",
    ),
];

/// Other options.
static LAST: &[Row] = &[
    Row(
        ALIKE,
        MODULES,
        "1 import a.b\n2 from a import c\n3 from .a import d\nend\nat 65, 3\n",
    ),
    Row(
        b"import a\nimport b, a, c, b, d\nimport a, e\n",
        MODULES,
        "1 import a\n2 import b\n2 import c\n2 import d\n3 import e\nend\nat 42, 5\n",
    ),
    Row(
        DECLARED,
        TOP,
        "1 import a\n4 indented import b\nend\nat 46, 2\n",
    ),
    Row(
        b"import a\ndef f(): pass\n(",
        TOP,
        "1 import a\nend\nat 9, 1\n",
    ),
];

/// Texts with a fault.
static BAD: &[Row] = &[
    Row(
        b"import a; import\n",
        ALL,
        "F9 import statement not understood, 10, 1\nat 0, 0\n",
    ),
    Row(b"x = 'abc\n", ALL, "F3 string not closed, 4, 1\nat 0, 0\n"),
    Row(
        b"\"\"\"a",
        ALL,
        "F4 triple-quoted string not closed, 0, 1\nat 0, 0\n",
    ),
    Row(
        b"x = )",
        ALL,
        "F5 closing bracket without its opening, 4, 1\nat 0, 0\n",
    ),
    Row(
        b"x = \\ 1\n",
        ALL,
        "F7 backslash not before a line end, 4, 1\nat 0, 0\n",
    ),
    Row(b"$", ALL, "F2 unexpected character, 0, 1\nat 0, 0\n"),
    Row(b"a\xff", ALL, "F1 not UTF-8, 1, 1\nat 0, 0\n"),
];

/// Texts with a fault after imports.
static BAD_LATER: &[Row] = &[
    Row(
        DECLARED,
        ALL,
        "1 import a\n4 indented import b\nF6 bracket not closed, 53, 6\nat 49, 2\n",
    ),
    Row(
        b"import a\nimport b\nx = (1,",
        ALL,
        "1 import a\n2 import b\nF6 bracket not closed, 22, 3\nat 18, 2\n",
    ),
    Row(
        b"import a\nfrom b import c,\n",
        ALL,
        "1 import a\nF9 import statement not understood, 9, 2\nat 9, 1\n",
    ),
    Row(
        b"import a\n\xef\xbb\xbf",
        ALL,
        "1 import a\nF2 unexpected character, 9, 2\nat 9, 1\n",
    ),
    Row(
        b"import a\n)",
        ALL,
        "1 import a\nF5 closing bracket without its opening, 9, 2\nat 9, 1\n",
    ),
    Row(
        b"import a\nx\r\xff",
        ALL,
        "1 import a\nF1 not UTF-8, 11, 3\nat 11, 1\n",
    ),
    Row(
        b"import x\r\xff",
        ALL,
        "1 import x\nF1 not UTF-8, 9, 2\nat 9, 1\n",
    ),
    Row(
        b"import a\ndef f(): x = )\n",
        TOP,
        "1 import a\nF5 closing bracket without its opening, 22, 2\nat 9, 1\n",
    ),
];

/// Strings with fields.
static FIELDS: &[Row] = &[
    Row(b"f\"{d[\"import\"]}\"", ALL, "end\nat 16, 0\n"),
    Row(b"t'{x:{w}}'", ALL, "end\nat 10, 0\n"),
    Row(b"f\"{{\"", ALL, "end\nat 5, 0\n"),
    Row(b"f\"{x!r:>{w}}\"", ALL, "end\nat 13, 0\n"),
    Row(b"f\"}\"", ALL, "end\nat 4, 0\n"),
    Row(b"f\"{}\"", ALL, "end\nat 5, 0\n"),
    Row(b"f\"\\N{DASH}\"", ALL, "end\nat 11, 0\n"),
    Row(b"rf\"\\N{a}\"", ALL, "end\nat 9, 0\n"),
];

/// Strings with fields and braces.
static MORE_FIELDS: &[Row] = &[
    Row(b"f\"a\\\nb\"", ALL, "end\nat 7, 0\n"),
    Row(b"f\"\"\"{x:\"\"}\"\"\"", ALL, "end\nat 13, 0\n"),
    Row(b"f\"\\N{{ {x}\"", ALL, "end\nat 11, 0\n"),
    Row(b"f\"{{{x}}}\"", ALL, "end\nat 10, 0\n"),
    Row(b"f\"{{\" f\"}}\"", ALL, "end\nat 11, 0\n"),
    Row(b"f'{\n1}'\nimport a\n", ALL, "3 import a\nend\nat 17, 1\n"),
    Row(
        b"rF'{a.b(c, d)[0] + e!r:>9} {{}} }{}'\nimport a\n",
        ALL,
        "2 import a\nend\nat 46, 1\n",
    ),
    Row(
        b"f\"\\t{', '.join(x)}\\\"{b'}'}\"\nimport a\n",
        ALL,
        "2 import a\nend\nat 37, 1\n",
    ),
];

/// Strings with bad fields.
static BAD_FIELDS: &[Row] = &[
    Row(
        b"f'{a(b]}'",
        ALL,
        "F5 closing bracket without its opening, 6, 1\nat 0, 0\n",
    ),
    Row(b"f\"{x", ALL, "F10 field not closed, 2, 1\nat 0, 0\n"),
    Row(b"f\"{x:\"", ALL, "F10 field not closed, 2, 1\nat 0, 0\n"),
    Row(b"f\"{\"", ALL, "F3 string not closed, 3, 1\nat 0, 0\n"),
    Row(b"f\"{x:\n}\"", ALL, "F3 string not closed, 0, 1\nat 0, 0\n"),
    Row(b"f\"{a # }\"", ALL, "F10 field not closed, 2, 1\nat 0, 0\n"),
];

const TOO_DEEP: &str = "F8 more than 200 brackets open, 200, 1\nat 0, 0\n";

const OPEN: &str = "F6 bracket not closed, 199, 1\nat 0, 0\n";

/// 200 strings with a field, each in the field of the one before.
const NESTED: &[u8] =
    b"f\"{f\"{f\"{f\"{f\"{f\"{f\"{f\"{f\"{f\"{f\"{f\"{f\"{f\"{f\"{f\"{f\"{f\"{f\"{f\"{f\"{f\"{f\"{f\"{f\"{\
    f\"{f\"{f\"{f\"{f\"{f\"{f\"{f\"{f\"{f\"{f\"{f\"{f\"{f\"{f\"{f\"{f\"{f\"{f\"{f\"{f\"{f\"{f\"{f\"{f\"{\
    f\"{f\"{f\"{f\"{f\"{f\"{f\"{f\"{f\"{f\"{f\"{f\"{f\"{f\"{f\"{f\"{f\"{f\"{f\"{f\"{f\"{f\"{f\"{f\"{f\"{\
    f\"{f\"{f\"{f\"{f\"{f\"{f\"{f\"{f\"{f\"{f\"{f\"{f\"{f\"{f\"{f\"{f\"{f\"{f\"{f\"{f\"{f\"{f\"{f\"{f\"{\
    f\"{f\"{f\"{f\"{f\"{f\"{f\"{f\"{f\"{f\"{f\"{f\"{f\"{f\"{f\"{f\"{f\"{f\"{f\"{f\"{f\"{f\"{f\"{f\"{f\"{\
    f\"{f\"{f\"{f\"{f\"{f\"{f\"{f\"{f\"{f\"{f\"{f\"{f\"{f\"{f\"{f\"{f\"{f\"{f\"{f\"{f\"{f\"{f\"{f\"{f\"{\
    f\"{f\"{f\"{f\"{f\"{f\"{f\"{f\"{f\"{f\"{f\"{f\"{f\"{f\"{f\"{f\"{f\"{f\"{f\"{f\"{f\"{f\"{f\"{f\"{f\"{\
    f\"{f\"{f\"{f\"{f\"{f\"{f\"{f\"{f\"{f\"{f\"{f\"{f\"{f\"{f\"{f\"{f\"{f\"{f\"{f\"{f\"{f\"{f\"{f\"{f\"{";

/// 201 such strings.
const TOO_NESTED: &[u8] =
    b"f\"{f\"{f\"{f\"{f\"{f\"{f\"{f\"{f\"{f\"{f\"{f\"{f\"{f\"{f\"{f\"{f\"{f\"{f\"{f\"{f\"{f\"{f\"{f\"{f\"{\
    f\"{f\"{f\"{f\"{f\"{f\"{f\"{f\"{f\"{f\"{f\"{f\"{f\"{f\"{f\"{f\"{f\"{f\"{f\"{f\"{f\"{f\"{f\"{f\"{f\"{\
    f\"{f\"{f\"{f\"{f\"{f\"{f\"{f\"{f\"{f\"{f\"{f\"{f\"{f\"{f\"{f\"{f\"{f\"{f\"{f\"{f\"{f\"{f\"{f\"{f\"{\
    f\"{f\"{f\"{f\"{f\"{f\"{f\"{f\"{f\"{f\"{f\"{f\"{f\"{f\"{f\"{f\"{f\"{f\"{f\"{f\"{f\"{f\"{f\"{f\"{f\"{\
    f\"{f\"{f\"{f\"{f\"{f\"{f\"{f\"{f\"{f\"{f\"{f\"{f\"{f\"{f\"{f\"{f\"{f\"{f\"{f\"{f\"{f\"{f\"{f\"{f\"{\
    f\"{f\"{f\"{f\"{f\"{f\"{f\"{f\"{f\"{f\"{f\"{f\"{f\"{f\"{f\"{f\"{f\"{f\"{f\"{f\"{f\"{f\"{f\"{f\"{f\"{\
    f\"{f\"{f\"{f\"{f\"{f\"{f\"{f\"{f\"{f\"{f\"{f\"{f\"{f\"{f\"{f\"{f\"{f\"{f\"{f\"{f\"{f\"{f\"{f\"{f\"{\
    f\"{f\"{f\"{f\"{f\"{f\"{f\"{f\"{f\"{f\"{f\"{f\"{f\"{f\"{f\"{f\"{f\"{f\"{f\"{f\"{f\"{f\"{f\"{f\"{f\"{\
    f\"{";

/// Brackets and fields in one another: as many as there may be, and one more.
static NESTINGS: &[Row] = &[
    Row(BRACKETS, ALL, "end\nat 400, 0\n"),
    Row(&[b'('; 200], ALL, OPEN),
    Row(TOO_MANY, ALL, TOO_DEEP),
    Row(NESTED, ALL, "F10 field not closed, 599, 1\nat 0, 0\n"),
    Row(
        TOO_NESTED,
        ALL,
        "F8 more than 200 brackets open, 602, 1\nat 0, 0\n",
    ),
];

/// Whether a text of 100 000 brackets is too deep, in pieces and whole.
fn is_too_deep(alloc: Global) -> bool {
    match b"(".as_slice().repeat(alloc, 100_000) {
        Ok(text) => {
            let acts = [Act::Text(text.as_slice(), b""), Act::Stop];
            tells(alloc, ALL, &acts, TOO_DEEP)
                && tells(
                    alloc,
                    ALL,
                    &[Act::Found(text.as_slice()), Act::Stop],
                    TOO_DEEP,
                )
        }
        Err(_) => false,
    }
}

#[test]
fn tells_the_same_in_every_cut_and_with_many_stops(rt: HostRuntime) -> Result<(), Fail> {
    let alloc = rt.alloc();
    each_holds(
        alloc,
        &[
            ("STATEMENTS", STATEMENTS),
            ("KEYS", KEYS),
            ("LINES", LINES),
            ("LAST", LAST),
            ("BAD", BAD),
            ("BAD_LATER", BAD_LATER),
            ("FIELDS", FIELDS),
            ("MORE_FIELDS", MORE_FIELDS),
            ("BAD_FIELDS", BAD_FIELDS),
        ],
    )
}

#[test]
fn counts_brackets_and_fields(rt: HostRuntime) -> Result<(), Fail> {
    let alloc = rt.alloc();
    each_holds(alloc, &[("NESTINGS", NESTINGS)])?;
    all_are_so(&[is_too_deep(alloc) || was_refused(alloc) && is_too_deep(alloc)])
}

const ACCEPTED: &str = "end\n";

const OPEN_STRING: &str = "F3 string not closed, 0, 1\n";

const OPEN_TRIPLE: &str = "F4 triple-quoted string not closed, 0, 1\n";

const OPEN_FIELD: &str = "F10 field not closed, 2, 1\n";

/// A text, and what is told of its prefixes: of those with so many bytes or more, up to where the next answer begins.
struct Prefixes(&'static [u8], &'static [(usize, &'static str)]);

/// Whether this is told of a text, in one piece and whole.
fn is_told(alloc: Global, text: &[u8], want: &str) -> bool {
    tells(alloc, ALL, &[Act::Text(text, b"")], want) && tells(alloc, ALL, &[Act::Found(text)], want)
}

impl Prefixes {
    /// What is told of the prefix with so many bytes.
    fn told_of(&self, upto: usize) -> &'static str {
        let mut told = "";
        for (from, answer) in self.1 {
            if *from <= upto {
                told = *answer;
            }
        }
        told
    }
}

impl Case for Prefixes {
    fn holds(&self, alloc: Global) -> bool {
        for upto in 0..=self.0.len() {
            if !is_told(alloc, &self.0[..upto], self.told_of(upto)) {
                return false;
            }
        }
        true
    }
}

static PREFIXES: &[Prefixes] = &[
    Prefixes(
        b"\"\"\"a\"\"\"",
        &[
            (0, ACCEPTED),
            (1, OPEN_STRING),
            (2, ACCEPTED),
            (3, OPEN_TRIPLE),
            (7, ACCEPTED),
        ],
    ),
    Prefixes(b"rb'x'", &[(0, ACCEPTED), (3, OPEN_STRING), (5, ACCEPTED)]),
    Prefixes(
        b"a\\\r\n",
        &[
            (0, ACCEPTED),
            (2, "F7 backslash not before a line end, 1, 1\n"),
            (3, ACCEPTED),
        ],
    ),
    Prefixes(
        b"\xc3\xa9",
        &[(0, ACCEPTED), (1, "F1 not UTF-8, 0, 1\n"), (2, ACCEPTED)],
    ),
];

/// Strings with fields.
static FIELD_PREFIXES: &[Prefixes] = &[
    Prefixes(
        b"f\"{d[\"import\"]}\"",
        &[
            (0, ACCEPTED),
            (2, OPEN_STRING),
            (3, OPEN_FIELD),
            (5, "F6 bracket not closed, 4, 1\n"),
            (6, "F3 string not closed, 5, 1\n"),
            (13, "F6 bracket not closed, 4, 1\n"),
            (14, OPEN_FIELD),
            (15, OPEN_STRING),
            (16, ACCEPTED),
        ],
    ),
    Prefixes(
        b"t'{x:{w}}'",
        &[
            (0, ACCEPTED),
            (2, OPEN_STRING),
            (3, OPEN_FIELD),
            (6, "F10 field not closed, 5, 1\n"),
            (8, OPEN_FIELD),
            (9, OPEN_STRING),
            (10, ACCEPTED),
        ],
    ),
    Prefixes(
        b"f\"{{{x}}}\"",
        &[
            (0, ACCEPTED),
            (2, OPEN_STRING),
            (3, OPEN_FIELD),
            (4, OPEN_STRING),
            (5, "F10 field not closed, 4, 1\n"),
            (7, OPEN_STRING),
            (10, ACCEPTED),
        ],
    ),
    Prefixes(
        b"f\"{x!r:>{w}}\"",
        &[
            (0, ACCEPTED),
            (2, OPEN_STRING),
            (3, OPEN_FIELD),
            (9, "F10 field not closed, 8, 1\n"),
            (11, OPEN_FIELD),
            (12, OPEN_STRING),
            (13, ACCEPTED),
        ],
    ),
];

/// Triple-quoted and raw strings with fields.
static OTHER_PREFIXES: &[Prefixes] = &[
    Prefixes(
        b"f\"\"\"{x:\"\"}\"\"\"",
        &[
            (0, ACCEPTED),
            (2, OPEN_STRING),
            (3, ACCEPTED),
            (4, OPEN_TRIPLE),
            (5, "F10 field not closed, 4, 1\n"),
            (10, OPEN_TRIPLE),
            (13, ACCEPTED),
        ],
    ),
    Prefixes(
        b"f\"\\N{{ {x}\"",
        &[(0, ACCEPTED), (2, OPEN_STRING), (11, ACCEPTED)],
    ),
    Prefixes(
        b"rf\"\\N{a}\"",
        &[
            (0, ACCEPTED),
            (3, OPEN_STRING),
            (6, "F10 field not closed, 5, 1\n"),
            (8, OPEN_STRING),
            (9, ACCEPTED),
        ],
    ),
    Prefixes(
        b"f\"{a # }\"",
        &[(0, ACCEPTED), (2, OPEN_STRING), (3, OPEN_FIELD)],
    ),
];

#[test]
fn tells_of_every_prefix(rt: HostRuntime) -> Result<(), Fail> {
    each_holds(
        rt.alloc(),
        &[
            ("PREFIXES", PREFIXES),
            ("FIELD_PREFIXES", FIELD_PREFIXES),
            ("OTHER_PREFIXES", OTHER_PREFIXES),
        ],
    )
}
