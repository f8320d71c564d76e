//! What finders of pieces tell step by step, with what is done with them.
use crate::find::acts::{Act, tell_acts, tells};
use isort_find::FindOptions;
use std::alloc::Global;
use std::test::Fail;
use test_harness::cases::{Case, each_holds, each_holds_again, was_refused};
use test_harness::options::{ALL, MODULES, TOP};

/// Options, what is done with a finder, and what it tells.
struct Script(FindOptions, &'static [Act<'static>], &'static str);

impl Case for Script {
    fn holds(&self, alloc: Global) -> bool {
        tells(alloc, self.0, self.1, self.2)
    }
}

/// A line end CR needs one more byte. Where that byte has a fault, it comes as soon as nothing is ready.
static STEPS: &[Script] = &[
    Script(
        ALL,
        &[
            Act::Steps(&[b"import a\nx\r\xff", b"x\r\xff", b""]),
            Act::Stop,
        ],
        "took 9\nready, 9, 9\n1 import a\nnone, 9, 0\nF1 not UTF-8, 11, 3\nF1 not UTF-8, 11, 3\nat 11, 1\n",
    ),
    Script(
        ALL,
        &[Act::Steps(&[b"x\r", b"\xff", b""]), Act::Stop],
        "took 2\nnone, 2, 2\nnone, 2, 2\nF1 not UTF-8, 2, 2\nF1 not UTF-8, 2, 2\nat 2, 0\n",
    ),
    Script(
        ALL,
        &[Act::Steps(&[b"import x\r\xff", b"", b""]), Act::Stop],
        "took 10\nready, 10, 10\n1 import x\nnone, 10, 1\nF1 not UTF-8, 9, 2\nF1 not UTF-8, 9, 2\nat 9, 1\n",
    ),
    Script(
        ALL,
        &[Act::Steps(&[b"import x\r)", b"", b""]), Act::Stop],
        "took 10\nready, 10, 10\n1 import x\nnone, 10, 1\nF5 closing bracket without its opening, 9, 2\n\
         F5 closing bracket without its opening, 9, 2\nat 9, 1\n",
    ),
];

/// The same with more pieces.
static MORE_STEPS: &[Script] = &[
    Script(
        ALL,
        &[Act::Steps(&[b"x\r)", b"", b""]), Act::Stop],
        "F5 closing bracket without its opening, 2, 2\nF5 closing bracket without its opening, 2, 2\n\
         F5 closing bracket without its opening, 2, 2\nat 2, 0\n",
    ),
    Script(
        ALL,
        &[Act::Steps(&[b"x\r", b")", b""]), Act::Stop],
        "took 2\nnone, 2, 2\nnone, 2, 2\nF5 closing bracket without its opening, 2, 2\n\
         F5 closing bracket without its opening, 2, 2\nat 2, 0\n",
    ),
    Script(
        ALL,
        &[Act::Steps(&[b"import a\r", b"x", b"y"]), Act::Stop],
        "took 9\nnone, 9, 9\nnone, 9, 9\ntook 1\nready, 10, 10\n1 import a\nnone, 10, 1\ntook 1\nnone, 11, 2\n\
         none, 11, 2\nat 9, 1\n",
    ),
    Script(
        MODULES,
        &[
            Act::Steps(&[b"import a\nimport a\r)", b"import a\r)", b""]),
            Act::Stop,
        ],
        "took 9\nready, 9, 9\n1 import a\nnone, 9, 0\nF5 closing bracket without its opening, 18, 3\n\
         F5 closing bracket without its opening, 18, 3\nat 18, 1\n",
    ),
];

/// Other pieces: a line that ends the top, a character in two pieces, and a piece after a line without imports.
static OTHER_STEPS: &[Script] = &[
    Script(
        TOP,
        &[
            Act::Steps(&[
                b"import a\ndef f(): pass\r)",
                b"def f(): pass\r)",
                b"import b\n",
            ]),
            Act::Stop,
        ],
        "took 9\nready, 9, 9\n1 import a\nnone, 9, 0\ntook 15\nnone, 24, 0\nnone, 24, 0\ntook 9\nnone, 33, 0\n\
         none, 33, 0\nat 9, 1\n",
    ),
    Script(
        ALL,
        &[Act::Steps(&[b"import a\xc3", b"\xa9\n", b""]), Act::Stop],
        "took 9\nnone, 9, 9\nnone, 9, 9\ntook 2\nready, 11, 11\n1 import a\u{e9}\nnone, 11, 0\ntook 0\n\
         none, 11, 0\nnone, 11, 0\nat 11, 1\n",
    ),
    Script(
        MODULES,
        &[
            Act::Steps(&[
                b"x = 1\nimport a\nimport a\nimport b\ny",
                b"import a\nimport b\ny",
                b"y",
            ]),
            Act::Stop,
        ],
        "took 15\nready, 15, 9\n2 import a\nnone, 15, 0\ntook 18\nready, 33, 9\n4 import b\nnone, 33, 0\n\
         took 1\nnone, 34, 1\nnone, 34, 1\nat 33, 2\n",
    ),
];

static SCRIPTS: &[Script] = &[
    // Nothing is taken while an import is ready.
    Script(
        ALL,
        &[
            Act::Feed(b"import a\rx"),
            Act::Feed(b"y"),
            Act::Feed(b""),
            Act::State,
            Act::Next(2),
            Act::State,
            Act::Stop,
        ],
        "took 10\ntook 0\ntook 0\nready\n10, import a\rx\n1 import a\nno import\nnone\n10, x\nat 9, 1\n",
    ),
    // The last line comes at the end.
    Script(
        ALL,
        &[Act::Piece(b"import a\r"), Act::Finish, Act::Next(3)],
        "end\n1 import a\nno import\nno import\n",
    ),
    // Nothing is told after the top.
    Script(
        TOP,
        &[
            Act::Feed(b"x = 1\nclass A: pass\n)\n\xff"),
            Act::Feed(b"import a\n("),
            Act::Held,
            Act::Ready,
            Act::Finish,
            Act::Next(1),
            Act::Stop,
        ],
        "took 23\ntook 10\n33, \nnone\nend\nno import\nat 6, 0\n",
    ),
];

/// Scripts in which a finder goes on from a cursor.
static CURSORS: &[Script] = &[
    // A cursor stays inside a line.
    Script(
        ALL,
        &[
            Act::Feed(b"import a, b, c\n"),
            Act::Next(2),
            Act::Stop,
            Act::Next(1),
            Act::Stop,
            Act::Piece(b"import a, b, c\n"),
            Act::Finish,
            Act::Next(1),
            Act::Stop,
        ],
        "took 15\n1 import a\n1 import b\nat 0, 2\nno import\nat 0, 2\n1 import c\nend\nno import\nat 15, 3\n",
    ),
    // A cursor is handed to a finder of a whole text.
    Script(
        ALL,
        &[
            Act::Feed(b"import a, b, c"),
            Act::Ready,
            Act::Finish,
            Act::Next(2),
            Act::State,
            Act::Whole(b"import a, b, c"),
        ],
        "took 14\nnone\nend\n1 import a\n1 import b\nready\n14, import a, b, c\nat 0, 2\n1 import c\n\
         no import\nat 14, 3\n",
    ),
    // A cursor of a finder of a whole text is taken.
    Script(
        ALL,
        &[
            Act::First(b"import a, b, c", 2),
            Act::State,
            Act::Piece(b"import a, b, c"),
            Act::State,
            Act::Finish,
            Act::Next(2),
            Act::Stop,
            Act::State,
            Act::Finish,
            Act::Next(1),
            Act::Stop,
        ],
        "1 import a\n1 import b\nat 0, 2\nnone\n0, \nnone\n14, import a, b, c\nend\n1 import c\nno import\n\
         at 14, 3\nnone\n14, \nend\nno import\nat 14, 3\n",
    ),
];

/// Scripts in which a cursor stands at the top, or at the end.
static LAST_CURSORS: &[Script] = &[
    // After the line that ends the top a cursor stands at that line, whichever finder has it.
    Script(
        TOP,
        &[
            Act::Piece(b"import a\nimport b\n@d\nx = (\n"),
            Act::State,
            Act::Whole(b"import a\nimport b\n@d\nx = (\n"),
            Act::Feed(b"@d\nx = (\n"),
            Act::State,
            Act::Next(1),
            Act::State,
            Act::Stop,
        ],
        "1 import a\n2 import b\nnone\n27, \nat 18, 2\nno import\nat 18, 2\ntook 9\nnone\n27, \nno import\n\
         none\n27, \nat 18, 2\n",
    ),
    // A cursor after a last line that CR ends, or nothing, and that the bytes before it don't settle.
    Script(
        ALL,
        &[Act::First(b"import a\r", 2), Act::Next(1), Act::Stop],
        "1 import a\nno import\nat 9, 1\nno import\nat 9, 1\n",
    ),
    Script(
        ALL,
        &[Act::First(b"import a", 2), Act::Next(1), Act::Stop],
        "1 import a\nno import\nat 8, 1\nno import\nat 8, 1\n",
    ),
];

/// Scripts with faults.
static FAULT_SCRIPTS: &[Script] = &[
    // The last logical line is bad: a text that is ended again, or fed, has the same fault.
    Script(
        ALL,
        &[
            // The tokens of the first line are read, so that memory for them is asked for before a byte was taken.
            Act::Feed(b"from_\nimport"),
            Act::Ready,
            Act::Finish,
            Act::Finish,
            Act::Feed(b"a"),
        ],
        "took 12\nnone\nF9 import statement not understood, 6, 2\nF9 import statement not understood, 6, 2\n\
         F9 import statement not understood, 6, 2\n",
    ),
    // A fault of the text's end stays, in whatever order the finder is asked, fed and ended.
    Script(
        ALL,
        &[
            Act::Feed(b"import a\nx = ("),
            Act::Next(2),
            Act::Feed(b"x = ("),
            Act::Finish,
            Act::Next(2),
            Act::Feed(b"b)\nimport c\n"),
            Act::Next(1),
            Act::Finish,
            Act::Feed(b""),
            Act::Ready,
            Act::Next(1),
            Act::Feed(b"import d\n"),
            Act::Stop,
        ],
        "took 9\n1 import a\nno import\ntook 5\nF6 bracket not closed, 13, 2\nno import\nno import\n\
         F6 bracket not closed, 13, 2\nno import\nF6 bracket not closed, 13, 2\nF6 bracket not closed, 13, 2\n\
         none\nno import\nF6 bracket not closed, 13, 2\nat 9, 1\n",
    ),
];

/// Scripts with faults that the bytes decide.
static BAD_SCRIPTS: &[Script] = &[
    // So does one that the bytes decide, and one of a bad import.
    Script(
        ALL,
        &[
            Act::Feed(b"import a\nx = )"),
            Act::Next(2),
            Act::Feed(b"x = )\nimport b\n"),
            Act::Next(1),
            Act::Finish,
            Act::Next(1),
            Act::Feed(b"import c\n"),
            Act::Next(1),
            Act::Finish,
            Act::Stop,
        ],
        "took 9\n1 import a\nno import\nF5 closing bracket without its opening, 13, 2\nno import\n\
         F5 closing bracket without its opening, 13, 2\nno import\nF5 closing bracket without its opening, 13, 2\n\
         no import\nF5 closing bracket without its opening, 13, 2\nat 9, 1\n",
    ),
    Script(
        ALL,
        &[
            // The tokens of the first line are read, so that memory for them is asked for before a byte was taken.
            Act::Feed(b"from_\nimport\nimport a\n"),
            Act::Next(1),
            Act::Finish,
            Act::Next(1),
            Act::Feed(b"import b\n"),
            Act::Next(1),
            Act::Stop,
        ],
        "F9 import statement not understood, 6, 2\nno import\nF9 import statement not understood, 6, 2\nno import\n\
         F9 import statement not understood, 6, 2\nno import\nat 6, 0\n",
    ),
];

/// A text with a fault, the line of the fault, and what is told: the fault comes again in each call, and once more where the
/// text is fed from that line on.
struct Faulty(&'static [u8], &'static [u8], &'static str);

impl Case for Faulty {
    fn holds(&self, alloc: Global) -> bool {
        let acts = [
            Act::Piece(self.0),
            Act::Feed(b"x"),
            Act::Next(1),
            Act::Ready,
            Act::Feed(b""),
            Act::Ready,
            Act::Finish,
            Act::Stop,
            Act::Feed(self.1),
        ];
        tells(alloc, ALL, &acts, self.2)
    }
}

static FAULTS: &[Faulty] = &[
    Faulty(
        b"import a\n\xef\xbb\xbf",
        b"\xef\xbb\xbf",
        "1 import a\nF2 unexpected character, 9, 2\nF2 unexpected character, 9, 2\nno import\nnone\n\
         F2 unexpected character, 9, 2\nnone\nF2 unexpected character, 9, 2\nat 9, 1\n\
         F2 unexpected character, 9, 2\n",
    ),
    Faulty(
        b"import a; import b\nimport\n",
        b"import\n",
        "1 import a\n1 import b\nF9 import statement not understood, 19, 2\n\
         F9 import statement not understood, 19, 2\nno import\nnone\n\
         F9 import statement not understood, 19, 2\nnone\nF9 import statement not understood, 19, 2\n\
         at 19, 2\nF9 import statement not understood, 19, 2\n",
    ),
];

#[test]
fn follows_scripts(rt: HostRuntime) -> Result<(), Fail> {
    let alloc = rt.alloc();
    each_holds_again(
        alloc,
        &[
            ("STEPS", STEPS),
            ("MORE_STEPS", MORE_STEPS),
            ("OTHER_STEPS", OTHER_STEPS),
            ("SCRIPTS", SCRIPTS),
            ("CURSORS", CURSORS),
            ("LAST_CURSORS", LAST_CURSORS),
            ("FAULT_SCRIPTS", FAULT_SCRIPTS),
            ("BAD_SCRIPTS", BAD_SCRIPTS),
        ],
    )?;
    each_holds_again(alloc, &[("FAULTS", FAULTS)])
}

/// A piece that is fed after `import z` and LF, what is told of it, and what is told instead where a growth was refused for its last
/// line: the lines before it were taken, and that line is taken by the next call.
struct Halted(&'static [u8], &'static str, &'static str);

impl Case for Halted {
    fn holds(&self, alloc: Global) -> bool {
        let acts = [Act::Piece(b"import z\n"), Act::Calls(self.0), Act::Stop];
        let told = tell_acts(alloc, ALL, &acts);
        told.as_str() == self.1 || told.as_str() == self.2 && was_refused(alloc)
    }
}

/// What is told where no growth was refused for the last line.
const AT_ONCE: &str =
    "1 import z\ntook 21\nready, 30, 15\n3 import a\n3 import b\n3 import c\nnone, 30, 0\nat 30, 4\n";

/// What is told where the first of two lines was taken, which ends with LF.
const LINE_BY_LINE: &str = "1 import z\ntook 6\nready, 15, 0\nnone, 15, 0\n\
    took 15\nready, 30, 15\n3 import a\n3 import b\n3 import c\nnone, 30, 0\nat 30, 4\n";

/// The last line has more tokens than `import z`, so that memory for them is asked for.
static HALTED: &[Halted] = &[
    Halted(b"from_\nimport a, b, c\n", AT_ONCE, LINE_BY_LINE),
    // The first line is passed over.
    Halted(b"x = 1\nimport a, b, c\n", AT_ONCE, LINE_BY_LINE),
    // After CR one byte of the last line was taken.
    Halted(
        b"from_\rimport a, b, c\n",
        AT_ONCE,
        "1 import z\ntook 7\nready, 16, 1\nnone, 16, 1\n\
         took 14\nready, 30, 15\n3 import a\n3 import b\n3 import c\nnone, 30, 0\nat 30, 4\n",
    ),
];

#[test]
fn halts_before_a_line_without_memory(rt: HostRuntime) -> Result<(), Fail> {
    each_holds(rt.alloc(), &[("HALTED", HALTED)])
}
