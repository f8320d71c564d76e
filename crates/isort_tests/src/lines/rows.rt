//! The logical lines of texts, which both readers tell.
use crate::lines::reader::goes_on_in_mid_text;
use crate::told::tell;
use py_lines::{LexError, Unit};
use std::alloc::Global;
use std::fmt::Write;
use std::test::Fail;
use test_harness::cases::{Case, all_are_so, each_holds, was_refused};

/// A text, what is told of it, and the byte and the line that a reader of the whole text reaches. What is told are the
/// logical lines, each with its kind, byte, line, indentation, length of its line end, and tokens, and then the end or the
/// fault.
#[derive(Drop)]
pub(crate) struct Lexed<'t>(
    pub(crate) &'t [u8],
    pub(crate) &'t str,
    pub(crate) (u64, u64),
);

/// Texts without a fault.
static LINES: &[Lexed<'static>] = &[
    Lexed(
        b"import \xc3\xa9\r\nx = \"\"\"\"\"\"\nimport b",
        "(Code, 0, 1, 0, 2) (Name, \"import\", 1) (Name, \"é\", 1); \
         (Code, 11, 2, 0, 1) (Name, \"x\", 2) (Op(61), \"=\", 2) (Str, \"\\\"\\\"\\\"\\\"\\\"\\\"\", 2); \
         (Code, 22, 3, 0, 0) (Name, \"import\", 3) (Name, \"b\", 3); end",
        (30, 3),
    ),
    Lexed(
        b"a = [\n1]\n\n# c\n",
        "(Code, 0, 1, 0, 1) (Name, \"a\", 1) (Op(61), \"=\", 1) (Op(91), \"[\", 1) (Number, \"1\", 2) \
         (Op(93), \"]\", 2); \
         (Blank, 9, 3, 0, 1); (Comment, 10, 4, 0, 1) (Remark, \"# c\", 4); end",
        (14, 5),
    ),
    Lexed(
        b"'''a\r\nb'''\rx",
        "(Code, 0, 1, 0, 1) (Str, \"'''a\\r\\nb'''\", 1); (Code, 11, 3, 0, 0) (Name, \"x\", 3); end",
        (12, 3),
    ),
    Lexed(
        b"rb'x' u\"y\"",
        "(Code, 0, 1, 0, 0) (Str, \"rb'x'\", 1) (Str, \"u\\\"y\\\"\", 1); end",
        (10, 1),
    ),
    Lexed(
        b"ab'x'",
        "(Code, 0, 1, 0, 0) (Name, \"ab\", 1) (Str, \"'x'\", 1); end",
        (5, 1),
    ),
    Lexed(
        b"1if x",
        "(Code, 0, 1, 0, 0) (Number, \"1if\", 1) (Name, \"x\", 1); end",
        (5, 1),
    ),
];

/// Texts that end in a join, a line end or a comment, or in nothing.
static ENDS: &[Lexed<'static>] = &[
    Lexed(b"\\\n", "(Code, 0, 1, 0, 0); end", (2, 2)),
    Lexed(b"", "end", (0, 1)),
    Lexed(
        b"\xef\xbb\xbf  a\r\rb\n",
        "(Code, 0, 1, 2, 1) (Name, \"a\", 1); (Blank, 7, 2, 0, 1); (Code, 8, 3, 0, 1) (Name, \"b\", 3); end",
        (10, 4),
    ),
    Lexed(
        b"(\r\n\r'\\\r\n' \\\r\na)\r\n\n",
        "(Code, 0, 1, 0, 2) (Op(40), \"(\", 1) (Str, \"'\\\\\\r\\n'\", 3) (Name, \"a\", 5) (Op(41), \")\", 5); \
         (Blank, 17, 6, 0, 1); end",
        (18, 7),
    ),
    Lexed(
        b"x = \"import a\"  # import b\nimport c",
        "(Code, 0, 1, 0, 1) (Name, \"x\", 1) (Op(61), \"=\", 1) (Str, \"\\\"import a\\\"\", 1) \
         (Remark, \"# import b\", 1); \
         (Code, 27, 2, 0, 0) (Name, \"import\", 2) (Name, \"c\", 2); end",
        (35, 2),
    ),
];

/// Texts of import statements and what stands beside them: strings, comments, joins, indented lines and faults.
static WORKED: &[Lexed<'static>] = &[
    Lexed(b"\xef\xbb\xbf", "(Blank, 0, 1, 0, 0); end", (3, 1)),
    Lexed(
        b"import os, sys as s",
        "(Code, 0, 1, 0, 0) (Name, \"import\", 1) (Name, \"os\", 1) (Op(44), \",\", 1) (Name, \"sys\", 1) \
         (Name, \"as\", 1) (Name, \"s\", 1); \
         end",
        (19, 1),
    ),
    Lexed(
        b"\"\"\"a \\\" import a\nimport b\n\"\"\"\ny = \"\"\nimport c\n",
        "(Code, 0, 1, 0, 1) (Str, \"\\\"\\\"\\\"a \\\\\\\" import a\\nimport b\\n\\\"\\\"\\\"\", 1); \
         (Code, 30, 4, 0, 1) (Name, \"y\", 4) (Op(61), \"=\", 4) (Str, \"\\\"\\\"\", 4); \
         (Code, 37, 5, 0, 1) (Name, \"import\", 5) (Name, \"c\", 5); end",
        (46, 6),
    ),
    Lexed(
        b"from a import (  # k\n    b as x,  # l\n    c,\n)\n",
        "(Code, 0, 1, 0, 1) (Name, \"from\", 1) (Name, \"a\", 1) (Name, \"import\", 1) (Op(40), \"(\", 1) \
         (Remark, \"# k\", 1) (Name, \"b\", 2) (Name, \"as\", 2) (Name, \"x\", 2) (Op(44), \",\", 2) \
         (Remark, \"# l\", 2) (Name, \"c\", 3) (Op(44), \",\", 3) (Op(41), \")\", 4); \
         end",
        (47, 5),
    ),
    Lexed(
        b"x = 1 + \\\r\n  2\r\nfrom . .x import y\r\n",
        "(Code, 0, 1, 0, 2) (Name, \"x\", 1) (Op(61), \"=\", 1) (Number, \"1\", 1) (Op(43), \"+\", 1) \
         (Number, \"2\", 2); \
         (Code, 16, 3, 0, 2) (Name, \"from\", 3) (Op(46), \".\", 3) (Op(46), \".\", 3) (Name, \"x\", 3) \
         (Name, \"import\", 3) (Name, \"y\", 3); \
         end",
        (36, 4),
    ),
    Lexed(
        b"if a: import b; from c import *\nraise X from Y\nz = yield from w\n",
        "(Code, 0, 1, 0, 1) (Name, \"if\", 1) (Name, \"a\", 1) (Op(58), \":\", 1) (Name, \"import\", 1) \
         (Name, \"b\", 1) (Op(59), \";\", 1) (Name, \"from\", 1) (Name, \"c\", 1) (Name, \"import\", 1) \
         (Op(42), \"*\", 1); \
         (Code, 32, 2, 0, 1) (Name, \"raise\", 2) (Name, \"X\", 2) (Name, \"from\", 2) (Name, \"Y\", 2); \
         (Code, 47, 3, 0, 1) (Name, \"z\", 3) (Op(61), \"=\", 3) (Name, \"yield\", 3) (Name, \"from\", 3) \
         (Name, \"w\", 3); \
         end",
        (64, 4),
    ),
];

/// Others, with indented lines and faults.
static WORKED_LINES: &[Lexed<'static>] = &[
    Lexed(
        b"if a:\n    import b\n",
        "(Code, 0, 1, 0, 1) (Name, \"if\", 1) (Name, \"a\", 1) (Op(58), \":\", 1); \
         (Code, 6, 2, 4, 1) (Name, \"import\", 2) (Name, \"b\", 2); end",
        (19, 3),
    ),
    Lexed(
        b"import a.b\nfrom a import c\nfrom .a import d\nfrom a import c as e\n",
        "(Code, 0, 1, 0, 1) (Name, \"import\", 1) (Name, \"a\", 1) (Op(46), \".\", 1) (Name, \"b\", 1); \
         (Code, 11, 2, 0, 1) (Name, \"from\", 2) (Name, \"a\", 2) (Name, \"import\", 2) (Name, \"c\", 2); \
         (Code, 27, 3, 0, 1) (Name, \"from\", 3) (Op(46), \".\", 3) (Name, \"a\", 3) (Name, \"import\", 3) \
         (Name, \"d\", 3); \
         (Code, 44, 4, 0, 1) (Name, \"from\", 4) (Name, \"a\", 4) (Name, \"import\", 4) (Name, \"c\", 4) \
         (Name, \"as\", 4) (Name, \"e\", 4); \
         end",
        (65, 5),
    ),
    Lexed(
        b"import a\nif a:\n    def f(): pass\n    import b\n@d\nx = (\n",
        "(Code, 0, 1, 0, 1) (Name, \"import\", 1) (Name, \"a\", 1); \
         (Code, 9, 2, 0, 1) (Name, \"if\", 2) (Name, \"a\", 2) (Op(58), \":\", 2); \
         (Code, 15, 3, 4, 1) (Name, \"def\", 3) (Name, \"f\", 3) (Op(40), \"(\", 3) (Op(41), \")\", 3) \
         (Op(58), \":\", 3) (Name, \"pass\", 3); \
         (Code, 33, 4, 4, 1) (Name, \"import\", 4) (Name, \"b\", 4); \
         (Code, 46, 5, 0, 1) (Op(64), \"@\", 5) (Name, \"d\", 5); 53 line 6: F6 bracket not closed",
        (49, 6),
    ),
    Lexed(
        b"import a\nimport b\nx = (1,",
        "(Code, 0, 1, 0, 1) (Name, \"import\", 1) (Name, \"a\", 1); \
         (Code, 9, 2, 0, 1) (Name, \"import\", 2) (Name, \"b\", 2); 22 line 3: F6 bracket not closed",
        (18, 3),
    ),
    Lexed(
        b"import a\nfrom b import c,\n",
        "(Code, 0, 1, 0, 1) (Name, \"import\", 1) (Name, \"a\", 1); \
         (Code, 9, 2, 0, 1) (Name, \"from\", 2) (Name, \"b\", 2) (Name, \"import\", 2) (Name, \"c\", 2) \
         (Op(44), \",\", 2); \
         end",
        (26, 3),
    ),
    Lexed(
        b"import a; import\n",
        "(Code, 0, 1, 0, 1) (Name, \"import\", 1) (Name, \"a\", 1) (Op(59), \";\", 1) (Name, \"import\", 1); end",
        (17, 2),
    ),
];

/// Import statements: to the lexer they are logical lines.
static STATEMENTS: &[Lexed<'static>] = &[
    Lexed(
        b"from ... import x, y as z",
        "(Code, 0, 1, 0, 0) (Name, \"from\", 1) (Op(46), \".\", 1) (Op(46), \".\", 1) (Op(46), \".\", 1) \
         (Name, \"import\", 1) (Name, \"x\", 1) (Op(44), \",\", 1) (Name, \"y\", 1) (Name, \"as\", 1) \
         (Name, \"z\", 1); \
         end",
        (25, 1),
    ),
    Lexed(
        b"class C: from a import b as c",
        "(Code, 0, 1, 0, 0) (Name, \"class\", 1) (Name, \"C\", 1) (Op(58), \":\", 1) (Name, \"from\", 1) \
         (Name, \"a\", 1) (Name, \"import\", 1) (Name, \"b\", 1) (Name, \"as\", 1) (Name, \"c\", 1); \
         end",
        (29, 1),
    ),
    Lexed(
        b"from a import (b); import c.d",
        "(Code, 0, 1, 0, 0) (Name, \"from\", 1) (Name, \"a\", 1) (Name, \"import\", 1) (Op(40), \"(\", 1) \
         (Name, \"b\", 1) (Op(41), \")\", 1) (Op(59), \";\", 1) (Name, \"import\", 1) (Name, \"c\", 1) \
         (Op(46), \".\", 1) (Name, \"d\", 1); \
         end",
        (29, 1),
    ),
    Lexed(
        b"x = {1: import_, 2: [a, b]}",
        "(Code, 0, 1, 0, 0) (Name, \"x\", 1) (Op(61), \"=\", 1) (Op(123), \"{\", 1) (Number, \"1\", 1) \
         (Op(58), \":\", 1) (Name, \"import_\", 1) (Op(44), \",\", 1) (Number, \"2\", 1) (Op(58), \":\", 1) \
         (Op(91), \"[\", 1) (Name, \"a\", 1) (Op(44), \",\", 1) (Name, \"b\", 1) (Op(93), \"]\", 1) \
         (Op(125), \"}\", 1); \
         end",
        (27, 1),
    ),
];

/// Bad ones: to the lexer they are logical lines, too.
static BAD_STATEMENTS: &[Lexed<'static>] = &[
    Lexed(
        b"from a import ()",
        "(Code, 0, 1, 0, 0) (Name, \"from\", 1) (Name, \"a\", 1) (Name, \"import\", 1) (Op(40), \"(\", 1) \
         (Op(41), \")\", 1); \
         end",
        (16, 1),
    ),
    Lexed(
        b"from a import (*)",
        "(Code, 0, 1, 0, 0) (Name, \"from\", 1) (Name, \"a\", 1) (Name, \"import\", 1) (Op(40), \"(\", 1) \
         (Op(42), \"*\", 1) (Op(41), \")\", 1); \
         end",
        (17, 1),
    ),
    Lexed(
        b"from a import b,",
        "(Code, 0, 1, 0, 0) (Name, \"from\", 1) (Name, \"a\", 1) (Name, \"import\", 1) (Name, \"b\", 1) \
         (Op(44), \",\", 1); \
         end",
        (16, 1),
    ),
    Lexed(
        b"import .a",
        "(Code, 0, 1, 0, 0) (Name, \"import\", 1) (Op(46), \".\", 1) (Name, \"a\", 1); end",
        (9, 1),
    ),
    Lexed(
        b"import a as b.c",
        "(Code, 0, 1, 0, 0) (Name, \"import\", 1) (Name, \"a\", 1) (Name, \"as\", 1) (Name, \"b\", 1) \
         (Op(46), \".\", 1) (Name, \"c\", 1); \
         end",
        (15, 1),
    ),
    Lexed(
        b"import a,",
        "(Code, 0, 1, 0, 0) (Name, \"import\", 1) (Name, \"a\", 1) (Op(44), \",\", 1); end",
        (9, 1),
    ),
    Lexed(
        b"from a import if",
        "(Code, 0, 1, 0, 0) (Name, \"from\", 1) (Name, \"a\", 1) (Name, \"import\", 1) (Name, \"if\", 1); end",
        (16, 1),
    ),
];

/// Texts with a fault.
static FAULTS: &[Lexed<'static>] = &[
    Lexed(b"(a\r\xff", "3 line 2: F1 not UTF-8", (0, 1)),
    Lexed(b"a\xff", "1 line 1: F1 not UTF-8", (0, 1)),
    Lexed(b"$", "0 line 1: F2 unexpected character", (0, 1)),
    Lexed(b"x = 'abc\n", "4 line 1: F3 string not closed", (0, 1)),
    Lexed(
        b"(\r\r'''a\n[",
        "3 line 3: F4 triple-quoted string not closed",
        (0, 1),
    ),
    Lexed(
        b"x = (\r\n]",
        "7 line 2: F5 closing bracket without its opening",
        (0, 1),
    ),
];

/// Texts in which something stays open, or is closed that is not.
static OPEN: &[Lexed<'static>] = &[
    Lexed(
        b"\"\"\"a",
        "0 line 1: F4 triple-quoted string not closed",
        (0, 1),
    ),
    Lexed(
        b"x = )",
        "4 line 1: F5 closing bracket without its opening",
        (0, 1),
    ),
    Lexed(b"(\n[\n", "2 line 2: F6 bracket not closed", (0, 1)),
    Lexed(
        b"x = \\ 1\n",
        "4 line 1: F7 backslash not before a line end",
        (0, 1),
    ),
    Lexed(
        b"a\n\\",
        "(Code, 0, 1, 0, 1) (Name, \"a\", 1); 2 line 2: F7 backslash not before a line end",
        (2, 2),
    ),
];

/// Texts with a fault after other bytes.
static LATER_FAULTS: &[Lexed<'static>] = &[
    Lexed(
        b"a\r\xff",
        "(Code, 0, 1, 0, 1) (Name, \"a\", 1); 2 line 2: F1 not UTF-8",
        (2, 2),
    ),
    Lexed(
        b"a\r)",
        "(Code, 0, 1, 0, 1) (Name, \"a\", 1); 2 line 2: F5 closing bracket without its opening",
        (2, 2),
    ),
    Lexed(
        b"x \\\xc3\xa9",
        "2 line 1: F7 backslash not before a line end",
        (0, 1),
    ),
    Lexed(b"x \\\xc3", "3 line 1: F1 not UTF-8", (0, 1)),
    Lexed(
        b"'''\xf0\x9f\x98\x80'''\r\r\n\xf0\x9f\x98",
        "(Code, 0, 1, 0, 1) (Str, \"'''😀'''\", 1); (Blank, 11, 2, 0, 2); 13 line 3: F1 not UTF-8",
        (13, 3),
    ),
    Lexed(
        b"\n\xef\xbb\xbf",
        "(Blank, 0, 1, 0, 1); 1 line 2: F2 unexpected character",
        (1, 2),
    ),
    Lexed(
        &[b'('; 201],
        "200 line 1: F8 more than 200 brackets open",
        (0, 1),
    ),
];

/// Strings with fields.
static FIELDS: &[Lexed<'static>] = &[
    Lexed(
        b"f\"{d[\"import\"]}\"",
        "(Code, 0, 1, 0, 0) (Str, \"f\\\"{d[\\\"import\\\"]}\\\"\", 1); end",
        (16, 1),
    ),
    Lexed(
        b"t'{x:{w}}'",
        "(Code, 0, 1, 0, 0) (Str, \"t'{x:{w}}'\", 1); end",
        (10, 1),
    ),
    Lexed(
        b"f\"{{\"",
        "(Code, 0, 1, 0, 0) (Str, \"f\\\"{{\\\"\", 1); end",
        (5, 1),
    ),
    Lexed(
        b"f\"{x!r:>{w}}\"",
        "(Code, 0, 1, 0, 0) (Str, \"f\\\"{x!r:>{w}}\\\"\", 1); end",
        (13, 1),
    ),
    Lexed(
        b"f\"}\"",
        "(Code, 0, 1, 0, 0) (Str, \"f\\\"}\\\"\", 1); end",
        (4, 1),
    ),
    Lexed(
        b"f\"{}\"",
        "(Code, 0, 1, 0, 0) (Str, \"f\\\"{}\\\"\", 1); end",
        (5, 1),
    ),
    Lexed(
        b"f\"\\N{DASH}\"",
        "(Code, 0, 1, 0, 0) (Str, \"f\\\"\\\\N{DASH}\\\"\", 1); end",
        (11, 1),
    ),
];

/// Strings with fields, escapes and braces.
static ESCAPES: &[Lexed<'static>] = &[
    Lexed(
        b"rf\"\\N{a}\"",
        "(Code, 0, 1, 0, 0) (Str, \"rf\\\"\\\\N{a}\\\"\", 1); end",
        (9, 1),
    ),
    Lexed(
        b"f\"a\\\nb\"",
        "(Code, 0, 1, 0, 0) (Str, \"f\\\"a\\\\\\nb\\\"\", 1); end",
        (7, 2),
    ),
    Lexed(
        b"f\"\"\"{x:\"\"}\"\"\"",
        "(Code, 0, 1, 0, 0) (Str, \"f\\\"\\\"\\\"{x:\\\"\\\"}\\\"\\\"\\\"\", 1); end",
        (13, 1),
    ),
    Lexed(
        b"f\"\\N{{ {x}\"",
        "(Code, 0, 1, 0, 0) (Str, \"f\\\"\\\\N{{ {x}\\\"\", 1); end",
        (11, 1),
    ),
    Lexed(
        b"f\"{{{x}}}\"",
        "(Code, 0, 1, 0, 0) (Str, \"f\\\"{{{x}}}\\\"\", 1); end",
        (10, 1),
    ),
    Lexed(
        b"f\"{{\" f\"}}\"",
        "(Code, 0, 1, 0, 0) (Str, \"f\\\"{{\\\"\", 1) (Str, \"f\\\"}}\\\"\", 1); end",
        (11, 1),
    ),
];

/// Lines after strings with fields.
static LINES_WITH_FIELDS: &[Lexed<'static>] = &[
    Lexed(
        b"f'{\n1}'\nimport a\n",
        "(Code, 0, 1, 0, 1) (Str, \"f'{\\n1}'\", 1); (Code, 8, 3, 0, 1) (Name, \"import\", 3) (Name, \"a\", 3); end",
        (17, 4),
    ),
    Lexed(
        b"rF'{a.b(c, d)[0] + e!r:>9} {{}} }{}'\nimport a\n",
        "(Code, 0, 1, 0, 1) (Str, \"rF'{a.b(c, d)[0] + e!r:>9} {{}} }{}'\", 1); \
         (Code, 37, 2, 0, 1) (Name, \"import\", 2) (Name, \"a\", 2); end",
        (46, 3),
    ),
    Lexed(
        b"f\"\\t{', '.join(x)}\\\"{b'}'}\"\nimport a\n",
        "(Code, 0, 1, 0, 1) (Str, \"f\\\"\\\\t{', '.join(x)}\\\\\\\"{b'}'}\\\"\", 1); \
         (Code, 28, 2, 0, 1) (Name, \"import\", 2) (Name, \"a\", 2); end",
        (37, 3),
    ),
];

/// Strings with bad fields.
static BAD_FIELDS: &[Lexed<'static>] = &[
    Lexed(
        b"f'{a(b]}'",
        "6 line 1: F5 closing bracket without its opening",
        (0, 1),
    ),
    Lexed(b"f\"{x", "2 line 1: F10 field not closed", (0, 1)),
    Lexed(b"f\"{x:\"", "2 line 1: F10 field not closed", (0, 1)),
    Lexed(b"f\"{\"", "3 line 1: F3 string not closed", (0, 1)),
    Lexed(b"f\"{x:\n}\"", "0 line 1: F3 string not closed", (0, 1)),
    Lexed(b"f\"{a # }\"", "2 line 1: F10 field not closed", (0, 1)),
];

impl Case for Lexed<'_> {
    fn holds(&self, alloc: Global) -> bool {
        self.is_read(alloc) && self.is_scanned(alloc)
    }
}

/// What follows 200 brackets that open, and the fault.
struct Deep(&'static [u8], &'static str);

impl Case for Deep {
    fn holds(&self, alloc: Global) -> bool {
        let mut text = [b'('; 210];
        let end = 200 + self.0.len().min(10);
        text[200..end].copy_from_slice(&self.0[..end - 200]);
        Lexed(&text[..end], self.1, (0, 1)).holds(alloc)
    }
}

/// A brace in a string with fields, where 200 brackets are open: what follows it says whether it opens a field.
static DEEP: &[Deep] = &[
    Deep(b"", "199 line 1: F6 bracket not closed"),
    Deep(b"f\"{{\"", "199 line 1: F6 bracket not closed"),
    Deep(b"f\"{{x", "200 line 1: F3 string not closed"),
    Deep(b"f\"{x", "202 line 1: F8 more than 200 brackets open"),
    Deep(b"f\"{}\"", "202 line 1: F8 more than 200 brackets open"),
];

/// The same with a fault at that brace.
static DEEP_FIELDS: &[Deep] = &[
    Deep(b"f\"{\"", "202 line 1: F8 more than 200 brackets open"),
    Deep(b"f\"{\n", "202 line 1: F8 more than 200 brackets open"),
    Deep(b"f\"{", "202 line 1: F8 more than 200 brackets open"),
    Deep(b"f\"{\xff", "203 line 1: F1 not UTF-8"),
    Deep(b"f\"{\xc3", "203 line 1: F1 not UTF-8"),
];

#[test]
fn reads_texts_whole_and_gives_the_same_in_every_cut(rt: HostRuntime) -> Result<(), Fail> {
    let alloc = rt.alloc();
    each_holds(
        alloc,
        &[
            ("LINES", LINES),
            ("ENDS", ENDS),
            ("WORKED", WORKED),
            ("WORKED_LINES", WORKED_LINES),
            ("STATEMENTS", STATEMENTS),
            ("BAD_STATEMENTS", BAD_STATEMENTS),
            ("FAULTS", FAULTS),
            ("OPEN", OPEN),
            ("LATER_FAULTS", LATER_FAULTS),
            ("FIELDS", FIELDS),
            ("ESCAPES", ESCAPES),
            ("LINES_WITH_FIELDS", LINES_WITH_FIELDS),
            ("BAD_FIELDS", BAD_FIELDS),
        ],
    )?;
    each_holds(alloc, &[("DEEP", DEEP), ("DEEP_FIELDS", DEEP_FIELDS)])?;
    all_are_so(&[goes_on_in_mid_text(alloc) || was_refused(alloc) && goes_on_in_mid_text(alloc)])
}

/// A logical line: what it holds, its byte, line, indentation and line end, and then its tokens.
pub(crate) fn tell_unit(told: &mut String, unit: &Unit<'_>) {
    let shown = (unit.kind, unit.offset, unit.line, unit.indent, unit.end_len);
    let _ = write!(told, "{shown:?}");
    for i in 0..unit.tokens.len() {
        tell_token(told, unit, i);
    }
    tell("; ", told);
}

/// A token: what it is, its text, and its line. Where memory is refused, a part of what is told is missing.
fn tell_token(told: &mut String, unit: &Unit<'_>, i: usize) {
    if i < unit.tokens.len() {
        let token = unit.tokens[i];
        let _ = write!(told, " {:?}", (token.kind, unit.word(i), token.line));
    }
}

/// A fault: its byte, and what is printed of it.
pub(crate) fn tell_fault(told: &mut String, error: LexError) {
    if let LexError::Fault(fault) = error {
        let offset = fault.offset;
        let _ = write!(told, "{offset} {error}");
    }
}
