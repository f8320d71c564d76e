//! Logical lines that are passed over without their tokens.
use py_lines::*;
use std::alloc::Global;
use std::test::Fail;
use test_harness::cases::{Case, each_holds_again};

/// Lines after the text's first, the byte before which they have to end, how many of their bytes are passed over, and where the reader
/// then stands.
struct Passing(&'static str, usize, usize, (u64, u64));

/// Whether the reader passes over so many bytes of lines, and then over none.
fn passes(lines: &mut Lines<'_>, before: usize, len: usize) -> bool {
    lines.pass_lines(before) == len && lines.pass_lines(before) == 0
}

/// Whether the reader gives a line.
fn gives(lines: &mut Lines<'_>) -> bool {
    matches!(lines.next_unit(), Ok(Some(_)))
}

impl Case for Passing {
    fn holds(&self, alloc: Global) -> bool {
        let Ok(mut lines) = Lines::new(alloc, self.0.as_bytes()) else {
            return false;
        };
        gives(&mut lines)
            && passes(&mut lines, self.1, self.2)
            && (lines.offset(), lines.line()) == self.3
    }
}

/// Lines from a text's start on, with the same numbers.
struct FirstLines(&'static str, usize, usize, (u64, u64));

impl Case for FirstLines {
    fn holds(&self, alloc: Global) -> bool {
        let (Ok(mut lines), Ok(mut scanner)) = (
            Lines::new(alloc, self.0.as_bytes()),
            Scanner::new(alloc),
        ) else {
            return false;
        };
        passes(&mut lines, self.1, self.2)
            && (lines.offset(), lines.line()) == self.3
            && passes_over(&mut scanner, self.0.as_bytes(), self.1, self.2)
            && (scanner.offset(), scanner.line()) == self.3
    }
}

static FIRST_LINES: &[FirstLines] = &[
    FirstLines("a\nb = c\n", 8, 8, (8, 3)),
    FirstLines("'''a\n'''\nb\n", 11, 11, (11, 4)),
    FirstLines("# a\r\nimport b\n", 5, 5, (5, 2)),
    FirstLines("a\nb\n", 3, 2, (2, 2)),
    // A byte order mark begins the first line.
    FirstLines("\u{feff}a\nb\n", 7, 0, (0, 1)),
    FirstLines("\u{feff}\nb\n", 6, 0, (0, 1)),
];

static PASSING: &[Passing] = &[
    // Words, operators, spaces, brackets and strings, and a line without any.
    Passing("a\nb = c\n\n\td(e, 'f')\n", 20, 18, (20, 5)),
    // Brackets over several lines.
    Passing("a\nb = [\n    'd', {e: 1},\n]\n", 27, 25, (27, 5)),
    // Comments: after code, alone, and in brackets.
    Passing("a\nb  # c\n", 9, 7, (9, 3)),
    Passing("a\n# b\n\n  # '\n", 13, 11, (13, 5)),
    Passing("a\n(  # (\n)\n", 11, 9, (11, 4)),
    // Strings of three quotes: on one line, over several, and with a quote in them, also before a line end.
    Passing("a\nb = '''c'''\n", 14, 12, (14, 3)),
    Passing("a\n\"\"\"b\n\nc\"\"\"\nd\n", 15, 13, (15, 6)),
];

/// Strings.
static STRINGS: &[Passing] = &[
    Passing("a\n'''b'c'\nd'''\n", 15, 13, (15, 4)),
    Passing("a\nb(\"\"\"c\"\"\", '''d\n''')\n", 23, 21, (23, 4)),
    // Prefixes, escapes, empty strings, and joins.
    Passing("a\nb = r'c'\n", 11, 9, (11, 3)),
    Passing("a\nb = 'c\\n'\n", 12, 10, (12, 3)),
    Passing("a\nb = Rb\"c\\\"d\", '', \"\"\n", 23, 21, (23, 3)),
    Passing("a\nb'''c'''\n", 11, 9, (11, 3)),
    Passing("a\n'''b\\\n'''\n", 12, 10, (12, 4)),
    // Two quotes in a string of three, and one before an escaped one.
    Passing("a\n'''b''c'''\n", 13, 11, (13, 3)),
    Passing("a\n'''b'\\''''\n", 13, 11, (13, 3)),
];

/// Joins, short strings with fields, and lines at the byte.
static SHORT: &[Passing] = &[
    Passing("a\n'b\\n'\n", 8, 6, (8, 3)),
    Passing("a\nb = \\\n c\n", 11, 9, (11, 4)),
    // A word before a string that is no prefix.
    Passing("a\nbar'c'\n", 9, 7, (9, 3)),
    // Short strings with fields.
    Passing("a\nf'{b}'\n", 9, 7, (9, 3)),
    Passing("a\nb = rF\"{c(d)[0]:>9} {{}} \\t{e!r}\"\n", 36, 34, (36, 3)),
    Passing("a\n(f'{b}',\n f'{{')\n", 19, 17, (19, 4)),
    // A line that goes past the byte, and one without a line end.
    Passing("a\nb\nc = d\n", 9, 2, (4, 3)),
    Passing("a\nb\nc = d", 9, 2, (4, 3)),
];

/// Lines that are not passed over.
static LEFT: &[Passing] = &[
    // A fault: a backslash before a space, a bracket that closes none, a character that begins nothing, and strings that aren't closed.
    Passing("a\nb = \\ \n", 9, 0, (2, 2)),
    Passing("a\nb = (c]\n", 10, 0, (2, 2)),
    Passing("a\nb = c?\n", 9, 0, (2, 2)),
    Passing("a\nb = 'c\n", 9, 0, (2, 2)),
    Passing("a\n'''b\n", 7, 0, (2, 2)),
    Passing("a\n'''b''\n", 9, 0, (2, 2)),
];

static LINE_ENDS: &[Passing] = &[
    // CR LF after code, alone, in brackets, after a comment, and in a join; and both line ends.
    Passing("a\r\nb = c\r\n", 10, 7, (10, 3)),
    Passing("a\n\r\n\n\r\n", 7, 5, (7, 5)),
    Passing("a\nb = [\r\n    c,\r\n]\r\n", 20, 18, (20, 5)),
    Passing("a\nb  # c\r\n# d\r\n", 15, 13, (15, 4)),
    Passing("a\nb = \\\r\n c\r\n", 13, 11, (13, 4)),
    Passing("a\r\nb\nc\r\n", 8, 5, (8, 4)),
];

/// Line ends in strings, and at the byte.
static INNER_ENDS: &[Passing] = &[
    // In a string of three quotes, also after a quote and after a backslash, and CR alone.
    Passing("a\n'''b\r\n\r\nc'\r\n'''\r\n", 19, 17, (19, 6)),
    Passing("a\n\"\"\"\\\r\n\"\"\"\n", 12, 10, (12, 4)),
    Passing("a\n'''b\rc'''\n", 12, 10, (12, 4)),
    Passing("a\n'''\r\n\n\r\r\n'''\n", 15, 13, (15, 7)),
    // A line that ends at CR, and one whose CR LF goes past the byte.
    Passing("a\nb\nc\rd\n", 8, 6, (8, 5)),
    Passing("a\nb\r\nc\r\n", 4, 0, (2, 2)),
];

/// CR alone.
static RETURNS: &[Passing] = &[
    // After code, before CR LF, after a comment, in brackets, and in a join.
    Passing("a\nb = c\rd\n", 10, 8, (10, 4)),
    Passing("a\nb\r\r\n", 6, 4, (6, 4)),
    Passing("a\n# b\rc\n", 8, 6, (8, 4)),
    Passing("a\n(b\r\r)\r'c'\r", 12, 6, (8, 5)),
    Passing("a\nb = \\\r c\n", 11, 9, (11, 4)),
    // At the byte LF may follow.
    Passing("a\nb\nc\rd", 6, 2, (4, 3)),
    // After a backslash in a short string.
    Passing("a\n'b\\\nc'\r\n", 10, 8, (10, 4)),
    Passing("a\n'b\\\rc'\n", 9, 7, (9, 4)),
    Passing("a\n'b\\\r\nc'\r\n", 11, 9, (11, 4)),
];

static CHARACTERS: &[Passing] = &[
    // Characters outside ASCII in comments, and in strings: at their start, after ASCII, before an escape, after a quote, and after a
    // backslash.
    Passing("a\nb  # \u{e4}\n", 10, 8, (10, 3)),
    Passing("a\n# \u{416}\u{4f60}\u{1f600}\r\n", 15, 13, (15, 3)),
    Passing("a\nb = '\u{4f60} c'\n", 14, 12, (14, 3)),
    Passing("a\n'c\u{e9}\\n'\n", 10, 8, (10, 3)),
    Passing("a\n\"\"\"\u{e4}\n\"\u{e4}\"\"\"\n", 15, 13, (15, 4)),
    Passing("a\n'\\\u{e4}'\n", 8, 6, (8, 3)),
    // In a word, and in a string with fields.
    Passing("a\nb = \u{e4}\n", 9, 7, (9, 3)),
    Passing("a\nf'\u{e4}'\n", 8, 6, (8, 3)),
];

/// Strings with fields that are empty or have three quotes, and those with a field in another, in a specification or over lines, with a
/// name, and with CR; and one that isn't closed.
static FIELDS: &[Passing] = &[
    Passing("a\nRT\"\"\n", 7, 5, (7, 3)),
    Passing("a\nf'''{b}'''\n", 13, 11, (13, 3)),
    Passing("a\nf\"\"\"b\n{c!r:>9}\n\"\"\"\n", 21, 19, (21, 5)),
    Passing("a\nf'{b:{c}}'\n", 13, 11, (13, 3)),
    Passing("a\nf'{f\"{b}\"}'\n", 14, 12, (14, 3)),
    Passing("a\nf'\\N{b}'\n", 11, 9, (11, 3)),
    Passing("a\nf'''b\r\nc'''\n", 14, 12, (14, 4)),
    Passing("a\nf'{b'\n", 8, 0, (2, 2)),
];

/// Bytes of a text after its first line, the byte of them before which lines have to end, how many bytes a scanner then passes over, and
/// how many after that, as far as lines end in the bytes.
struct PassingPiece(&'static [u8], usize, usize, usize);

/// Whether the scanner passes over so many bytes.
fn passes_over(scanner: &mut Scanner, bytes: &[u8], before: usize, len: usize) -> bool {
    scanner.fed() < 100 && bytes.len() < 100 && scanner.pass_lines(bytes, before) == len
}

impl Case for PassingPiece {
    fn holds(&self, alloc: Global) -> bool {
        let (Ok(mut scanner), Some(rest)) = (Scanner::at(alloc, 2, 2), self.0.get(self.2..)) else {
            return false;
        };
        passes_over(&mut scanner, self.0, self.1, self.2)
            && passes_over(&mut scanner, rest, rest.len(), self.3)
    }
}

static PIECES: &[PassingPiece] = &[
    PassingPiece(b"b  # \xc3\xa4\n", 8, 8, 0),
    PassingPiece(b"# \xf0\x9f\x98\x80\r\n", 8, 8, 0),
    PassingPiece(b"'''\xe4\xbd\xa0\n'''\n", 11, 11, 0),
    // Bytes that are no character: a first byte alone, one that begins none, a character cut short, one in two, and a surrogate.
    PassingPiece(b"b  # \xc3\n", 7, 0, 0),
    PassingPiece(b"b\n# \xff\n", 6, 2, 0),
    PassingPiece(b"'\xe4\xbd'\n", 5, 0, 0),
    PassingPiece(b"'''\xe4\n\xbd\xa0'''\n", 11, 0, 0),
    PassingPiece(b"# \xed\xa0\x80\n", 6, 0, 0),
];

/// CR where the bytes end, and alone, before other lines and last.
static PIECES_WITH_RETURNS: &[PassingPiece] = &[
    PassingPiece(b"b\r\nc\r", 5, 3, 0),
    PassingPiece(b"b\rc\n", 4, 4, 0),
    PassingPiece(b"b\rc\rd", 5, 4, 0),
    // After it the next byte is held, and begins the next line.
    PassingPiece(b"b\rc\rd\n", 3, 2, 4),
    PassingPiece(b"b\r\r\n\rc", 2, 0, 5),
    PassingPiece(b"b\r\r\n\rc", 4, 4, 1),
];

#[test]
fn lines_are_passed_over(rt: HostRuntime) -> Result<(), Fail> {
    let alloc = rt.alloc();
    each_holds_again(alloc, &[("FIRST_LINES", FIRST_LINES)])?;
    each_holds_again(
        alloc,
        &[
            ("PASSING", PASSING),
            ("STRINGS", STRINGS),
            ("SHORT", SHORT),
            ("LEFT", LEFT),
            ("LINE_ENDS", LINE_ENDS),
            ("INNER_ENDS", INNER_ENDS),
            ("RETURNS", RETURNS),
            ("CHARACTERS", CHARACTERS),
            ("FIELDS", FIELDS),
        ],
    )?;
    each_holds_again(
        alloc,
        &[
            ("PIECES", PIECES),
            ("PIECES_WITH_RETURNS", PIECES_WITH_RETURNS),
        ],
    )
}
