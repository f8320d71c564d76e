//! The logical lines of a text in pieces.
ghost use Rattle.std.specs.Prelude.{◌≡◌, ◌≤◌, true, false, None, IfOk, length};

use crate::lines::rows::{Lexed, tell_fault, tell_unit};
use crate::told::tell;
use py_lines::*;
use std::alloc::Global;
use std::fmt::Write;
use std::test::Fail;
use test_harness::cases::{Case, each_holds_again, page, was_refused};

/// More bytes than a text of these tests has.
const MOST: u64 = 1000;

/// Feeds a short piece. It is fed again where a growth was refused.
pub(crate) fn feed(alloc: Global, scanner: &mut Scanner, piece: &[u8]) -> Result<usize, LexError>
    requires { scanner.old.ended ≡ false }
    ensures taken { IfOk result (λ n. n ≤ length piece.now) }
    ensures ended { scanner.new.ended ≡ scanner.old.ended }
{
    if scanner.fed() > MOST || piece.len() as u64 > MOST {
        return Err(LexError::Memory);
    }
    match scanner.feed(piece) {
        Err(LexError::Memory) if was_refused(alloc) => scanner.feed(piece),
        answer => answer,
    }
}

/// A scanner at the start of a text. It is begun again where a growth was refused.
pub(crate) fn begun(alloc: Global) -> Result<Scanner, LexError>
    ensures { IfOk result (λ s. s.ended ≡ false) }
{
    match Scanner::new(alloc) {
        Err(_) if was_refused(alloc) => Scanner::new(alloc),
        scanner => scanner,
    }
}

/// The line that is ready, which is then released, if one is.
fn tell_ready(told: &mut String, scanner: &mut Scanner)
    ensures ready { scanner.new.ready ≡ None }
    ensures ended { scanner.new.ended ≡ scanner.old.ended }
{
    if let Some(unit) = scanner.ready() {
        tell_unit(told, &unit);
        scanner.release();
    }
}

/// Whether a piece is fed up to its end, with no fault; and the lines that get ready with it.
fn tell_piece(alloc: Global, told: &mut String, scanner: &mut Scanner, piece: &[u8]) -> bool
    requires { scanner.old.ended ≡ false }
    ensures { scanner.new.ended ≡ false }
{
    let mut rest = piece;
    for _ in 0..=piece.len() {
        match feed(alloc, scanner, rest) {
            Ok(taken) => rest = &rest[taken..],
            Err(error) => {
                tell_fault(told, error);
                return false;
            }
        }
        tell_ready(told, scanner);
    }
    true
}

/// Ends the text. It is ended again where a growth was refused.
pub(crate) fn finish(alloc: Global, scanner: &mut Scanner) -> Result<(), LexError>
    requires { scanner.old.ended ≡ false }
{
    if scanner.ready().is_some() {
        return Err(LexError::Memory);
    }
    match scanner.finish() {
        Err(LexError::Memory) if was_refused(alloc) => scanner.finish(),
        answer => answer,
    }
}

/// The text's last line and its end, or its fault.
fn tell_end(alloc: Global, told: &mut String, scanner: &mut Scanner)
    requires { scanner.old.ended ≡ false }
{
    tell_ready(told, scanner);
    match finish(alloc, scanner) {
        Ok(()) => {
            tell_ready(told, scanner);
            tell("end", told);
        }
        Err(error) => tell_fault(told, error),
    }
}

/// What a scanner gives of a piece, and then of pieces of so many bytes each.
fn tell_pieces(
    alloc: Global,
    told: &mut String,
    scanner: &mut Scanner,
    first: &[u8],
    rest: &[u8],
    size: usize,
)
    requires positive { 1 ≤ size }
    requires open_yet { scanner.old.ended ≡ false }
{
    if !tell_piece(alloc, told, scanner, first) {
        return;
    }
    for piece in rest.chunks(size) {
        if !tell_piece(alloc, told, scanner, piece) {
            return;
        }
    }
    tell_end(alloc, told, scanner);
}

impl Lexed<'_> {
    /// Whether the text is told so in a piece that ends here, and then in pieces of so many bytes.
    fn is_told_in_pieces(&self, alloc: Global, cut: usize, size: usize) -> bool
        requires cut { cut ≤ length (self.now.0).now }
        requires size { 1 ≤ size }
    {
        let mut told = page(alloc);
        if let Ok(mut scanner) = begun(alloc) {
            tell_pieces(
                alloc,
                &mut told,
                &mut scanner,
                &self.0[..cut],
                &self.0[cut..],
                size,
            );
        }
        told.as_str() == self.1
    }

    /// Whether the text is told so in each cut into two pieces.
    fn is_told_in_cuts(&self, alloc: Global) -> bool {
        for cut in 0..=self.0.len() {
            if !self.is_told_in_pieces(alloc, cut, 1000) {
                return false;
            }
        }
        true
    }

    /// Whether the text is told so in each cut, and in pieces of one byte to seven each.
    pub(crate) fn is_scanned(&self, alloc: Global) -> bool {
        for size in 1..8 {
            if !self.is_told_in_pieces(alloc, 0, size) {
                return false;
            }
        }
        self.is_told_in_cuts(alloc)
    }
}

/// A call of a scanner, which is told with what it answers.
#[derive(Clone, Copy)]
enum Act {
    /// Feeds this, and tells how many bytes were taken, or the fault.
    Feed(&'static [u8]),
    /// Feeds this whole, and tells the lines that get ready, and the fault.
    Piece(&'static [u8]),
    /// Tells how many bytes were fed.
    Fed,
    /// Tells the byte and the line where it stands.
    Place,
    /// Tells the text of the line that is ready, or a dash.
    Ready,
    /// Tells the text of the line that is ready, how many bytes end it, and its tokens.
    Tokens,
    /// Tells the bytes that are held.
    Held,
    /// Releases the line that is ready, and tells that.
    Release,
}

/// How many bytes were taken, or the fault.
fn tell_taken(told: &mut String, answer: Result<usize, LexError>) {
    match answer {
        Ok(taken) => {
            let _ = write!(told, "took {taken}");
        }
        Err(error) => tell_fault(told, error),
    }
}

/// The text of the line that is ready, or a dash.
fn tell_text(told: &mut String, scanner: &Scanner) {
    match scanner.ready() {
        Some(unit) => tell(unit.text, told),
        None => tell("-", told),
    }
}

/// The text of the line that is ready, how many bytes end it, and its tokens.
fn tell_tokens(told: &mut String, scanner: &Scanner) {
    if let Some(unit) = scanner.ready() {
        let _ = write!(told, "{:?}", (unit.text, unit.end_len, unit.tokens));
    }
}

/// Releases the line that is ready, and tells that.
fn tell_release(told: &mut String, scanner: &mut Scanner)
    ensures { scanner.new.ended ≡ scanner.old.ended }
{
    if scanner.ready().is_some() {
        scanner.release();
        tell("released", told);
    }
}

/// Makes a call, and tells what it answers.
fn tell_act(alloc: Global, told: &mut String, scanner: &mut Scanner, act: Act)
    requires { scanner.old.ended ≡ false }
    ensures { scanner.new.ended ≡ false }
{
    match act {
        Act::Feed(piece) => tell_taken(told, feed(alloc, scanner, piece)),
        Act::Piece(piece) => {
            tell_piece(alloc, told, scanner, piece);
        }
        Act::Fed => {
            let _ = write!(told, "{}", scanner.fed());
        }
        Act::Place => {
            let _ = write!(told, "{:?}", (scanner.offset(), scanner.line()));
        }
        Act::Ready => tell_text(told, scanner),
        Act::Tokens => tell_tokens(told, scanner),
        Act::Held => tell(
            str::from_utf8(scanner.held()).unwrap_or("other bytes"),
            told,
        ),
        Act::Release => tell_release(told, scanner),
    }
    tell("; ", told);
}

/// Makes these calls, and then ends the text, if it ends: tells the fault, or the text of the last line.
fn tell_acts(alloc: Global, told: &mut String, scanner: &mut Scanner, acts: &[Act], ends: bool)
    requires { scanner.old.ended ≡ false }
{
    for act in acts {
        tell_act(alloc, told, scanner, *act);
    }
    if ends {
        match finish(alloc, scanner) {
            Ok(()) => tell_text(told, scanner),
            Err(error) => tell_fault(told, error),
        }
        tell("; ", told);
    }
}

/// The byte where a scanner begins, at the start of the text or in its second line; the calls; whether the text then ends;
/// and what is told.
struct Script(u64, &'static [Act], bool, &'static str);

/// A scanner that begins at this byte.
fn begun_at(alloc: Global, offset: u64) -> Result<Scanner, LexError>
    ensures { IfOk result (λ s. s.ended ≡ false) }
{
    match offset {
        0 => Scanner::new(alloc),
        1..=MOST => Scanner::at(alloc, offset, 2),
        _ => Err(LexError::Memory),
    }
}

/// Whether a scanner that begins at this byte tells this of these calls, after which the text ends or goes on.
fn is_told(alloc: Global, offset: u64, acts: &[Act], ends: bool, want: &str) -> bool {
    let mut told = page(alloc);
    if let Ok(mut scanner) = begun_at(alloc, offset) {
        tell_acts(alloc, &mut told, &mut scanner, acts, ends);
    }
    told.as_str() == want
}

impl Case for Script {
    fn holds(&self, alloc: Global) -> bool {
        is_told(alloc, self.0, self.1, self.2, self.3)
    }
}

static SCRIPTS: &[Script] = &[
    // Nothing is taken while a line is ready.
    Script(
        0,
        &[
            Act::Feed(b"import a\n"),
            Act::Ready,
            Act::Feed(b"x"),
            Act::Feed(b""),
            Act::Fed,
            Act::Place,
            Act::Release,
            Act::Held,
            Act::Fed,
            Act::Place,
            Act::Feed(b"x"),
            Act::Fed,
        ],
        false,
        "took 9; import a\n; took 0; took 0; 9; (0, 1); released; ; 9; (9, 2); took 1; 10; ",
    ),
    // The byte after a return is taken.
    Script(
        0,
        &[Act::Feed(b"x\r\ny"), Act::Ready],
        false,
        "took 3; x\r\n; ",
    ),
    Script(
        0,
        &[
            Act::Feed(b"x\ry"),
            Act::Ready,
            Act::Held,
            Act::Release,
            Act::Held,
        ],
        false,
        "took 3; x\r; x\ry; released; y; ",
    ),
    // A line waits after a return.
    Script(
        0,
        &[
            Act::Feed(b"import a\r"),
            Act::Ready,
            Act::Held,
            Act::Feed(b"x"),
            Act::Ready,
            Act::Fed,
            Act::Release,
            Act::Held,
        ],
        false,
        "took 9; -; import a\r; took 1; import a\r; 10; released; x; ",
    ),
    // The end closes a line after a return.
    Script(
        0,
        &[Act::Feed(b"import a\r"), Act::Ready],
        true,
        "took 9; -; import a\r; ",
    ),
];

/// Strings with fields, and scanners that begin in mid-text.
static OTHER_SCRIPTS: &[Script] = &[
    // A string goes on after its fields, whatever stands in them, and a quote in a specification is refused at once.
    Script(
        0,
        &[
            Act::Feed(b"f'{\n"),
            Act::Ready,
            Act::Feed(b"1}"),
            Act::Ready,
            Act::Feed(b"'\n"),
            Act::Tokens,
        ],
        false,
        "took 4; -; took 2; -; took 2; (\"f'{\\n1}'\\n\", 1, [Token { kind: Str, start: 0, stop: 7, line: 1 }]); ",
    ),
    Script(
        0,
        &[
            Act::Feed(b"f\"{x:"),
            Act::Ready,
            Act::Feed(b"\""),
            Act::Feed(b"}"),
        ],
        false,
        "took 5; -; 2 line 1: F10 field not closed; 2 line 1: F10 field not closed; ",
    ),
    // A scanner begins in mid-text, where a byte order mark is none.
    Script(
        2,
        &[Act::Piece(b"b\n\xef\xbb\xbf")],
        false,
        "(Code, 2, 2, 0, 1) (Name, \"b\", 2); 4 line 3: F2 unexpected character; ",
    ),
    Script(
        9,
        &[Act::Feed(b"\xef\xbb\xbf"), Act::Feed(b"a")],
        true,
        "9 line 2: F2 unexpected character; 9 line 2: F2 unexpected character; 9 line 2: F2 unexpected character; ",
    ),
];

/// A line in two pieces, and what is told: how many bytes of the first piece are taken, that nothing is ready before the
/// second, how many bytes of that are taken, and the line.
struct Halves(&'static [u8], &'static [u8], &'static str);

impl Case for Halves {
    fn holds(&self, alloc: Global) -> bool {
        let (first, second) = (Act::Feed(self.0), Act::Feed(self.1));
        is_told(
            alloc,
            0,
            &[first, Act::Ready, second, Act::Tokens],
            false,
            self.2,
        )
    }
}

static HALVES: &[Halves] = &[
    Halves(
        b"r",
        b"b'a'\n",
        "took 1; -; took 5; (\"rb'a'\\n\", 1, [Token { kind: Str, start: 0, stop: 5, line: 1 }]); ",
    ),
    Halves(
        b"rb",
        b"'a'\n",
        "took 2; -; took 4; (\"rb'a'\\n\", 1, [Token { kind: Str, start: 0, stop: 5, line: 1 }]); ",
    ),
    Halves(
        b"x\xc3",
        b"\xa9\n",
        "took 2; -; took 2; (\"xé\\n\", 1, [Token { kind: Name, start: 0, stop: 3, line: 1 }]); ",
    ),
    Halves(
        b"'\xf0\x9f",
        b"\x98\x80'\n",
        "took 3; -; took 4; (\"'😀'\\n\", 1, [Token { kind: Str, start: 0, stop: 6, line: 1 }]); ",
    ),
    Halves(
        b"\"\"",
        b"\"a\n\"\"\"\n",
        "took 2; -; took 7; \
         (\"\\\"\\\"\\\"a\\n\\\"\\\"\\\"\\n\", 1, [Token { kind: Str, start: 0, stop: 8, line: 1 }]); ",
    ),
];

/// Line ends, numbers and fields in two pieces.
static OTHER_HALVES: &[Halves] = &[
    Halves(
        b"a\r",
        b"\nb",
        "took 2; -; took 1; (\"a\\r\\n\", 2, [Token { kind: Name, start: 0, stop: 1, line: 1 }]); ",
    ),
    Halves(
        b"a\r",
        b"b\n",
        "took 2; -; took 1; (\"a\\r\", 1, [Token { kind: Name, start: 0, stop: 1, line: 1 }]); ",
    ),
    Halves(
        b"(\r",
        b"\r)\rb",
        "took 2; -; took 4; (\"(\\r\\r)\\r\", 1, [Token { kind: Op(40), start: 0, stop: 1, line: 1 }, \
         Token { kind: Op(41), start: 3, stop: 4, line: 3 }]); ",
    ),
    Halves(
        b"1",
        b"2 #\n\n",
        "took 1; -; took 4; (\"12 #\\n\", 1, [Token { kind: Number, start: 0, stop: 2, line: 1 }, \
         Token { kind: Remark, start: 3, stop: 4, line: 1 }]); ",
    ),
    Halves(
        b"f\"{",
        b"{\"\n",
        "took 3; -; took 3; (\"f\\\"{{\\\"\\n\", 1, [Token { kind: Str, start: 0, stop: 5, line: 1 }]); ",
    ),
];

#[test]
fn follows_scripts(rt: HostRuntime) -> Result<(), Fail> {
    let alloc = rt.alloc();
    each_holds_again(
        alloc,
        &[("SCRIPTS", SCRIPTS), ("OTHER_SCRIPTS", OTHER_SCRIPTS)],
    )?;
    each_holds_again(alloc, &[("HALVES", HALVES), ("OTHER_HALVES", OTHER_HALVES)])
}
