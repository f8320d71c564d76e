//! Bytes of a line that are passed over at once, from one that isn't plain to the next.

ghost use Rattle.std.specs.Prelude.{◌≡◌, ℕ, ◌+◌, ◌<◌, ◌≤◌, ◌^◌, ◌==◌, true, false, IsTrue, List, Some, length, slice_index};
ghost use Rattle.py_lines.specs.Private.Passing.{FindsNext, FindsSpecial, HasMarks, IsCounted, IsShortStringAt, MeetsString, PassesBlock};
ghost use Rattle.py_lines.specs.Private.Passing.{PassesPiece, PassesSo, PassesSpecial, TellsFields, is_hash, is_line_byte, is_quote};
ghost use Rattle.py_lines.specs.Private.Passing.{line_end_special, nothing_passed, passed_line_end, passed_to, tail_of, word_before};
ghost use Rattle.py_lines.specs.Private.LongStrings.{HasLongString};

use crate::character::is_break;
use crate::class::Class;
use crate::frames::{Frame, Frames};
use crate::line_ends::{line_ends_up_to, outer_end_len};
use crate::line_scan::word_start;
use crate::marks::Marks;
use crate::mode::Spelling;
use crate::string_text::quotes_len;
use crate::whole_strings::{long_text_len, text_len};

/// What a byte that isn't plain came to.
#[derive(Clone, Copy)]
pub enum Special {
    /// It was passed, or the piece that it begins, and the line goes on.
    Passed,
    /// It ends the line: so many bytes are its line end.
    LineEnd(usize),
    /// It was not passed.
    Unpassed,
}

/// Whether the byte is ASCII that ends no line.
#[inline(always)]
fn is_line_byte(b: u8) -> bool
    ensures { result ≡ is_line_byte b }
{
    b < 128 && !is_break(b as char)
}

/// Whether the string has fields that a quote begins after these plain bytes, where they end with its prefix or with no word. `None`
/// promises nothing.
#[inline(always)]
pub fn fields_after(plain: &[u8]) -> Option<bool>
    ensures { TellsFields (tail_of plain.now) result }
{
    let start = word_start(plain);
    // Mostly no word stands before it.
    if start == plain.len() {
        return Some(false);
    }
    let word = Spelling::of_word(&plain[start..]);
    word.is_prefix().then_some(word.has_fields())
}

/// Where the string without fields ends that three quotes at this byte begin, after plain bytes from another on. `None` promises nothing. It
/// stands apart, so that what passes short strings stays small.
#[inline(never)]
fn long_string_end(bytes: &[u8], from: usize, at: usize) -> Option<usize>
    requires after { from ≤ at }
    requires quote { is_quote (slice_index bytes.now at) ≡ true }
    requires within { at + 3 ≤ length bytes.now }
    ensures { HasLongString bytes.now from at result }
{
    let Some(false) = fields_after(&bytes[from..at]) else {
        return None;
    };
    let len = long_text_len(bytes[at] as char, &bytes[at + 3..])?;
    Some(at + 3 + len)
}

/// How far bytes were passed.
#[derive(Drop)]
pub struct Passing {
    /// How many were passed.
    pub all: usize,
    /// How many line ends they hold.
    pub ends: u64,
    /// How many of them are whole lines.
    pub lines: usize,
    /// The bytes after them that are not plain.
    pub marks: Marks,
}

impl Passing {
    /// No byte is passed yet.
    #[inline(always)]
    pub fn new(bytes: &[u8]) -> Passing
        ensures nothing { result ≡ nothing_passed result.marks }
        ensures marked { HasMarks bytes.now 0 result.marks }
    {
        Passing {
            all: 0,
            ends: 0,
            lines: 0,
            marks: Marks::at(bytes, 0),
        }
    }

    /// Passes the bytes up to this one.
    #[inline(always)]
    pub fn pass_to(&mut self, bytes: &[u8], to: usize)
        requires counted { IsCounted bytes.now self.old }
        requires further { self.old.all ≤ to }
        requires within { to ≤ length bytes.now }
        ensures passed { self.new ≡ passed_to self.old to self.new.ends self.new.marks }
        ensures counted { IsCounted bytes.now self.new }
        ensures marked { HasMarks bytes.now to self.new.marks }
    {
        self.ends += line_ends_up_to(&bytes[self.all..], to - self.all);
        self.all = to;
        self.marks = Marks::anew(bytes, to);
    }

    /// Passes LF of the 64 bytes of the marks, up to the last before any other byte that isn't plain, with the plain bytes before it:
    /// with each of them a line ends, except in brackets.
    #[inline(always)]
    fn pass_feeds(&mut self, frames: &Frames)
        requires fits { self.old.marks.base + 64 < 2 ^ 64 }
        requires few { self.old.ends + 2 ^ 32 < 2 ^ 64 }
        ensures { (bytes : List ℕ) (from : ℕ) → HasMarks bytes from self.old.marks
            → PassesBlock bytes from frames.now self.old self.new }
    {
        if let Some((end, feeds)) = self.marks.pass_feeds() {
            self.ends += feeds as u64;
            self.all = end;
            if frames.is_empty() {
                self.lines = end;
            }
        }
    }

    /// The next byte that isn't plain, or the bytes' end. It is passed by the marks. LF before it are passed first: with each of them a line
    /// ends, except in brackets.
    #[inline(always)]
    pub fn next(&mut self, frames: &Frames, bytes: &[u8]) -> usize
        requires counted { IsCounted bytes.now self.old }
        requires marked { HasMarks bytes.now self.old.all self.old.marks }
        ensures { FindsSpecial bytes.now frames.now self.old result self.new }
    {
        self.pass_feeds(frames);
        'feeds: while self.marks.advance(bytes) {
            self.pass_feeds(frames);
        }
        self.marks.next(bytes)
    }

    /// Passes the line end of so many bytes at this byte: in brackets the line goes on.
    #[inline(always)]
    fn pass_line_end(&mut self, frames: &Frames, at: usize, len: usize) -> Special
        requires fits { at + len < 2 ^ 64 }
        requires few { self.old.ends + 1 < 2 ^ 64 }
        ensures special { result ≡ line_end_special frames.now len }
        ensures passed { self.new ≡ passed_line_end frames.now self.old (at + len) }
    {
        self.ends += 1;
        self.all = at + len;
        if !frames.is_empty() {
            return Special::Passed;
        }
        self.lines = self.all;
        Special::LineEnd(len)
    }

    /// Passes the string without fields that the quote at this byte begins, and answers whether it did: it does for most that are short and
    /// ASCII on one line. `false` promises that nothing changed, and no more.
    #[inline(always)]
    pub fn pass_text(&mut self, bytes: &[u8], at: usize) -> bool
        requires quote { MeetsString bytes.now at self.old 1 }
        requires plain { TellsFields (word_before bytes.now at self.old) (Some false) }
        ensures passed { IsTrue result → PassesPiece bytes.now at self.old self.new }
        ensures string { IsTrue result → IsShortStringAt bytes.now at self.new.all }
        ensures same { result ≡ false → self.new ≡ self.old }
    {
        let quote = bytes[at];
        let mut marks = self.marks;
        let mut end = marks.next(bytes);
        'specials: loop {
            match &bytes[end..] {
                [b, ..] if *b == quote => break,
                [b'\\', b, ..] if is_line_byte(*b) => marks.pass(bytes, end + 2),
                [b, ..] if *b != b'\\' && is_line_byte(*b) => {}
                _ => return false,
            }
            end = marks.next(bytes);
        }
        self.all = end + 1;
        self.marks = marks;
        true
    }

    /// Passes the string that the quote at this byte begins, and answers whether it did: it does for most strings, as empty ones, those that
    /// are short and simple, and those of three quotes without fields. `false` promises that nothing changed, and no more.
    #[inline(always)]
    fn pass_string(&mut self, frames: &Frames, bytes: &[u8], at: usize) -> bool
        requires next { FindsNext bytes.now self.old.all at self.old.marks }
        requires within { at < length bytes.now }
        requires quote { is_quote (slice_index bytes.now at) ≡ true }
        requires counted { IsCounted bytes.now self.old }
        ensures passed { IsTrue result
            → (place : ℕ) → PassesSo bytes.now at place self.old frames.now self.new frames.now }
        ensures same { result ≡ false → self.new ≡ self.old }
    {
        match quotes_len(&bytes[at..]) {
            Some(1) => match fields_after(&bytes[self.all..at]) {
                // Deeper in fields, text is seldom simple.
                Some(true) => {
                    let text = &bytes[at + 1..];
                    let len = text_len(bytes[at], text);
                    if frames.len() > 10 || len == text.len() || text[len] != bytes[at] {
                        return false;
                    }
                    self.all = at + len + 2;
                    self.marks.pass(bytes, self.all);
                    true
                }
                Some(false) => self.pass_text(bytes, at),
                None => false,
            },
            // An empty string.
            Some(2) => {
                self.all = at + 2;
                self.marks.pass(bytes, at + 2);
                true
            }
            Some(3) => match long_string_end(bytes, self.all, at) {
                Some(end) => {
                    self.pass_to(bytes, end);
                    true
                }
                None => false,
            },
            _ => false,
        }
    }

    /// Passes the comment that the `#` at this byte begins, if it is ASCII and a line end follows it: whether it is so.
    #[inline(always)]
    fn pass_comment(&mut self, bytes: &[u8], at: usize) -> bool
        requires next { FindsNext bytes.now self.old.all at self.old.marks }
        requires within { at < length bytes.now }
        requires hash { is_hash (slice_index bytes.now at) ≡ true }
        ensures passed { IsTrue result → PassesPiece bytes.now at self.old self.new }
        ensures same { result ≡ false → self.new ≡ self.old }
    {
        let mut marks = self.marks;
        let mut end = marks.next(bytes);
        'specials: while end < bytes.len() && is_line_byte(bytes[end]) {
            end = marks.next(bytes);
        }
        if end >= bytes.len() || !is_break(bytes[end] as char) {
            return false;
        }
        marks.keep(end);
        self.all = end;
        self.marks = marks;
        true
    }

    /// Passes the byte at this place, which is not plain, or the piece that it begins, with the plain bytes before it. In its line it
    /// stands at the byte `place`.
    #[inline(always)]
    pub fn pass(&mut self, frames: &mut Frames, bytes: &[u8], at: usize, place: usize) -> Special
        requires next { FindsNext bytes.now self.old.all at self.old.marks }
        requires within { at < length bytes.now }
        requires counted { IsCounted bytes.now self.old }
        ensures { PassesSpecial bytes.now at place self.old frames.old result self.new frames.new }
    {
        let first = bytes[at];
        let passed = match Class::of(first) {
            Class::LineFeed => return self.pass_line_end(frames, at, 1),
            Class::Return => {
                let Some(len) = outer_end_len(&bytes[at..]) else {
                    return Special::Unpassed;
                };
                self.marks.pass(bytes, at + len);
                return self.pass_line_end(frames, at, len);
            }
            Class::Quote => self.pass_string(frames, bytes, at),
            // A join of two lines, if its line end is known (2.1.5).
            Class::Backslash => {
                let Some(len) = outer_end_len(&bytes[at + 1..]) else {
                    return Special::Unpassed;
                };
                self.ends += 1;
                self.all = at + 1 + len;
                self.marks.pass(bytes, self.all);
                true
            }
            Class::Hash => self.pass_comment(bytes, at),
            Class::Opening if frames.open(Frame::Bracket(first as char, place)) => {
                self.all = at + 1;
                true
            }
            Class::Closing if frames.close(first as char) => {
                self.all = at + 1;
                true
            }
            _ => false,
        };
        if passed {
            Special::Passed
        } else {
            Special::Unpassed
        }
    }
}
