//! Logical lines, with their tokens and without.
ghost use Rattle.std.specs.Prelude.{◌≡◌, ◌+◌, ◌^◌, ◌<◌, Some, length, slice_get, slice_range, IsUtf8};
ghost use Rattle.py_lines.specs.Token.{EachLiesIn};
ghost use Rattle.py_lines.specs.declared.token.Token.{Token};

use crate::line_tokens::{mark_len, space_len};
use crate::token::Token;

/// What a logical line holds (Python Language Reference, 2.1).
#[derive(Clone, Copy, Debug, PartialEq, Eq)]
pub enum UnitKind {
    /// A token other than a comment, or a backslash that joins lines.
    Code,
    /// A comment alone.
    Comment,
    /// No token.
    Blank,
}

/// One logical line (2.1.1): the bytes up to and with the line end that closes it, or up to the text's end. All of it
/// is lent out of the text and the reader.
#[derive(Clone, Copy, Debug)]
pub struct Unit<'s> {
    /// What the line holds.
    pub kind: UnitKind,
    /// The line with its line end.
    pub text: &'s str,
    /// The words, strings, operators and comments, in order.
    pub tokens: &'s [Token],
    /// The byte of the whole text at which the line begins.
    pub offset: u64,
    /// The line of its first byte, from 1.
    pub line: u64,
    /// How many bytes of space it begins with, after a byte order mark.
    pub indent: usize,
    /// How many bytes its closing line end has: 0 where the text's end closes it.
    pub end_len: usize,
    pub ghost tokens_lie_in: { EachLiesIn text.now tokens.now },
    pub ghost places_fit: { offset + length text.now < 2 ^ 64 },
}

impl<'s> Unit<'s> {
    /// The text of the token at place `i`, counted from 0: a slice of the line's text. There is such a token.
    #[tactic(auto, using(std::proofs::lemmas::Option::get_or_from_slice_get))]
    pub fn word(&self, i: usize) -> &'s str
        requires { i < length self.now.tokens.now }
        ensures { (t : Token) → slice_get self.now.tokens.now i ≡ Some t
            → result.now ≡ slice_range self.now.text.now t.start t.stop }
    {
        let token = self.tokens[i];
        &self.text[token.start..token.stop]
    }
}

/// One logical line (2.1.1) without its tokens, lent out of the text.
#[derive(Clone, Copy, Debug)]
pub struct Line<'t> {
    /// What the line holds.
    pub kind: UnitKind,
    /// The line with its line end.
    pub text: &'t str,
    /// The byte of the whole text at which the line begins.
    pub offset: u64,
    /// The line of its first byte, from 1.
    pub line: u64,
    /// How many bytes of space it begins with, after a byte order mark.
    pub indent: usize,
    /// How many bytes its closing line end has: 0 where the text's end closes it.
    pub end_len: usize,
    pub ghost places_fit: { offset + length text.now < 2 ^ 64 },
    pub ghost lines_fit: { line + length text.now < 2 ^ 64 },
}

impl<'t> Line<'t> {
    ghost use Rattle.py_lines.specs.UnitLine.{line_in, outline_in};
    ghost use Rattle.py_lines.specs.Private.Outline.{outline_at, with_tokens};

    /// The logical line of this text, which begins at this byte and on this line, and has so many bytes of line end.
    #[inline(always)]
    pub(crate) fn of(text: &'t [u8], offset: u64, line: u64, end_len: usize) -> Line<'t>
        requires utf8 { IsUtf8 text.now }
        requires places { offset + length text.now < 2 ^ 64 }
        requires lines { line + length text.now < 2 ^ 64 }
        ensures { outline_in result ≡ outline_at text.now offset line end_len }
    {
        let unmarked = &text[mark_len(text)..];
        let indent = space_len(unmarked);
        let kind = match &unmarked[indent..] {
            [] | [b'\n' | b'\r', ..] => UnitKind::Blank,
            [b'#', ..] => UnitKind::Comment,
            _ => UnitKind::Code,
        };
        Line {
            kind,
            // The scan read it as characters.
            text: unsafe { std::str::from_utf8_unchecked(text) },
            offset,
            line,
            indent,
            end_len,
        }
    }

    /// The line with these tokens.
    #[inline(always)]
    pub(crate) fn unit(&self, tokens: &'t [Token]) -> Unit<'t>
        requires { EachLiesIn self.now.text.now tokens.now }
        ensures { line_in result ≡ with_tokens (outline_in self.now) tokens.now }
    {
        Unit {
            kind: self.kind,
            text: self.text,
            tokens,
            offset: self.offset,
            line: self.line,
            indent: self.indent,
            end_len: self.end_len,
        }
    }
}
