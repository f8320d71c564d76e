//! The tokens of a whole logical line, which are read from its text alone.

ghost use Rattle.std.specs.Prelude.{◌≡◌, ◌+◌, ◌<◌, ◌^◌, false, true, Some, drop, length, slice_index, take, IfOk, MatchOption, OnOk};
ghost use Rattle.py_lines.specs.Private.LineTokens.{AddsPiece, BeginWithPiece, IsFirstPiece, IsRunOf, Piece};
ghost use Rattle.py_lines.specs.Private.LineTokens.{ReadsAnyway, ReadsPiece, StaysUnread, begins, is_ascii_digit, is_field_spelling, is_of_class};
ghost use Rattle.py_lines.specs.Private.LineTokens.{is_prefix_word, is_quote, is_space, is_wide_word, line_end_len, mark_len, string, string_piece};
ghost use Rattle.py_lines.specs.Private.LineTokens.{token_piece, word_kind, word_spelling};

use crate::character::{is_quote, is_space};
use crate::class::Class;
use crate::line_ends::line_ends;
use crate::mode::{Mode, Spelling};
use crate::run::{ByteRun, comment_run};
use crate::scan::Scan;
use crate::token::{TokKind, Token};
use crate::whole_strings::whole_plain_string;
use std::alloc::AllocError;

/// How many bytes the line end has that the bytes begin with: LF, CR LF or CR.
fn line_end_len(bytes: &[u8]) -> usize
    ensures { result ≡ line_end_len bytes.now }
{
    if bytes.starts_with(b"\r\n") { 2 } else { 1 }
}

/// How many bytes the string has that the bytes begin with, with fields or without, whose prefix has so many of them, or none, and how many
/// line ends it holds. Most are short and simple, and are passed at once. This scan goes through the others.
fn string_len(scan: &mut Scan, bytes: &[u8], prefix: usize, has_fields: bool) -> (usize, u64)
    requires quote { begins is_quote (drop prefix bytes.now) ≡ true }
    requires prefix { is_prefix_word (take prefix bytes.now) ≡ true }
    requires fields { has_fields ≡ is_field_spelling (word_spelling (take prefix bytes.now)) }
    requires piece { (p : Piece) × BeginWithPiece bytes.now p }
    requires string { (p : Piece) → BeginWithPiece bytes.now p → p.class ≡ string }
    ensures { IsFirstPiece bytes.now (string_piece result.0 result.1) }
{
    if !has_fields {
        if let Some(len) = whole_plain_string(&bytes[prefix..]) {
            return (prefix + len, 0);
        }
    }
    scan.restart(Mode::Free);
    scan.take_first(bytes);
    (scan.stop, line_ends(&bytes[..scan.stop]))
}

/// The kind of a word that begins with this byte: a number begins with a digit (Python Language Reference, 2.4).
fn word_kind(first: u8) -> TokKind
    ensures { result ≡ word_kind (is_ascii_digit first) }
{
    if first.is_ascii_digit() {
        TokKind::Number
    } else {
        TokKind::Name
    }
}

/// The word that the bytes begin with, or the string whose prefix it is: its kind, how many bytes it has, and how many line ends.
fn word_or_string(scan: &mut Scan, bytes: &[u8]) -> (TokKind, usize, u64)
    requires piece { (p : Piece) × BeginWithPiece bytes.now p }
    requires word { begins is_wide_word bytes.now ≡ true }
    ensures { IsFirstPiece bytes.now (token_piece result.0 result.1 result.2) }
{
    let len = ByteRun::WideWord.len_in(bytes);
    if len < bytes.len() && is_quote(bytes[len] as char) {
        let spelling = Spelling::of_word(&bytes[..len]);
        if spelling.is_prefix() {
            let (whole, line_ends) = string_len(scan, bytes, len, spelling.has_fields());
            return (TokKind::Str, whole, line_ends);
        }
    }
    (word_kind(bytes[0]), len, 0)
}

/// How many bytes the mark has that the bytes begin with, if they begin with one.
pub fn mark_len(bytes: &[u8]) -> usize
    ensures { result ≡ mark_len bytes.now }
{
    if bytes.starts_with(b"\xef\xbb\xbf") {
        3
    } else {
        0
    }
}

/// How many bytes of space the bytes begin with.
#[inline(always)]
pub fn space_len(bytes: &[u8]) -> usize
    ensures { IsRunOf is_space bytes.now result }
{
    match bytes {
        [b, ..] if is_space(*b as char) => ByteRun::Space.len_in(bytes),
        _ => 0,
    }
}

/// Adds a token of so many bytes that stands at this byte of the line, and on this line of the text.
#[inline(always)]
pub fn add_token(
    tokens: &mut Vec<Token>,
    kind: TokKind,
    start: usize,
    len: usize,
    line: u64,
) -> Result<(), AllocError>
    requires { start + len < 2 ^ 64 }
    ensures { OnOk result (AddsPiece tokens.old.items (Some kind) start (start + len) line tokens.new.items) }
{
    tokens.push(Token {
        kind,
        start,
        stop: start + len,
        line,
    })?;
    Ok(())
}

/// Reads the piece that stands at this byte of a line, and on this line of the text, where it is the same wherever after it the line ends: how
/// many bytes it has, and how many line ends it holds. `None` where a byte of this class, as the first one is, may begin another piece.
#[inline(always)]
pub fn read_anyway(
    tokens: &mut Vec<Token>,
    class: Class,
    bytes: &[u8],
    start: usize,
    line: u64,
) -> Result<Option<(usize, u64)>, AllocError>
    requires within { start < length bytes.now }
    requires class { is_of_class class (slice_index bytes.now start) ≡ true }
    ensures { IfOk result (λ r. MatchOption r (StaysUnread class tokens.old.items tokens.new.items) (λ piece.
        ReadsAnyway (drop start bytes.now) tokens.old.items start line piece.0 piece.1 tokens.new.items)) }
{
    let rest = &bytes[start..];
    let (kind, len) = match class {
        Class::Word => {
            let len = ByteRun::WideWord.len_in(rest);
            // It may be the prefix of a string.
            if len < rest.len() && is_quote(rest[len] as char) {
                return Ok(None);
            }
            (word_kind(rest[0]), len)
        }
        Class::Operator | Class::Opening | Class::Closing => (TokKind::Op(rest[0]), 1),
        Class::Hash => (TokKind::Remark, 1 + comment_run(&rest[1..])),
        Class::Space => return Ok(Some((space_len(rest), 0))),
        Class::LineFeed => return Ok(Some((1, 1))),
        _ => return Ok(None),
    };
    add_token(tokens, kind, start, len, line)?;
    Ok(Some((len, 0)))
}

/// Reads the piece that stands at this byte of a line, and on this line of the text, and is no mark: how many bytes it has, and how many line
/// ends it holds.
pub fn read_piece(
    tokens: &mut Vec<Token>,
    scan: &mut Scan,
    text: &[u8],
    start: usize,
    line: u64,
) -> Result<(usize, u64), AllocError>
    requires within { start < length text.now }
    requires piece { (p : Piece) × BeginWithPiece (drop start text.now) p }
    ensures { IfOk result (λ r. ReadsPiece (drop start text.now) tokens.old.items start line r.0 r.1 tokens.new.items) }
{
    let rest = &text[start..];
    let class = Class::of(rest[0]);
    if let Some(piece) = read_anyway(tokens, class, text, start, line)? {
        return Ok(piece);
    }
    let (kind, len, line_ends) = match class {
        Class::Word | Class::Wide => word_or_string(scan, rest),
        Class::Quote => {
            let (len, line_ends) = string_len(scan, rest, 0, false);
            (TokKind::Str, len, line_ends)
        }
        // A join of two lines (Python Language Reference, 2.1.5).
        Class::Backslash => return Ok((1 + line_end_len(&rest[1..]), 1)),
        Class::Return => return Ok((line_end_len(rest), 1)),
        _ => unreachable!(),
    };
    add_token(tokens, kind, start, len, line)?;
    Ok((len, line_ends))
}
