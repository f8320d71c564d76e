//! Simple logical lines, which are read in one pass: where they end, and their tokens. Most lines are so.

ghost use Rattle.std.specs.Prelude.{◌≡◌, ◌+◌, ◌-◌, ◌<◌, ◌≤◌, ◌^◌, true, length, slice_index, IfOk, IsTrue};
ghost use Rattle.py_lines.specs.Private.SimpleLine.{FindsNext, Free, IfSome, IsShortStringAt, PassesPiece, ReadsSimpleLine, ReadsUpTo, is_quote};
ghost use Rattle.py_lines.specs.Private.SimpleLine.{opened_at};

use crate::class::Class;
use crate::line_tokens::{add_token, read_anyway};
use crate::passing::{Passing, Special, fields_after};
use crate::scan::Scan;
use crate::string_text::quotes_len;
use crate::token::{TokKind, Token};
use std::alloc::AllocError;

/// Reads the pieces of a line from one of its bytes, which is on this line of the text, up to another one: the line of that byte. `None`
/// promises nothing: no piece ends there, or it isn't read.
#[inline(always)]
fn read_up_to(
    tokens: &mut Vec<Token>,
    bytes: &[u8],
    start: usize,
    line: u64,
    to: usize,
) -> Result<Option<u64>, AllocError>
    requires within { to ≤ length bytes.now }
    requires lines { line + (length bytes.now - start) < 2 ^ 64 }
    ensures { IfOk result (λ r. IfSome r (λ after. ReadsUpTo bytes.now tokens.old.items start line to after tokens.new.items)) }
{
    let mut at = start;
    let mut line_here = line;
    'pieces: while at < to {
        let class = Class::of(bytes[at]);
        let Some((len, ends)) = read_anyway(tokens, class, bytes, at, line_here)? else {
            return Ok(None);
        };
        at += len;
        line_here += ends;
        // Mostly no space follows, or one.
        at += bytes[at..].starts_with(b" ") as usize;
    }
    Ok(if at == to { Some(line_here) } else { None })
}

/// Passes the short string without fields whose quote stands at this byte, and answers whether it did. `false` promises nothing.
#[inline(always)]
fn pass_short_string(passing: &mut Passing, bytes: &[u8], at: usize) -> bool
    requires next { FindsNext bytes.now passing.old.all at passing.old.marks }
    requires within { at < length bytes.now }
    requires quote { is_quote (slice_index bytes.now at) ≡ true }
    ensures passed { IsTrue result → PassesPiece bytes.now at passing.old passing.new }
    ensures string { IsTrue result → IsShortStringAt bytes.now at passing.new.all }
{
    matches!(quotes_len(&bytes[at..]), Some(1))
        && matches!(fields_after(&bytes[passing.all..at]), Some(false))
        && passing.pass_text(bytes, at)
}

/// Reads the logical line that the bytes begin with, which begins on this line of the text, if it is simple: how many bytes its line end has,
/// and the line after it. No line is open before the bytes, and they begin no text. `None` promises nothing.
pub fn read_simple_line(
    scan: &mut Scan,
    tokens: &mut Vec<Token>,
    bytes: &[u8],
    line: u64,
) -> Result<Option<(usize, u64)>, AllocError>
    requires scan { scan.old ≡ opened_at Free }
    requires lines { line + length bytes.now < 2 ^ 64 }
    ensures { IfOk result (λ r. IfSome r (λ read. ReadsSimpleLine bytes.now scan.old line read.0 read.1 scan.new tokens.new.items)) }
{
    // A mark may begin it.
    if bytes.is_empty() || !bytes[0].is_ascii() {
        return Ok(None);
    }
    tokens.clear();
    let mut start = 0;
    let mut line_here = line;
    let mut passing = Passing::new(bytes);
    let mut at = passing.marks.next(bytes);
    'specials: while at < bytes.len() {
        line_here = match read_up_to(tokens, bytes, start, line_here, at)? {
            Some(line) => line,
            None => break,
        };
        if let Class::Quote = Class::of(bytes[at]) {
            if !pass_short_string(&mut passing, bytes, at) {
                break;
            }
            add_token(tokens, TokKind::Str, at, passing.all - at, line_here)?;
            start = passing.all;
        } else {
            match passing.pass(&mut scan.frames, bytes, at, at) {
                // It is read with the pieces after it.
                Special::Passed => start = at,
                Special::LineEnd(len) => {
                    scan.pass(passing.all);
                    return Ok(Some((len, line_here + 1)));
                }
                Special::Unpassed => break,
            }
        }
        at = passing.marks.next(bytes);
    }
    Ok(None)
}
