//! What the text of a string goes on with, item after item (Python Language Reference, 2.5.1, and of Python 3.14 the sections on f-strings
//! and t-strings). An item is taken where the bytes tell it whole.

ghost use Rattle.std.specs.Prelude.{◌≡◌, ◌<◌, false, true, length, slice_index};
ghost use Rattle.py_lines.specs.Character.{is_backslash, is_quote};
ghost use Rattle.py_lines.specs.Private.Scan.{DoesInFields, DoesInText, StaysIn, escape_in, quotes_in};

use crate::character::first_character;
use crate::mode::{Mode, Region, StringWithFields};

/// What the bytes are to the text of a string that goes on with them.
#[derive(Clone, Copy)]
pub enum TextMove {
    /// So many of them go on in it. This is open after them.
    Grows(Mode, usize),
    /// So many quotes close the string.
    Closes(usize),
    /// The first is a `{` that opens a field of this string.
    OpensField(StringWithFields, Region),
    /// The first is a `}` that ends the field whose specification is open.
    EndsField,
    /// A line end may not stand there.
    BreaksString,
    /// A quote would close the string whose specification is open.
    EndsSpecification,
    /// They don't tell yet.
    Waits,
}

/// How many quotes the bytes begin with, up to three, where they tell it.
pub fn quotes_len(bytes: &[u8]) -> Option<usize>
    ensures { result ≡ quotes_in bytes.now }
{
    match bytes {
        [a, b, ..] if a != b => Some(1),
        [a, _, c, ..] if a != c => Some(2),
        [_, _, _, ..] => Some(3),
        _ => None,
    }
}

/// How many bytes the escape has that the bytes begin with, where they tell it: a backslash and one byte of ASCII, or CR LF. A character of
/// more bytes stands for itself after it.
fn escape_len(bytes: &[u8]) -> Option<usize>
    ensures { result ≡ escape_in bytes.now }
{
    match bytes {
        [_, b'\r', b'\n', ..] => Some(3),
        [] | [_] | [_, b'\r'] => None,
        [_, 0..=127, ..] => Some(2),
        _ => Some(1),
    }
}

/// What the bytes are to the text of a string of this quote that is open so, where braces stand for themselves.
pub fn text_move(mode: Mode, quote: char, is_long: bool, bytes: &[u8]) -> TextMove
    requires some { 0 < length bytes.now }
    requires quote { is_quote quote ≡ true }
    ensures does { DoesInText mode quote is_long bytes.now result }
    ensures same { StaysIn mode result }
{
    let len = match first_character(bytes) {
        None => return TextMove::Waits,
        Some(c) if c == quote && !is_long => return TextMove::Closes(1),
        Some(c) if c == quote => match quotes_len(bytes) {
            Some(3) => return TextMove::Closes(3),
            quotes => quotes,
        },
        Some('\n' | '\r') if !is_long => return TextMove::BreaksString,
        Some('\\') => escape_len(bytes),
        Some(c) => Some(c.len_utf8()),
    };
    match len {
        Some(len) => TextMove::Grows(mode, len),
        None => TextMove::Waits,
    }
}

/// What a backslash and the bytes after it are to the text of a string with fields. A brace keeps its meaning, except after `\N`.
fn escape_move(host: StringWithFields, region: Region, named: bool, bytes: &[u8]) -> TextMove
    requires { is_backslash (slice_index bytes.now 0) ≡ true }
    ensures { DoesInFields host region named bytes.now result }
{
    match bytes {
        [_, b'{' | b'}', ..] => TextMove::Grows(Mode::Fields(host, region, named), 1),
        // A specification of a short string holds no line end, and none after a backslash.
        [_, b'\n' | b'\r', ..] if matches!(region, Region::Specification) && !host.is_long => {
            TextMove::BreaksString
        }
        [_, b'N', b'{', ..] if !host.is_raw => TextMove::Grows(Mode::Fields(host, region, true), 3),
        [_, b'N'] if !host.is_raw => TextMove::Waits,
        _ => match escape_len(bytes) {
            Some(len) => TextMove::Grows(Mode::Fields(host, region, named), len),
            None => TextMove::Waits,
        },
    }
}

/// What the bytes are to the text of a string with fields.
pub fn fields_move(host: StringWithFields, region: Region, named: bool, bytes: &[u8]) -> TextMove
    requires some { 0 < length bytes.now }
    requires quote { is_quote host.quote ≡ true }
    ensures { DoesInFields host region named bytes.now result }
{
    match (bytes[0], region) {
        (b'{', Region::Specification) if !named => TextMove::OpensField(host, region),
        // In the string's own text two of them stand for one.
        (b'{', Region::Literal) if !named => match first_character(&bytes[1..]) {
            None => TextMove::Waits,
            Some('{') => TextMove::Grows(Mode::Fields(host, region, false), 2),
            Some(_) => TextMove::OpensField(host, region),
        },
        (b'}', Region::Specification) if !named => TextMove::EndsField,
        (b'}', _) => TextMove::Grows(Mode::Fields(host, region, false), 1),
        (b'\\', _) => escape_move(host, region, named, bytes),
        _ => {
            let mode = Mode::Fields(host, region, named);
            match (region, text_move(mode, host.quote, host.is_long, bytes)) {
                (Region::Specification, TextMove::Closes(_)) => TextMove::EndsSpecification,
                (_, other) => other,
            }
        }
    }
}
