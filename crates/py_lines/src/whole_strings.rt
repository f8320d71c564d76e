//! Strings that bytes hold whole, where they are short and simple, or have no fields: the machine need not go through them.

ghost use Rattle.std.specs.Prelude.{◌≡◌, false, true};
ghost use Rattle.py_lines.specs.Private.FieldText.{BeginsPlainString, HasCode, HasField, HasPart, HasSimpleCode, HasText, HasWholePlainString};
ghost use Rattle.py_lines.specs.Private.FieldText.{IsRunOf, begins, begins_open, is_literal_byte, is_quote};
ghost use Rattle.py_lines.specs.Private.LongStrings.{HasLongText};

use crate::character::is_quote;
use crate::frames::closing_of;
use crate::mode::Mode;
use crate::run::{ByteRun, characters_in, is_ascii_word};
use crate::string_text::{TextMove, text_move};

/// How many bytes the string has that the bytes begin with, where it has no prefix, is short, holds something, and is ASCII with no
/// escape.
#[inline(always)]
pub fn whole_plain_string(bytes: &[u8]) -> Option<usize>
    requires begins { begins is_quote bytes.now ≡ true }
    ensures { HasWholePlainString bytes.now result }
{
    let quote = bytes[0];
    let len = 1 + ByteRun::Text(quote).len_in(&bytes[1..]);
    if len == 1 || len == bytes.len() || bytes[len] != quote {
        return None;
    }
    Some(len + 1)
}

/// Whether a string without a prefix begins at this byte.
fn begins_plain_string(bytes: &[u8], at: usize) -> bool
    ensures { result ≡ true → BeginsPlainString bytes.now at }
{
    at < bytes.len() && is_quote(bytes[at] as char) && (at == 0 || !is_ascii_word(bytes[at - 1]))
}

/// How many bytes of code outside brackets the bytes begin with: words, the signs that code in fields has mostly, and whole
/// strings without a prefix.
fn simple_code_len(bytes: &[u8]) -> usize
    ensures { HasSimpleCode bytes.now result }
{
    let mut len = ByteRun::Code.len_in(bytes);
    while begins_plain_string(bytes, len) {
        let Some(text) = whole_plain_string(&bytes[len..]) else {
            return len;
        };
        len += text;
        len += ByteRun::Code.len_in(&bytes[len..]);
    }
    len
}

/// How many bytes of a field's code the bytes begin with. No bracket stands in another.
fn code_len(bytes: &[u8]) -> usize
    ensures { HasCode bytes.now result }
{
    let mut len = simple_code_len(bytes);
    while len < bytes.len() && matches!(bytes[len], b'(' | b'[') {
        let end = len + 1 + simple_code_len(&bytes[len + 1..]);
        if end == bytes.len() || bytes[end] as char != closing_of(bytes[len] as char) {
            return len;
        }
        len = end + 1 + simple_code_len(&bytes[end + 1..]);
    }
    len
}

/// How many bytes a field has after its `{`, where its specification holds no field.
fn field_len(quote: u8, bytes: &[u8]) -> Option<usize>
    requires { begins_open bytes.now ≡ false }
    ensures { HasField quote bytes.now result }
{
    let mut len = code_len(bytes);
    if len < bytes.len() && bytes[len] == b':' {
        len += 1 + ByteRun::Literal(quote).len_in(&bytes[len + 1..]);
    }
    if len == bytes.len() || bytes[len] != b'}' {
        return None;
    }
    Some(len + 1)
}

/// How many bytes the part has that a string goes on with: `}`, an escape, `{{` or a field.
fn part_len(quote: u8, bytes: &[u8]) -> Option<usize>
    ensures { HasPart quote bytes.now result }
{
    match bytes {
        [b'}', ..] => Some(1),
        [b'\\', b'\n' | b'\r' | b'{' | b'}' | b'N' | 128.., ..] => None,
        [b'\\', _, ..] | [b'{', b'{', ..] => Some(2),
        [b'{', field @ ..] => Some(1 + field_len(quote, field)?),
        _ => None,
    }
}

/// How many bytes of its text a string with fields goes on with, up to a brace or what may end it: none where a field follows another.
#[tactic(auto, unfolding(crate::specs::Character::is_brace))]
#[inline(always)]
pub fn literal_run(quote: u8, bytes: &[u8]) -> usize
    ensures { IsRunOf (is_literal_byte quote) bytes.now result }
{
    if matches!(bytes, [b'{' | b'}', ..]) {
        return 0;
    }
    ByteRun::Literal(quote).len_in(bytes)
}

/// How many bytes of its text a string with fields goes on with, as far as that is simple: ASCII with no line end and no name in braces,
/// and fields whose code and specification are so.
pub fn text_len(quote: u8, bytes: &[u8]) -> usize
    ensures { HasText quote bytes.now result }
{
    let mut len = ByteRun::Literal(quote).len_in(bytes);
    while let Some(part) = part_len(quote, &bytes[len..]) {
        len += part;
        len += literal_run(quote, &bytes[len..]);
    }
    len
}

/// How many bytes the text of a string of three such quotes has that the bytes go on with, and the quotes that close it. The string has no
/// fields. `None` promises nothing.
pub fn long_text_len(quote: char, bytes: &[u8]) -> Option<usize>
    requires { is_quote quote ≡ true }
    ensures { HasLongText quote bytes.now result }
{
    let mode = Mode::Long(quote);
    let mut len = characters_in(mode, bytes);
    'items: while len < bytes.len() {
        match text_move(mode, quote, true, &bytes[len..]) {
            TextMove::Grows(_, more) => len += more,
            TextMove::Closes(quotes) => return Some(len + quotes),
            _ => return None,
        }
        len += characters_in(mode, &bytes[len..]);
    }
    None
}
