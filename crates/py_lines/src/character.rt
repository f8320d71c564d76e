//! The characters of a text, and which of them its pieces are made of (Python Language Reference, 2.1 to 2.6).

ghost use Rattle.std.specs.Prelude.{◌≡◌, length, take, drop, MatchOption};
ghost use Rattle.std.specs.Str.{StartsWithNoChar};
ghost use Rattle.py_lines.specs.Character.{is_break, is_quote, is_space, is_word_character};
ghost use Rattle.py_lines.specs.Balance.{is_closing, is_opening};
ghost use Rattle.py_lines.specs.Private.Run.{BeginsWith};

use crate::run::is_ascii_word;

/// Space, tab and form feed.
#[tactic(auto, unfolding(crate::specs::Character::is_space))]
pub fn is_space(c: char) -> bool
    ensures { result ≡ is_space c }
{
    matches!(c, ' ' | '\t' | '\x0c')
}

/// The characters that may continue an identifier.
#[tactic(auto, using(crate::proofs::LineScan::AsciiRuns::word_byte_continues), unfolding(crate::specs::Character::is_word_character))]
pub fn is_word_character(c: char) -> bool
    ensures { result ≡ is_word_character c }
{
    if c.is_ascii() {
        is_ascii_word(c as u8)
    } else {
        unicode_ident::is_xid_continue(c)
    }
}

/// The quotes of strings.
#[tactic(auto, unfolding(crate::specs::Character::is_quote))]
pub fn is_quote(c: char) -> bool
    ensures { result ≡ is_quote c }
{
    matches!(c, '\'' | '"')
}

/// The characters of line ends.
#[tactic(auto, unfolding(crate::specs::Character::is_break))]
pub fn is_break(c: char) -> bool
    ensures { result ≡ is_break c }
{
    matches!(c, '\n' | '\r')
}

/// Opening brackets.
#[tactic(auto, unfolding(crate::specs::Balance::is_opening))]
pub fn is_opening(c: char) -> bool
    ensures { result ≡ is_opening c }
{
    matches!(c, '(' | '[' | '{')
}

/// Closing brackets.
#[tactic(auto, unfolding(crate::specs::Balance::is_closing))]
pub fn is_closing(c: char) -> bool
    ensures { result ≡ is_closing c }
{
    matches!(c, ')' | ']' | '}')
}

/// The text that the bytes begin with, up to the first that begin no character.
pub fn utf8_prefix(bytes: &[u8]) -> &str
    ensures prefix { result.now ≡ take (length result.now) bytes.now }
    ensures bad { StartsWithNoChar (drop (length result.now) bytes.now) }
{
    match simdutf8::compat::from_utf8(bytes) {
        Ok(text) => text,
        // Before that byte all is UTF-8.
        Err(error) => unsafe { std::str::from_utf8_unchecked(&bytes[..error.valid_up_to()]) },
    }
}

/// The character that the bytes begin with, if they begin with one. It has at most four bytes.
#[tactic(auto, using(crate::proofs::Text::FirstCharacters::first_of))]
#[inline(always)]
pub fn first_character(bytes: &[u8]) -> Option<char>
    ensures { MatchOption result (StartsWithNoChar bytes.now) (BeginsWith bytes.now) }
{
    if !bytes.is_empty() && bytes[0].is_ascii() {
        return Some(bytes[0] as char);
    }
    utf8_prefix(&bytes[..bytes.len().min(4)]).chars().next()
}
