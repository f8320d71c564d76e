//! Runs of bytes that leave the open piece as it is.

ghost use Rattle.std.specs.Prelude.{◌≡◌, ◌<◌, ◌≤◌, ◌==◌, length};
ghost use Rattle.std.specs.List.{prefix_len};
ghost use Rattle.py_lines.specs.Private.Scan.{HasQuote};
ghost use Rattle.py_lines.specs.Private.Run.{IsRunOf, Marks, Spans, is_between, is_in_run, stays};
ghost use Rattle.py_lines.specs.Private.Run.{is_ascii_word, is_body_byte, is_comment_byte, is_wide_word};

use crate::character::{is_break, utf8_prefix};
use crate::mode::{Mode, Spelling};
use std::simd::prelude::*;

/// Whether the byte is an ASCII letter, a digit or the underscore.
#[tactic(auto, unfolding(crate::specs::Private::Run::is_ascii_word))]
pub fn is_ascii_word(b: u8) -> bool
    ensures { result ≡ is_ascii_word b }
{
    b.is_ascii_alphanumeric() || b == b'_'
}

/// The lanes whose bytes are from `low` to `high`.
#[inline(always)]
fn between(lanes: u8x16, low: u8, high: u8) -> mask8x16
    ensures { Marks (is_between low high) lanes result }
{
    lanes.simd_ge(u8x16::splat(low)) & lanes.simd_le(u8x16::splat(high))
}

/// The lanes that hold this byte.
#[inline(always)]
fn equal(lanes: u8x16, byte: u8) -> mask8x16
    ensures { Marks (λ c. c == byte) lanes result }
{
    lanes.simd_eq(u8x16::splat(byte))
}

/// For each lower half of a byte, the upper halves with which the byte stands in a word, a bit for each; the lowest bit stands
/// for those of bytes that aren't ASCII.
const WORD: [u8; 16] = [
    169, 249, 249, 249, 249, 249, 249, 249, 249, 249, 241, 81, 81, 81, 81, 113,
];

/// The bit of each upper half.
const UPPER: [u8; 16] = [0, 2, 4, 8, 16, 32, 64, 128, 1, 1, 1, 1, 1, 1, 1, 1];

/// The lanes that hold bytes of words, or of characters that aren't ASCII.
#[inline(always)]
fn wide_words(lanes: u8x16) -> mask8x16
    ensures { Marks is_wide_word lanes result }
{
    let uppers = u8x16::from_array(WORD).swizzle_dyn_within::<16>(lanes & u8x16::splat(15));
    let own = u8x16::from_array(UPPER).swizzle_dyn_within::<16>(lanes >> u8x16::splat(4));
    (uppers & own).simd_ne(u8x16::splat(0))
}

/// The lanes that hold bytes of words.
#[inline(always)]
fn words(lanes: u8x16) -> mask8x16
    ensures { Marks is_ascii_word lanes result }
{
    wide_words(lanes) & lanes.simd_lt(u8x16::splat(128))
}

/// The lanes of the body of a string.
#[inline(always)]
fn body(quote: u8, lanes: u8x16) -> mask8x16
    ensures { Marks (is_body_byte quote) lanes result }
{
    let breaks = equal(lanes, b'\n') | equal(lanes, b'\r');
    !(equal(lanes, quote) | equal(lanes, b'\\') | breaks)
}

/// What the bytes of a run are.
#[derive(Clone, Copy)]
pub enum ByteRun {
    /// ASCII letters, digits and underscores.
    Word,
    /// The same, and the bytes of characters that aren't ASCII.
    WideWord,
    /// Spaces, tabs and form feeds.
    Space,
    /// The body of a string of this quote, up to what escapes or ends a line.
    Body(u8),
    /// The same, as far as it is ASCII.
    Text(u8),
    /// The text of a string with fields of this quote, up to a brace too.
    Literal(u8),
    /// The body of a string of three such quotes, up to a quote or a backslash, as far as it is ASCII.
    LongText(u8),
    /// Code in a field: words, spaces and the operators that it has mostly.
    Code,
}

impl ByteRun {
    /// How many such bytes the lanes begin with.
    #[inline(always)]
    fn len_in_lanes(self, lanes: u8x16) -> usize
        ensures { result ≡ prefix_len (is_in_run self) lanes }
    {
        let ascii = lanes.simd_lt(u8x16::splat(128));
        let passing = match self {
            ByteRun::Word => words(lanes),
            ByteRun::WideWord => wide_words(lanes),
            ByteRun::Space => equal(lanes, b' ') | equal(lanes, b'\t') | equal(lanes, b'\x0c'),
            ByteRun::Body(quote) => body(quote, lanes),
            ByteRun::Text(quote) => body(quote, lanes) & ascii,
            ByteRun::Literal(quote) => {
                let braces = equal(lanes, b'{') | equal(lanes, b'}');
                body(quote, lanes) & ascii & !braces
            }
            ByteRun::LongText(quote) => { !(equal(lanes, quote) | equal(lanes, b'\\')) & ascii }
            ByteRun::Code => {
                let signs = between(lanes, b'*', b'/') | between(lanes, b' ', b'!');
                words(lanes) | signs | equal(lanes, b'=')
            }
        };
        passing.to_bitmask().trailing_ones() as usize
    }

    /// How many such bytes a text begins with. They are taken sixteen at a time.
    #[inline(always)]
    pub fn len_in(self, bytes: &[u8]) -> usize
        ensures { IsRunOf (is_in_run self) bytes.now result }
    {
        let mut len = 0;
        while bytes.len() - len >= 16 {
            let more = self.len_in_lanes(u8x16::from_slice(&bytes[len..]));
            if more < 16 {
                return len + more;
            }
            len += 16;
        }
        len + self.short_len_in(&bytes[len..])
    }

    /// The same, where the text has fewer than sixteen.
    fn short_len_in(self, bytes: &[u8]) -> usize
        requires { length bytes.now < 16 }
        ensures within { result ≤ length bytes.now }
        ensures counted { result ≡ prefix_len (is_in_run self) bytes.now }
    {
        let mut block = [0; 16];
        block[..bytes.len()].copy_from_slice(bytes);
        self.len_in_lanes(u8x16::from_array(block)).min(bytes.len())
    }
}

/// How many bytes a text begins with that end no line.
#[tactic(auto, unfolding(crate::specs::Character::is_break))]
pub fn comment_run(bytes: &[u8]) -> usize
    ensures { IsRunOf is_comment_byte bytes.now result }
{
    if !bytes.is_empty() && is_break(bytes[0] as char) {
        return 0;
    }
    memchr::memchr2(b'\n', b'\r', bytes).unwrap_or(bytes.len())
}

/// How many bytes of whole characters a text begins with that leave the open piece as it is, where that is no string with fields.
#[inline(always)]
pub fn characters_in(mode: Mode, bytes: &[u8]) -> usize
    requires quote { HasQuote mode }
    ensures { Spans (stays mode) bytes.now result }
{
    let run = match mode {
        Mode::Short(quote) => ByteRun::Body(quote as u8).len_in(bytes),
        Mode::Long(quote) => {
            let ascii = ByteRun::LongText(quote as u8).len_in(bytes);
            if ascii == bytes.len() || bytes[ascii] < 128 {
                return ascii;
            }
            memchr::memchr2(quote as u8, b'\\', bytes).unwrap_or(bytes.len())
        }
        Mode::Comment => comment_run(bytes),
        Mode::Space => return ByteRun::Space.len_in(bytes),
        // After a character of another script, bytes of words mostly don't go on.
        Mode::Word(Spelling::Name) if !bytes.is_empty() && is_ascii_word(bytes[0]) => {
            return ByteRun::Word.len_in(bytes);
        }
        _ => return 0,
    };
    utf8_prefix(&bytes[..run]).len()
}
