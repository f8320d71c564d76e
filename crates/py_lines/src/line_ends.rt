//! Line numbers: a place's line is one more than the line ends before it.

ghost use Rattle.std.specs.Prelude.{◌≡◌, ℕ, ◌+◌, ◌≤◌, List, drop, length, encode_utf8_all};
ghost use Rattle.py_lines.specs.Private.LineEnds.{HasOuterEnd, count_by, is_byte, line_ends};

use crate::class::feeds64;

/// How many of these bytes are LF. They are looked at 64 at a time, the last ones with spaces after them.
#[inline(always)]
fn line_feeds(bytes: &[u8]) -> u64
    ensures { result ≡ count_by (is_byte 10) bytes.now }
{
    let mut count = 0;
    let mut rest = bytes;
    while rest.len() >= 64 {
        count += feeds64(rest).count_ones() as u64;
        rest = &rest[64..];
    }
    let mut block = [b' '; 64];
    block[..rest.len()].copy_from_slice(rest);
    count + feeds64(&block).count_ones() as u64
}

/// How many line ends the bytes of characters hold: LF, CR LF and CR (Python Language Reference, 2.1.2).
pub fn line_ends(bytes: &[u8]) -> u64
    ensures few { result ≤ length bytes.now }
    ensures bytes { result ≡ line_ends bytes.now }
    ensures count { (characters : List ℕ)
        → encode_utf8_all characters ≡ bytes.now → result ≡ line_ends characters }
{
    let mut count = line_feeds(bytes);
    let mut rest = bytes;
    while let Some(at) = memchr::memchr(b'\r', rest) {
        rest = &rest[at + 1..];
        // Of CR LF it is LF that counts.
        count += !rest.starts_with(b"\n") as u64;
    }
    count
}

/// How many line ends of these bytes end before this one. Of CR LF it is LF that ends there.
pub fn line_ends_up_to(bytes: &[u8], to: usize) -> u64
    requires { to ≤ length bytes.now }
    ensures { result + line_ends (drop to bytes.now) ≡ line_ends bytes.now }
{
    let cut = bytes[..to].ends_with(b"\r") & bytes[to..].starts_with(b"\n");
    line_ends(&bytes[..to]) - cut as u64
}

/// How many bytes the line end has that the bytes begin with (Python Language Reference, 2.1.2). CR at their end is none: LF may follow.
#[tactic(auto, using(crate::proofs::PassedPieces::FirstBytes::no_outer_end))]
pub fn outer_end_len(bytes: &[u8]) -> Option<usize>
    ensures { HasOuterEnd bytes.now result }
{
    match bytes {
        [b'\n', ..] => Some(1),
        [b'\r', b'\n', ..] => Some(2),
        [b'\r', _, ..] => Some(1),
        _ => None,
    }
}
