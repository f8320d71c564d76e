//! What bytes are outside strings and comments.

ghost use Rattle.std.specs.Prelude.{◌≡◌, ◌<◌, ◌≤◌, ℕ, true, length, not, slice_index};
ghost use Rattle.py_lines.specs.Character.{is_line_feed};
ghost use Rattle.py_lines.specs.Private.Marks.{CountsFeeds, is_of_class, is_plain, is_set};

use crate::class::Class::{
    Backslash as K, Closing as E, Hash as H, LineFeed as L, Opening as B, Operator as O,
    Other as X, Quote as Q, Return as R, Space as S, Wide as N, Word as W,
};
use std::simd::prelude::*;

/// What a byte is outside strings and comments.
#[derive(Clone, Copy)]
pub enum Class {
    /// An ASCII letter, a digit or the underscore.
    Word,
    Space,
    /// An operator that is no bracket.
    Operator,
    /// `(`, `[` or `{`.
    Opening,
    /// `)`, `]` or `}`.
    Closing,
    Quote,
    LineFeed,
    Return,
    Hash,
    Backslash,
    /// A byte of a character that is no ASCII.
    Wide,
    /// ASCII that begins no piece.
    Other,
}

impl Class {
    /// What a byte is.
    #[inline(always)]
    pub fn of(byte: u8) -> Class
        ensures { is_of_class result byte ≡ true }
    {
        CLASSES[byte as usize]
    }
}

/// What each byte is.
static CLASSES: [Class; 256] = [
    X, X, X, X, X, X, X, X, X, S, L, X, S, R, X, X, X, X, X, X, X, X, X, X, X, X, X, X, X, X, X, X,
    S, O, Q, H, X, O, O, Q, B, E, O, O, O, O, O, O, W, W, W, W, W, W, W, W, W, W, O, O, O, O, O, X,
    O, W, W, W, W, W, W, W, W, W, W, W, W, W, W, W, W, W, W, W, W, W, W, W, W, W, W, B, K, E, O, W,
    X, W, W, W, W, W, W, W, W, W, W, W, W, W, W, W, W, W, W, W, W, W, W, W, W, W, W, B, O, E, O, X,
    N, N, N, N, N, N, N, N, N, N, N, N, N, N, N, N, N, N, N, N, N, N, N, N, N, N, N, N, N, N, N, N,
    N, N, N, N, N, N, N, N, N, N, N, N, N, N, N, N, N, N, N, N, N, N, N, N, N, N, N, N, N, N, N, N,
    N, N, N, N, N, N, N, N, N, N, N, N, N, N, N, N, N, N, N, N, N, N, N, N, N, N, N, N, N, N, N, N,
    N, N, N, N, N, N, N, N, N, N, N, N, N, N, N, N, N, N, N, N, N, N, N, N, N, N, N, N, N, N, N, N,
];

/// For each lower half of a byte, the upper halves with which the byte is plain, a bit for each; four times.
const PLAIN: [u8; 64] = [
    188, 252, 248, 248, 248, 252, 252, 248, 248, 249, 252, 92, 221, 92, 252, 116, 188, 252, 248,
    248, 248, 252, 252, 248, 248, 249, 252, 92, 221, 92, 252, 116, 188, 252, 248, 248, 248, 252,
    252, 248, 248, 249, 252, 92, 221, 92, 252, 116, 188, 252, 248, 248, 248, 252, 252, 248, 248,
    249, 252, 92, 221, 92, 252, 116,
];

/// The bit of each upper half that ASCII has; four times.
const UPPER: [u8; 64] = [
    1, 2, 4, 8, 16, 32, 64, 128, 0, 0, 0, 0, 0, 0, 0, 0, 1, 2, 4, 8, 16, 32, 64, 128, 0, 0, 0, 0,
    0, 0, 0, 0, 1, 2, 4, 8, 16, 32, 64, 128, 0, 0, 0, 0, 0, 0, 0, 0, 1, 2, 4, 8, 16, 32, 64, 128,
    0, 0, 0, 0, 0, 0, 0, 0,
];

/// Which of the first 64 bytes are not plain, a bit for each.
#[inline(always)]
pub fn special64(bytes: &[u8]) -> u64
    requires { 64 ≤ length bytes.now }
    ensures { (k : ℕ) → k < 64 → is_set result k ≡ not (is_plain (slice_index bytes.now k)) }
{
    let lanes = u8x64::from_slice(bytes);
    let uppers = u8x64::from_array(PLAIN).swizzle_dyn_within::<16>(lanes & u8x64::splat(15));
    let own = u8x64::from_array(UPPER).swizzle_dyn_within::<16>(lanes >> u8x64::splat(4));
    (uppers & own).simd_eq(u8x64::splat(0)).to_bitmask()
}

/// Which of the first 64 bytes are LF, a bit for each.
#[inline(always)]
pub fn feeds64(bytes: &[u8]) -> u64
    requires { 64 ≤ length bytes.now }
    ensures bits { (k : ℕ) → k < 64 → is_set result k ≡ is_line_feed (slice_index bytes.now k) }
    ensures count { CountsFeeds bytes.now result }
{
    u8x64::from_slice(bytes)
        .simd_eq(u8x64::splat(b'\n'))
        .to_bitmask()
}
