//! Where the next byte of a text stands that is not plain.

ghost use Rattle.std.specs.Prelude.{◌≡◌, ◌+◌, ◌<◌, ◌≤◌, ◌^◌, ℕ, List, true, length, not, slice_index};
ghost use Rattle.py_lines.specs.Character.{is_line_feed};
ghost use Rattle.py_lines.specs.Private.Marks.{Advances, FindsNext, HasMarks, IsSpecial, PassesFeeds, is_feed, is_mark, is_plain, is_set};

use crate::class::{feeds64, special64};

/// Of 64 bytes of a text, those that are not plain and were not passed yet.
#[derive(Clone, Copy)]
pub struct Marks {
    /// The first of the 64 bytes.
    base: usize,
    /// A bit for each of them.
    bits: u64,
    /// A bit for each of the 64 bytes that is LF, whether it was passed or not.
    feeds: u64,
}

impl Marks {
    /// Those of the first 64 of these bytes, the first of which is this one of the text.
    #[inline(always)]
    fn of(block: &[u8], base: usize) -> Marks
        requires { 64 ≤ length block.now }
        ensures base { result.base ≡ base }
        ensures bits { (k : ℕ) → k < 64
            → is_set result.bits k ≡ not (is_plain (slice_index block.now k)) }
        ensures feeds { (k : ℕ) → k < 64
            → is_set result.feeds k ≡ is_line_feed (slice_index block.now k) }
    {
        Marks {
            base,
            bits: special64(block),
            feeds: feeds64(block),
        }
    }

    /// Those of a text's last bytes, fewer than 64.
    #[inline(never)]
    fn of_last(rest: &[u8], base: usize) -> Marks
        requires { length rest.now < 64 }
        ensures base { result.base ≡ base }
        ensures bits { (k : ℕ) → k < 64 → is_set result.bits k ≡ is_mark rest.now 0 k }
        ensures feeds { (k : ℕ) → k < 64 → is_set result.feeds k ≡ is_feed rest.now k }
    {
        // A space is plain.
        let mut block = [b' '; 64];
        block[..rest.len()].copy_from_slice(rest);
        Marks::of(&block, base)
    }

    /// Those of the text from this byte on.
    #[inline(always)]
    pub fn at(text: &[u8], from: usize) -> Marks
        requires { from ≤ length text.now }
        ensures base { result.base ≡ from }
        ensures marks { HasMarks text.now from result }
    {
        let rest = &text[from..];
        if rest.len() >= 64 {
            Marks::of(rest, from)
        } else {
            Marks::of_last(rest, from)
        }
    }

    /// The same, where bytes are passed that were looked at in another way: apart, so that what passes them stays small.
    #[inline(never)]
    pub fn anew(text: &[u8], from: usize) -> Marks
        requires { from ≤ length text.now }
        ensures base { result.base ≡ from }
        ensures marks { HasMarks text.now from result }
    {
        Marks::at(text, from)
    }

    /// Goes on to the next 64 bytes, if none of these is left that is not plain, and the text has more: whether it does.
    #[inline(always)]
    pub fn advance(&mut self, text: &[u8]) -> bool
        requires { self.old.base ≤ length text.now }
        ensures marks { Advances text.now self.old result self.new }
        ensures base { result ≡ true
            → (self.new.base ≡ self.old.base + 64) × (self.new.base ≤ length text.now) }
    {
        if self.bits != 0 || text.len() - self.base <= 64 {
            return false;
        }
        *self = Marks::at(text, self.base + 64);
        true
    }

    /// The next byte that is not plain, or the text's end. It is passed.
    #[inline(always)]
    pub fn next(&mut self, text: &[u8]) -> usize
        requires { self.old.base ≤ length text.now }
        ensures { (from : ℕ)
            → HasMarks text.now from self.old → FindsNext text.now from result self.new }
    {
        'blocks: while self.advance(text) {}
        if self.bits == 0 {
            return text.len();
        }
        let place = self.base + self.bits.trailing_zeros() as usize;
        self.bits &= self.bits - 1;
        place
    }

    /// Passes LF of the 64 bytes, up to the last before any other byte that is not plain: the byte after it, and how many they are, if some
    /// are passed.
    #[inline(always)]
    pub fn pass_feeds(&mut self) -> Option<(usize, u32)>
        requires { self.old.base + 64 < 2 ^ 64 }
        ensures { (text : List ℕ) (from : ℕ)
            → HasMarks text from self.old → PassesFeeds text from self.old result self.new }
    {
        let others = self.bits & !self.feeds;
        // The LF below the lowest of the others, or each LF, if there is no other.
        let passed = self.bits & self.feeds & others.wrapping_sub(1);
        if passed == 0 {
            return None;
        }
        self.bits ^= passed;
        let end = self.base + (64 - passed.leading_zeros() as usize);
        Some((end, passed.count_ones()))
    }

    /// The byte at this place, which was passed last, is not passed.
    #[inline(always)]
    pub fn keep(&mut self, place: usize)
        requires base { self.old.base ≤ place }
        requires reach { place < self.old.base + 64 }
        ensures { (text : List ℕ) → IsSpecial text place
            → HasMarks text (place + 1) self.old → HasMarks text place self.new }
    {
        self.bits |= 1 << (place - self.base);
    }

    /// Passes the bytes up to this one.
    #[inline(always)]
    pub fn pass(&mut self, text: &[u8], to: usize)
        requires base { self.old.base ≤ to }
        requires within { to ≤ length text.now }
        ensures { (from : ℕ)
            → HasMarks text.now from self.old → from ≤ to → HasMarks text.now to self.new }
    {
        if to - self.base < 64 {
            self.bits &= !0 << (to - self.base);
        } else {
            *self = Marks::anew(text, to);
        }
    }
}
