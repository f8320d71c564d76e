//! Where import statements may begin in a text.
ghost use Rattle.std.specs.Prelude.{◌≡◌, ◌+◌, ◌<◌, ◌≤◌, IsTrue, ℕ, false, List, length, slice_index};
ghost use Rattle.std.specs.Int.{bit_at};
ghost use Rattle.memchr.specs.Find.{Nowhere};
ghost use Rattle.py_lines.specs.Character.{is_space};
ghost use Rattle.py_imports.specs.FirstWords.{opens_statement, EndsAtImport, ImportMayBegin, MayBegin, NoImportBegins};
ghost use Rattle.py_imports.specs.Private.Gaps.{IsGap, WordLetters};

use std::marker::Model;
use std::simd::prelude::*;

/// Whether the byte is a space, a tab or a form feed.
#[inline(always)]
#[tactic(auto, unfolding(py_lines::specs::Character::is_space))]
fn is_space(b: u8) -> bool
    ensures { result ≡ is_space b }
{
    matches!(b, b' ' | b'\t' | b'\x0c')
}

/// Whether a statement may begin after the byte, spaces aside: a line end, `;`, `:`, or a byte that is not ASCII, as the last one of a
/// byte order mark is.
#[inline(always)]
fn opens_statement(b: u8) -> bool
    ensures { result ≡ opens_statement b }
{
    matches!(b, b'\n' | b'\r' | b';' | b':') || b >= 128
}

/// Whether a statement may begin at byte `place`, where a line begins at byte `start`: only spaces stand before it in its line, or
/// between it and a byte after which a statement may begin.
fn may_begin(text: &[u8], start: usize, place: usize) -> bool
    requires start { start ≤ place }
    requires within { place ≤ length text.now }
    ensures yes { IsTrue result → MayBegin text.now start place }
    ensures no { result ≡ false → ¬ (MayBegin text.now start place) }
{
    'spaces: for from in (start..place).rev() {
        let b = text[from];
        if !is_space(b) {
            return opens_statement(b);
        }
    }
    true
}

/// Whether an import statement may begin at byte `place`, where a line begins at byte `start`.
#[inline(always)]
fn import_may_begin(text: &[u8], start: usize, place: usize) -> bool
    requires start { start ≤ place }
    requires within { place ≤ length text.now }
    ensures yes { IsTrue result → ImportMayBegin text.now start place }
    ensures no { result ≡ false → ¬ (ImportMayBegin text.now start place) }
{
    // Most of the first letters stand in the middle of other words, which the byte before them shows at once.
    if !may_begin(text, start, place) {
        return false;
    }
    let rest = &text[place..];
    rest.starts_with(b"import") || rest.starts_with(b"from")
}

/// Whether one of the lanes is 0.
#[inline(always)]
fn holds_zero(lanes: u8x64) -> bool
    ensures { (k : ℕ) → k < 64 → slice_index lanes k ≡ 0 → IsTrue result }
{
    // The lesser of two lanes is 0 where one of them is.
    let half = lanes.extract::<0, 32>().simd_min(lanes.extract::<32, 32>());
    let quarter = half.extract::<0, 16>().simd_min(half.extract::<16, 16>());
    quarter.simd_eq(u8x16::splat(0)).any()
}

/// At which of the first 64 bytes stand the first two letters of `import` or `from`, a bit for each. More bits may be set.
#[inline(always)]
fn words64(bytes: &[u8]) -> u64
    requires { 65 ≤ length bytes.now }
    ensures { (k : ℕ) → k < 64 → WordLetters bytes.now k → bit_at result k ≡ 1 }
{
    let first = u8x64::from_slice(bytes);
    let second = u8x64::from_slice(&bytes[1..]);
    // A lane is 0 where both letters are those of the word.
    let import = (first ^ u8x64::splat(b'i')) | (second ^ u8x64::splat(b'm'));
    let from = (first ^ u8x64::splat(b'f')) | (second ^ u8x64::splat(b'r'));
    let lanes = import.simd_min(from);
    // Mostly none is 0.
    if holds_zero(lanes) {
        lanes.simd_eq(u8x64::splat(0)).to_bitmask()
    } else {
        0
    }
}

/// A byte, from `place` on, before which neither word begins. The last 64 bytes are not looked at.
#[inline(always)]
fn next_word(text: &[u8], place: usize) -> usize
    requires { place < length text.now }
    ensures none { Nowhere (WordLetters text.now) place result }
    ensures further { place ≤ result }
    ensures within { result < length text.now }
{
    let mut at = place;
    'letters: while text.len() - at > 64 {
        let words = words64(&text[at..]);
        if words != 0 {
            return at + words.trailing_zeros() as usize;
        }
        at += 64;
    }
    at
}

/// The first byte, from `start` on, where a line begins, at which an import statement may begin, or the text's end.
fn next_import(text: &[u8], start: usize) -> usize
    requires { start ≤ length text.now }
    ensures { IsGap text.now start result }
{
    let mut place = start;
    'words: while place < text.len() {
        place = next_word(text, place);
        if import_may_begin(text, start, place) {
            return place;
        }
        place += 1;
    }
    place
}

/// The bytes of a text from `start`, where a line begins, up to `stop`, at none of which an import statement begins. At `stop` one may
/// begin, or the text ends.
#[derive(Clone, Copy)]
struct Gap {
    /// The first of them.
    start: usize,
    /// The byte after them.
    stop: usize,
}

/// A gap that holds byte `start`, or ends there. The text is searched only where the known one is no such gap, or where no statement may
/// begin directly at byte `start`.
#[inline(always)]
fn gap_at(text: &[u8], known: Gap, start: usize) -> Gap
    requires start { start ≤ length text.now }
    requires known { IsGap text.now known.start known.stop }
    ensures gap { IsGap text.now result.start result.stop }
    ensures from { IsGap text.now start result.stop }
{
    if known.start <= start
        && start <= known.stop
        && (start == known.start || opens_statement(text[start - 1]))
    {
        return known;
    }
    Gap {
        start,
        stop: next_import(text, start),
    }
}

/// Where import statements may begin in a text, by its bytes alone: `import` or `from` stands there, and before it in its line stand
/// only spaces, or directly before these `;` or `:`. The text is searched once, from left to right, as far as is asked. Contracts see
/// it as the text.
#[derive(Drop)]
pub struct FirstWords<'t> {
    /// The text.
    text: &'t [u8],
    /// The gap that was found last.
    gap: Gap,
}

impl<'t> Model for FirstWords<'t> {
    ghost Value = { List ℕ };

    ghost view = { λ f. f.text.now };

    ghost invariant = { λ f. IsGap f.text.now f.gap.start f.gap.stop };
}

impl<'t> FirstWords<'t> {
    /// The first words in a text, of which nothing is known.
    pub fn new(text: &'t [u8]) -> FirstWords<'t>
        ensures { result ≡ text.now }
    {
        FirstWords {
            text,
            // It holds no byte.
            gap: Gap {
                start: text.len(),
                stop: text.len(),
            },
        }
    }

    /// The first byte, from `start` on, where a logical line begins, at which an import statement may begin by the text's bytes alone, or
    /// the text's end. Words in strings and comments count too. Where no line begins at `start`, the text is searched anew.
    #[inline(always)]
    pub fn clear_up_to(&mut self, start: usize) -> usize
        requires { start ≤ length self.old }
        ensures none { NoImportBegins self.old start result }
        ensures first { EndsAtImport self.old start result }
        ensures further { start ≤ result }
        ensures within { result ≤ length self.old }
        ensures same { self.new ≡ self.old }
    {
        self.gap = gap_at(self.text, self.gap, start);
        self.gap.stop
    }
}
