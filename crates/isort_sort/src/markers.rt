//! Where import statements may begin in a text, and where `isort:` stands.
ghost use Rattle.std.specs.Prelude.{◌≡◌, ◌≤◌, ℕ, IsTrue, List, length};
ghost use Rattle.py_imports.specs.FirstWords.{NoImportBegins};
ghost use Rattle.py_lines.specs.Lines.{line_in};
ghost use Rattle.isort_sort.specs.Private.Actions.{IsSilent};
ghost use Rattle.isort_sort.specs.Private.Markers.{IsFree, IsSilentBetween, HoldsLineAt};

use memchr::memmem;
use py_imports::FirstWords;
use py_lines::Unit;
use std::marker::Model;

/// The first byte, from `start` on, at which `isort:` begins, or the text's end.
fn next_action(text: &[u8], start: usize) -> usize
    requires { start ≤ length text.now }
    ensures { IsSilentBetween text.now start result }
{
    match memmem::find(&text[start..], b"isort:") {
        Some(len) => start + len,
        None => text.len(),
    }
}

/// The bytes of a text from `start` up to `stop`, at none of which `isort:` begins.
#[derive(Clone, Copy)]
struct Silence {
    /// The first of them.
    start: usize,
    /// The byte after them.
    stop: usize,
}

/// A silence that holds byte `start`, or ends there. The text is searched only where the known one is no such silence.
#[inline(always)]
fn silence_at(text: &[u8], known: Silence, start: usize) -> Silence
    requires within { start ≤ length text.now }
    requires known { IsSilentBetween text.now known.start known.stop }
    ensures silent { IsSilentBetween text.now result.start result.stop }
    ensures start { result.start ≤ start }
{
    if known.start <= start && start <= known.stop {
        return known;
    }
    Silence {
        start,
        stop: next_action(text, start),
    }
}

/// Where import statements may begin in a text, and where `isort:` does. The text is searched once for each, from left to right, as far
/// as is asked. Contracts see it as the text.
#[derive(Drop)]
pub(crate) struct Markers<'t> {
    /// The text.
    text: &'t [u8],
    /// Where import statements may begin.
    words: FirstWords<'t>,
    /// The bytes without `isort:` that were found last.
    silence: Silence,
}

impl<'t> Model for Markers<'t> {
    ghost Value = { List ℕ };

    ghost view = { λ m. m.text.now };

    ghost invariant = { λ m. (m.words ≡ m.text.now)
        × IsSilentBetween m.text.now m.silence.start m.silence.stop };
}

impl<'t> Markers<'t> {
    /// The markers of a text, of which nothing is known.
    pub(crate) fn new(text: &'t [u8]) -> Markers<'t>
        ensures { result ≡ text.now }
    {
        Markers {
            text,
            words: FirstWords::new(text),
            silence: Silence { start: 0, stop: 0 },
        }
    }

    /// A byte, from `start` on, before which `isort:` does not begin.
    #[inline(always)]
    fn silent_up_to(&mut self, start: usize) -> usize
        requires { start ≤ length self.old }
        ensures silent { IsSilentBetween self.old start result }
        ensures same { self.new ≡ self.old }
    {
        self.silence = silence_at(self.text, self.silence, start);
        self.silence.stop
    }

    /// A byte, from `start` on, where a line begins, before which no import statement begins.
    #[inline(always)]
    fn clear_up_to(&mut self, start: usize) -> usize
        requires { start ≤ length self.old }
        ensures none { NoImportBegins self.old start result }
        ensures same { self.new ≡ self.old }
    {
        self.words.clear_up_to(start)
    }

    /// A byte, from `start` on, where a line begins, before which neither an import statement nor `isort:` begins.
    #[inline(always)]
    pub(crate) fn free_up_to(&mut self, start: usize) -> usize
        requires { start ≤ length self.old }
        ensures free { IsFree self.old start result }
        ensures same { self.new ≡ self.old }
    {
        let clear = self.clear_up_to(start);
        clear.min(self.silent_up_to(start))
    }

    /// Whether `isort:` begins nowhere in a line of the text.
    pub(crate) fn is_silent(&mut self, unit: &Unit<'_>) -> bool
        requires { HoldsLineAt self.old (line_in unit.now) }
        ensures silent { IsTrue result → IsSilent (line_in unit.now).text }
        ensures same { self.new ≡ self.old }
    {
        let start = unit.offset as usize;
        start + unit.text.len() <= self.silent_up_to(start)
    }
}
