//! The scan of logical lines: where each of them ends.

ghost use Rattle.std.specs.Prelude.{◌≡◌, ◌+◌, ◌-◌, ◌<◌, ◌^◌, true, length, take};
ghost use Rattle.py_lines.specs.Private.TakenPieces.{BeginWithLines, BeginWithPiece, BeginWithString, Free, IsOperatorEnd, IsWordStart, Piece};
ghost use Rattle.py_lines.specs.Private.TakenPieces.{ReachedInSomeLine, ScansIn, TakesItems, TakesPieces, WhereverReached, byte_len};
ghost use Rattle.py_lines.specs.Private.TakenPieces.{is_in_code, line_ends, opened_at, string};

use crate::class::Class;
use crate::line_ends::line_ends_up_to;
use crate::mode::Mode;
use crate::passing::{Passing, Special};
use crate::run::is_ascii_word;
use crate::scan::{Progress, Scan, Stop};

/// How many plain bytes there are up to the last operator, and with it. It stands apart, so that what calls it stays fast.
#[inline(never)]
pub fn last_operator_end(plain: &[u8]) -> usize
    ensures { IsOperatorEnd plain.now result }
{
    let mut end = plain.len();
    while end > 0 && !matches!(Class::of(plain[end - 1]), Class::Operator) {
        end -= 1;
    }
    end
}

/// Where the word begins that the bytes end with; their end, if they end with none.
#[inline(always)]
pub fn word_start(plain: &[u8]) -> usize
    ensures { IsWordStart plain.now result }
{
    let mut start = plain.len();
    while start > 0 && is_ascii_word(plain[start - 1]) {
        start -= 1;
    }
    start
}

impl Scan {
    /// Takes pieces of code that the bytes hold whole, as long as they follow one another: how many bytes the line end has, if they end
    /// the line.
    #[inline(always)]
    fn take_pieces(&mut self, bytes: &[u8]) -> Option<usize>
        requires code { is_in_code self.old ≡ true }
        requires bytes { self.old.stop + length bytes.now < 2 ^ 64 }
        ensures { TakesPieces bytes.now self.old result self.new }
    {
        let mut passing = Passing::new(bytes);
        let mut at = passing.marks.next(bytes);
        'specials: while at < bytes.len() {
            let frames = &mut self.frames;
            match passing.pass(frames, bytes, at, self.stop + at) {
                Special::Passed if frames.is_empty() => at = passing.marks.next(bytes),
                Special::Passed => at = passing.next(frames, bytes),
                Special::LineEnd(len) => {
                    self.pass(passing.all);
                    return Some(len);
                }
                Special::Unpassed => break,
            }
        }
        // Before a byte that isn't plain, all but a word is finished.
        let plain = &bytes[passing.all..at];
        let finished = if at < bytes.len() {
            word_start(plain)
        } else {
            last_operator_end(plain)
        };
        self.pass(passing.all + finished);
        None
    }

    /// Takes items, up to where code goes on outside fields, or to where the scan stops.
    #[inline(never)]
    fn take_items(&mut self, bytes: &[u8]) -> Option<Stop>
        requires way { ReachedInSomeLine self.old bytes.now }
        requires bytes { self.old.stop + length bytes.now < 2 ^ 64 }
        ensures { TakesItems bytes.now self.old result self.new }
    {
        let mut rest = bytes;
        'items: while !rest.is_empty() {
            match self.step(rest) {
                Progress::Going(len) => rest = self.hold(&rest[len..]),
                Progress::LineEnded(len) => return Some(Stop::LineEnd(len)),
                Progress::Waits => return Some(Stop::TextEnd),
                Progress::Wrong(line_fault) => return Some(Stop::Wrong(line_fault)),
            }
            if self.is_in_code() {
                return None;
            }
        }
        Some(Stop::TextEnd)
    }

    /// Takes what goes on in the line, up to its end, to bytes that don't tell what they are, or to what is wrong.
    pub fn extend(&mut self, bytes: &[u8]) -> Stop
        requires way { ReachedInSomeLine self.old bytes.now }
        requires bytes { self.old.stop + length bytes.now < 2 ^ 64 }
        ensures stops { WhereverReached self.old bytes.now
            (λ m whole. ScansIn m whole self.new result) }
    {
        let start = self.stop;
        'pieces: loop {
            if self.is_in_code() {
                if let Some(len) = self.take_pieces(&bytes[self.stop - start..]) {
                    return Stop::LineEnd(len);
                }
            }
            if let Some(stop) = self.take_items(&bytes[self.stop - start..]) {
                return stop;
            }
        }
    }

    /// Passes over logical lines that the bytes begin with, each of them whole and with nothing wrong in it, and answers how many bytes they
    /// have, and how many line ends these hold. No line is open before the bytes. The scan is lent for them. That each such line is passed
    /// over is not promised.
    pub fn pass_lines(&mut self, bytes: &[u8]) -> (usize, u64)
        ensures lines { BeginWithLines bytes.now result.0 }
        ensures ends { result.1 ≡ line_ends (take result.0 bytes.now) }
    {
        let mut passing = Passing::new(bytes);
        self.restart(Mode::Free);
        let mut at = passing.next(&self.frames, bytes);
        'specials: while at < bytes.len() {
            let start = passing.lines;
            match passing.pass(&mut self.frames, bytes, at, at - start) {
                Special::Passed | Special::LineEnd(_) => {}
                Special::Unpassed => {
                    let from = passing.all + word_start(&bytes[passing.all..at]);
                    self.stop = 0;
                    self.pass(from - start);
                    match self.take_items(&bytes[from..]) {
                        None => passing.pass_to(bytes, start + self.stop),
                        Some(Stop::LineEnd(_)) => {
                            passing.pass_to(bytes, start + self.stop);
                            passing.lines = passing.all;
                            self.frames.clear();
                        }
                        Some(_) => break,
                    }
                }
            }
            at = passing.next(&self.frames, bytes);
        }
        // Those of the last line, which is not whole, were counted too.
        let last = line_ends_up_to(&bytes[passing.lines..], passing.all - passing.lines);
        (passing.lines, passing.ends - last)
    }

    /// Takes the string that the bytes begin with, at the start of a line.
    pub fn take_first(&mut self, bytes: &[u8])
        requires start { self.old ≡ opened_at Free }
        requires string { BeginWithString bytes.now }
        requires bytes { length bytes.now < 2 ^ 63 }
        ensures { (p : Piece) → p.class ≡ string → BeginWithPiece bytes.now p
            → self.new.stop ≡ byte_len p.text }
    {
        let mut rest = bytes;
        'items: loop {
            let Progress::Going(len) = self.step(rest) else {
                // An empty string, after which nothing comes.
                self.pass(rest.len());
                return;
            };
            // After the string no piece is open.
            if self.is_in_code() {
                return;
            }
            rest = self.hold(&rest[len..]);
        }
    }
}
