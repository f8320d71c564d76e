//! The logical lines of a text that comes in pieces.
ghost use Rattle.std.specs.Prelude.{◌≡◌, ℕ, ◌+◌, ◌<◌, ◌≤◌, ◌^◌, false, None, Some, IsSome, IsTrue, List, [], length, IfOk, IfErr};
ghost use Rattle.py_lines.specs.ScannerState.{ScannerState, IsScanning, ScansFrom, begun_at, fed_of};
ghost use Rattle.py_lines.specs.ScannerState.{Feeds, FeedsNaming, Releases, PassesPieceLines, Finishes};
ghost use Rattle.py_lines.specs.ScannerState.View.{scanning_of};
ghost use Rattle.py_lines.specs.UnitLine.{line_in};
ghost use Rattle.py_lines.specs.Private.Feed.{IsSoundFeed};

use crate::fault::LexError;
use crate::feed::Feed;
use crate::line_state::LineState;
use crate::unit::{Line, Unit};
use std::alloc::Global;
use std::marker::Model;

/// Reads a text that comes in pieces into its logical lines (Python Language Reference, 2.1). It keeps the text of one
/// line and at most one byte more. Contracts see it as a [`ScannerState`]: the byte and line up to which lines were
/// released, the text fed since, the line that is ready, and the text's fault once it was met.
#[derive(Drop)]
pub struct Scanner {
    /// The text that is held, and how far it was scanned.
    feed: Feed,
}

impl Model for Scanner {
    ghost Value = { ScannerState };

    ghost view = { λ s. scanning_of s.feed };

    ghost invariant = { λ s. IsSoundFeed s.feed };
}

impl Scanner {
    /// A scanner at the start of a text. The only error is `Memory`, and then there is no scanner.
    pub fn new(alloc: Global) -> Result<Scanner, LexError>
        ensures start { IfOk result (λ s. s ≡ begun_at 0 1) }
        ensures scans { IfOk result (λ s. (text : List ℕ) → IsScanning s text []) }
        ensures memory { IfErr result (λ e. e ≡ LexError.Memory) }
    {
        Scanner::at(alloc, 0, 1)
    }

    /// A scanner of a text whose first `offset` bytes are whole logical lines, and which is fed from that byte on. That
    /// byte is on line `line`, from 1. The only error is `Memory`, and then there is no scanner.
    ///
    /// A byte order mark is part of a line at the text's start alone.
    pub fn at(alloc: Global, offset: u64, line: u64) -> Result<Scanner, LexError>
        requires offset { offset ≤ 2 ^ 62 }
        requires first { 1 ≤ line }
        requires line { line ≤ offset + 1 }
        ensures start { IfOk result (λ s. s ≡ begun_at offset line) }
        ensures scans { IfOk result (ScansFrom offset line) }
        ensures memory { IfErr result (λ e. e ≡ LexError.Memory) }
    {
        Ok(Scanner {
            feed: Feed {
                held: Vec::new(alloc),
                state: LineState::at(alloc, offset, line),
                ready: None,
                next_line: 0,
                ended: false,
            },
        })
    }

    /// Takes bytes of a piece, in order, and answers how many. It stops where a line has got ready, and takes none while
    /// one is. It takes fewer than all for no other cause, except where a growth was refused.
    ///
    /// A line is ready as soon as the bytes show that its line end is whole: CR needs one byte more, which is taken
    /// too. No other byte after the line is taken.
    ///
    /// The error is `Fault` as soon as the bytes decide it, and at each later call again. It is `Memory` where a growth was
    /// refused and so no byte was taken: the scanner is as it was.
    pub fn feed(&mut self, piece: &[u8]) -> Result<usize, LexError>
        requires fits { fed_of self.old + length piece.now ≤ 2 ^ 62 }
        requires open_yet { self.old.ended ≡ false }
        ensures feeds { Feeds self.old piece.now result self.new }
    {
        self.feed.feed(piece)
    }

    /// Takes bytes of a piece as [`Scanner::feed`] does, and answers how many. A line that gets ready and holds neither word is released at
    /// once. Words count by their bytes alone, in strings and comments too. It is quicker than [`Scanner::feed`] where most lines hold
    /// none of them, since it reads no tokens of those that it releases.
    ///
    /// The errors are those of [`Scanner::feed`].
    pub fn feed_naming(
        &mut self,
        piece: &[u8],
        word: &[u8],
        other: &[u8],
    ) -> Result<usize, LexError>
        requires fits { fed_of self.old + length piece.now ≤ 2 ^ 62 }
        requires open_yet { self.old.ended ≡ false }
        ensures feeds { FeedsNaming word.now other.now self.old piece.now result self.new }
    {
        self.feed.feed_naming(piece, word, other)
    }

    /// The line that is ready, lent out of the scanner, if one is. It isn't empty.
    pub fn ready(&self) -> Option<Unit<'_>>
        ensures some { (u : Unit) → result ≡ Some u → self.now.ready ≡ Some (line_in u) }
        ensures none { result ≡ None → self.now.ready ≡ None }
        ensures some_text { (u : Unit) → result ≡ Some u → 0 < length u.text.now }
    {
        let end_len = self.feed.ready?;
        let state = &self.feed.state;
        let text = &self.feed.held[..state.scan.stop];
        let line = Line::of(text, state.place, state.line, end_len);
        Some(line.unit(state.tokens.as_slice()))
    }

    /// Releases the line that is ready. One is.
    pub fn release(&mut self)
        requires ready { IsSome self.old.ready }
        ensures releases { Releases self.old self.new }
    {
        let line = self.feed.next_line;
        self.feed.let_go(line);
    }

    /// Passes over the next logical lines (2.1.1) without their tokens, one after another, and answers how many bytes they have. `bytes`
    /// is the text from [`Scanner::offset`] on: the byte that is held, if one is, and the piece after it. The lines are fed and released
    /// then. Where CR alone ends the last one, the byte after it is fed, too, and held. The answer is 0 where no line is passed over, and
    /// then nothing changed. It takes no memory except for that byte, and is quicker than [`Scanner::feed`].
    ///
    /// A line is passed over only where it ends at byte `before` of `bytes` or before it, and nothing is wrong in it. That each such line is
    /// passed over is not promised. None is passed over where more is held than one byte, as after CR, or once the text has ended or its
    /// fault is known.
    pub fn pass_lines(&mut self, bytes: &[u8], before: usize) -> usize
        requires fits { self.old.place + length bytes.now ≤ 2 ^ 62 }
        ensures passes { PassesPieceLines self.old bytes.now before result self.new }
    {
        let Some(held) = self.feed.held_before(bytes) else {
            return 0;
        };
        let clear = &bytes[..before.min(bytes.len())];
        let state = &mut self.feed.state;
        let (len, ends) = state.scan.pass_lines(clear);
        // The byte after CR shows that the last line is whole.
        let end = len + clear[..len].ends_with(b"\r") as usize;
        if self.feed.held.extend_from_slice(&clear[len..end]).is_err() {
            state.restart();
            return 0;
        }
        self.feed.held.drain(..held.min(len));
        let line = state.line + ends;
        state.pass(len, line);
        state.restart();
        len
    }

    /// Ends the text: what is left of it is its last line, if anything is left. No line is ready, and `finish` hasn't
    /// answered `Ok` before.
    ///
    /// The error is `Fault` where the text may not end so, and at each later call again. It is `Memory` where a growth
    /// was refused: the scanner is as it was.
    pub fn finish(&mut self) -> Result<(), LexError>
        requires released { self.old.ready ≡ None }
        requires open_yet { self.old.ended ≡ false }
        ensures finishes { Finishes self.old result self.new }
    {
        self.feed.finish()
    }

    /// The byte of the text up to which lines were released.
    pub fn offset(&self) -> u64
        ensures { result ≡ self.now.place }
    {
        self.feed.state.place
    }

    /// The line of that byte, from 1.
    pub fn line(&self) -> u64
        ensures { result ≡ self.now.line }
    {
        self.feed.state.line
    }

    /// The text fed since the line that was released last.
    pub fn held(&self) -> &[u8]
        ensures { result.now ≡ self.now.held }
    {
        self.feed.held.as_slice()
    }

    /// The byte of the text up to which it was fed.
    pub fn fed(&self) -> u64
        ensures { result ≡ fed_of self.now }
    {
        self.feed.state.place + self.feed.held.len() as u64
    }
}
