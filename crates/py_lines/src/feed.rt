//! The scanner inside a `Scanner`: the text that it holds, and the scan of the line that this text begins with.

ghost use Rattle.std.specs.Prelude.{◌≡◌, ◌<◌, false, IsTrue, length};
ghost use Rattle.py_lines.specs.ScannerState.{LacksBoth};

use crate::fault::{FaultKind, LexError};
use crate::line_ends::line_ends;
use crate::line_state::LineState;
use crate::scan::{LineFault, Stop};
use memchr::memmem;

/// Whether neither word stands in these bytes.
fn lacks_both(bytes: &[u8], word: &[u8], other: &[u8]) -> bool
    requires { 0 < length bytes.now }
    ensures yes { IsTrue result → LacksBoth word.now other.now bytes.now }
    ensures no { result ≡ false → ¬ (LacksBoth word.now other.now bytes.now) }
{
    memmem::find(bytes, word).is_none() && memmem::find(bytes, other).is_none()
}

/// The text since the line that was released last, and how far it was scanned.
#[derive(Drop)]
pub struct Feed {
    /// The bytes taken since the line that was released last.
    pub held: Vec<u8>,
    /// `held` begins at its place, and on its line.
    pub state: LineState,
    /// Where a line is ready, the bytes of its line end. The line reaches to where the scan stopped.
    pub ready: Option<usize>,
    /// Where a line is ready and its tokens were read, the line after it.
    pub next_line: u64,
    /// Whether the text has ended.
    pub ended: bool,
}

impl Feed {
    ghost use Rattle.std.specs.Prelude.{◌≡◌, ℕ, ◌+◌, ◌≤◌, ◌^◌, None, Option, length, IfSome, OnOk};
    ghost use Rattle.py_lines.specs.Private.Feed.{HasRoom, HoldsLine, HoldsSo, IsHeldOpen, IsLineAfterHeld, IsReadyAt};
    ghost use Rattle.py_lines.specs.Private.Feed.{IsSoundFeed, LetsGo, LogicalLine, Meets, ReadsTokens, ScansPiece, StandsBefore, StopsHeld, Takes};
    ghost use Rattle.py_lines.specs.Private.Feed.{TakesSo, scanning_of};
    ghost use Rattle.py_lines.specs.ScannerState.{Feeds, FeedsNaming, Finishes};

    /// How many bytes are held, if a line begins before them or after them, these bytes begin with them, and the text may go on. `None`
    /// promises nothing.
    pub fn held_before(&self, bytes: &[u8]) -> Option<usize>
        ensures { IfSome result (StandsBefore self.now bytes.now) }
    {
        let held = self.held.as_slice();
        if held.len() > 1 || self.ready.is_some() || self.ended || self.state.fault.is_some() {
            return None;
        }
        bytes.starts_with(held).then_some(held.len())
    }

    /// Reads the tokens of the line that stands in what is held, if one does. If there is no memory for them, no line is ready: so many
    /// bytes that were taken last are let go, and the scan of those before them is begun anew.
    pub fn read_tokens(&mut self, taken: usize) -> Result<(), LexError>
        requires within { taken ≤ length self.old.held.items }
        requires holds { (line : Option LogicalLine) × HoldsSo self.old self.old.ready line }
        requires no_fault { self.old.state.fault ≡ None }
        requires room { HasRoom self.old 0 }
        ensures { ReadsTokens self.old taken result self.new }
    {
        let Some(end_len) = self.ready else {
            return Ok(());
        };
        let stop = self.state.scan.stop;
        let line = self.state.line;
        match self.state.read_line(&self.held[..stop], end_len, line) {
            Ok(line) => {
                self.next_line = line;
                Ok(())
            }
            Err(error) => {
                self.held.truncate(self.held.len() - taken);
                self.ready = None;
                self.state.restart();
                Err(error.into())
            }
        }
    }

    /// Does what follows from where the scan of what is held stopped: how many bytes stay held after the first `before`. At a line's end
    /// those after it are let go, except one.
    #[inline(always)]
    fn meet(&mut self, stop: Stop, before: usize) -> Result<usize, LexError>
        requires stops { StopsHeld self.old stop }
        requires not_ready { self.old.ready ≡ None }
        requires within { before ≤ length self.old.held.items }
        requires room { HasRoom self.old 0 }
        ensures meets { Meets self.old before result self.new }
        ensures ready { OnOk result (IsReadyAt self.old stop self.new) }
    {
        let scanned = self.state.scan.stop;
        let held = &mut self.held;
        match stop {
            Stop::LineEnd(len) => {
                self.ready = Some(len);
                // After CR one byte shows that the line is whole.
                let end = scanned + (held[scanned - 1] == b'\r') as usize;
                held.truncate(end.max(before + 1));
                Ok(held.len() - before)
            }
            // An item that the bytes don't tell yet may end with a part of a character.
            Stop::TextEnd => match std::str::from_utf8(&held[scanned..]) {
                Err(error) if error.error_len().is_some() => {
                    let kind = FaultKind::BadUtf8;
                    let place = scanned + error.valid_up_to();
                    Err(self.state.fail(LineFault { kind, place }, held))
                }
                _ => Ok(held.len() - before),
            },
            Stop::Wrong(line_fault) => Err(self.state.fail(line_fault, held)),
        }
    }

    /// Holds bytes of a piece that were scanned where they stand, up to a line's end: how many. If there is no memory for them, none is
    /// held, and the scan of what was held is begun anew.
    #[inline(always)]
    fn hold(&mut self, piece: &[u8], stop: Stop) -> Result<usize, LexError>
        requires scanned { ScansPiece self.old piece.now stop }
        requires not_ready { self.old.ready ≡ None }
        requires room { HasRoom self.old (length piece.now) }
        ensures takes { Takes self.old piece.now result self.new }
        ensures ready { OnOk result (IsReadyAt self.old stop self.new) }
    {
        let before = self.held.len();
        let len = match stop {
            Stop::LineEnd(_) => piece.len().min(self.state.scan.stop + 1),
            _ => piece.len(),
        };
        if let Err(error) = self.held.extend_from_slice(&piece[..len]) {
            self.state.restart();
            return Err(error.into());
        }
        self.meet(stop, before)
    }

    /// Takes bytes of a piece, up to a line's end: how many. If there is no memory for them, none is taken.
    fn take(&mut self, piece: &[u8]) -> Result<usize, LexError>
        requires opens { IsHeldOpen self.old }
        requires not_ready { self.old.ready ≡ None }
        requires room { HasRoom self.old (length piece.now) }
        ensures { Takes self.old piece.now result self.new }
    {
        let before = self.held.len();
        let scanned = self.state.scan.stop;
        // An item is held that the bytes don't tell, or the scan was begun anew.
        if scanned < before {
            self.held.extend_from_slice(&piece[..piece.len().min(1)])?;
            let stop = self.state.scan.extend(&self.held[scanned..]);
            return self.meet(stop, before);
        }
        // Bytes are scanned where they stand.
        let stop = self.state.scan.extend(piece);
        self.hold(piece, stop)
    }

    /// Takes all bytes of a piece, up to a line's end: how many. If there is no memory for more, only the first are taken. The tokens of
    /// the line are not read.
    pub fn take_bytes(&mut self, piece: &[u8]) -> Result<usize, LexError>
        requires sound { IsSoundFeed self.old }
        requires not_ready { self.old.ready ≡ None }
        requires fits { self.old.state.place + length self.old.held.items + length piece.now
            ≤ 2 ^ 62 }
        ensures { TakesSo self.old piece.now result self.new }
    {
        if let Some(fault) = self.state.fault {
            return Err(LexError::Fault(fault));
        }
        let mut taken = self.take(piece)?;
        while taken < piece.len() && self.ready.is_none() {
            match self.take(&piece[taken..]) {
                Ok(more) => taken += more,
                Err(LexError::Fault(fault)) => return Err(LexError::Fault(fault)),
                Err(LexError::Memory) => return Ok(taken),
            }
        }
        Ok(taken)
    }

    /// Lets go the line that stands in what is held. The next one begins on this line.
    pub fn let_go(&mut self, line: u64)
        requires holds { (end_len : ℕ) × HoldsLine self.old end_len }
        requires room { HasRoom self.old 0 }
        requires after { IsLineAfterHeld self.old line }
        ensures { LetsGo self.old self.new }
    {
        let stop = self.state.scan.stop;
        self.state.pass(stop, line);
        self.ready = None;
        let held = &mut self.held;
        if stop == held.len() {
            held.clear();
        } else {
            held.drain(..stop);
        }
        self.state.restart();
    }

    /// Ends the text: what is held is its last line, which is ready then with its tokens, if anything is held.
    pub fn finish(&mut self) -> Result<(), LexError>
        requires sound { IsSoundFeed self.old }
        requires not_ready { self.old.ready ≡ None }
        ensures finishes { Finishes (scanning_of self.old) result (scanning_of self.new) }
        ensures sound { IsSoundFeed self.new }
    {
        if let Some(fault) = self.state.fault {
            return Err(LexError::Fault(fault));
        }
        if !self.held.is_empty() {
            let end_len = self.state.scan_line(&self.held)?;
            self.ready = Some(end_len);
        }
        self.read_tokens(0)?;
        self.ended = true;
        Ok(())
    }

    /// Takes bytes of a piece, up to the end of a line, which is ready then with its tokens: how many. None is taken while a line is ready.
    pub fn feed(&mut self, piece: &[u8]) -> Result<usize, LexError>
        requires sound { IsSoundFeed self.old }
        requires fits { self.old.state.place + length self.old.held.items + length piece.now
            ≤ 2 ^ 62 }
        ensures feeds { Feeds (scanning_of self.old) piece.now result (scanning_of self.new) }
        ensures sound { IsSoundFeed self.new }
    {
        let ready = self.ready;
        if ready.is_some() {
            return Ok(0);
        }
        // Most lines are simple, and begin where nothing is held.
        if self.held.is_empty() && self.state.fault.is_none() {
            if let Ok(Some((end_len, after))) = self.state.read_simple(piece) {
                let taken = self.hold(piece, Stop::LineEnd(end_len))?;
                self.next_line = after;
                return Ok(taken);
            }
            self.state.restart();
        }
        let taken = self.take_bytes(piece)?;
        self.read_tokens(taken)?;
        Ok(taken)
    }

    /// The same, and lets go a line that gets ready and holds neither word, without its tokens.
    pub fn feed_naming(
        &mut self,
        piece: &[u8],
        word: &[u8],
        other: &[u8],
    ) -> Result<usize, LexError>
        requires sound { IsSoundFeed self.old }
        requires fits { self.old.state.place + length self.old.held.items + length piece.now
            ≤ 2 ^ 62 }
        ensures feeds { FeedsNaming word.now other.now (scanning_of self.old) piece.now result (scanning_of self.new) }
        ensures sound { IsSoundFeed self.new }
    {
        let ready = self.ready;
        if ready.is_some() {
            return Ok(0);
        }
        let taken = self.take_bytes(piece)?;
        let ready = self.ready;
        if ready.is_some() {
            let text = &self.held[..self.state.scan.stop];
            if lacks_both(text, word, other) {
                let line = self.state.line + line_ends(text);
                self.let_go(line);
                return Ok(taken);
            }
        }
        self.read_tokens(taken)?;
        Ok(taken)
    }
}
