//! Where a reader of logical lines stands. `Lines` and `Scanner` have it in common.

ghost use Rattle.py_lines.specs.Private.LineScan.{first_open};
ghost use Rattle.py_lines.specs.Private.LineState.{first_mode};
ghost use Rattle.std.specs.Prelude.{◌≡◌, ◌+◌, ◌<◌, ◌≤◌, ◌^◌, length, take, IfOk, OnOk};
ghost use Rattle.std.specs.Option.{IfSome};

use crate::fault::{Fault, LexError};
use crate::line_ends::line_ends;
use crate::line_tokens::{mark_len, read_piece};
use crate::mode::Mode;
use crate::scan::{LineFault, Scan, Stop};
use crate::simple_line::read_simple_line;
use crate::token::Token;
use std::alloc::{AllocError, Global};

/// What is open where a line begins at this byte: a mark may stand at the text's start.
fn first_mode(place: u64) -> Mode
    ensures { result ≡ first_open (first_mode place) }
{
    if place == 0 { Mode::Start } else { Mode::Free }
}

/// Where the next line begins, what the scan knows of that line, and the text's fault once it was met.
#[derive(Drop)]
pub struct LineState {
    /// The byte up to which lines were read.
    pub place: u64,
    /// Its line, from 1.
    pub line: u64,
    /// The text's fault, once it was met.
    pub fault: Option<Fault>,
    /// The scan of the next line, or of the one that was read last.
    pub scan: Scan,
    /// The tokens of the line that was read last.
    pub tokens: Vec<Token>,
}

impl LineState {
    ghost use Rattle.py_lines.specs.Private.LineState.{BeginsAnew, BeginsAt, GivesNext, HoldsTokens, IsLineAfter, IsLineText, KeepsFault, ReadsLine, ScansLine};
    ghost use Rattle.py_lines.specs.Private.LineState.{first_mode, passed, reread};

    /// At this byte of a text, which is on this line. Nothing of the next line is read.
    pub fn at(alloc: Global, place: u64, line: u64) -> LineState
        ensures { BeginsAt place line result }
    {
        LineState {
            place,
            line,
            fault: None,
            scan: Scan::new(first_mode(place)),
            tokens: Vec::new(alloc),
        }
    }

    /// Lines of so many bytes were read: the next one begins on this line.
    #[inline(always)]
    pub fn pass(&mut self, len: usize, line: u64)
        requires { self.old.place + len < 2 ^ 64 }
        ensures { self.new ≡ passed self.old len line }
    {
        self.place += len as u64;
        self.line = line;
    }

    /// Begins the scan of the next line anew.
    pub fn restart(&mut self)
        ensures { BeginsAnew self.old self.new }
    {
        self.scan.restart(first_mode(self.place));
    }

    /// Reads the line with which the bytes begin, with its tokens, if it is simple and no text's first: how many bytes its line end has, and
    /// the line after it. `None` promises nothing of it.
    pub fn read_simple(&mut self, bytes: &[u8]) -> Result<Option<(usize, u64)>, AllocError>
        requires { self.old.line + length bytes.now < 2 ^ 64 }
        ensures same { self.new ≡ reread self.old self.new }
        ensures reads { IfOk result (λ r. IfSome r (λ read. ReadsLine self.old bytes.now read.0 read.1 self.new)) }
    {
        if self.place == 0 {
            return Ok(None);
        }
        let scan = &mut self.scan;
        scan.restart(Mode::Free);
        read_simple_line(scan, &mut self.tokens, bytes, self.line)
    }

    /// Scans the line with which the last bytes of a text begin, up to its end or the text's: how many bytes its line end has. The error is the
    /// text's fault.
    pub fn scan_line(&mut self, bytes: &[u8]) -> Result<usize, LexError>
        requires some { 0 < length bytes.now }
        requires places { self.old.place + length bytes.now < 2 ^ 64 }
        requires lines { self.old.line + length bytes.now < 2 ^ 64 }
        ensures { ScansLine self.old bytes.now result self.new }
    {
        let scan = &mut self.scan;
        scan.restart(first_mode(self.place));
        let scanned = match scan.extend(bytes) {
            Stop::LineEnd(len) => Ok(len),
            Stop::TextEnd => {
                let stop = scan.stop;
                scan.end(&bytes[stop..])
            }
            Stop::Wrong(line_fault) => Err(line_fault),
        };
        match scanned {
            Ok(end_len) => Ok(end_len),
            Err(line_fault) => Err(self.fail(line_fault, bytes)),
        }
    }

    /// Reads the line with which the last bytes of a text begin, with its tokens: how many bytes its line end has, and the line after it. The
    /// scan stops after it. The error is the text's fault, or there was no memory for the tokens.
    pub fn read_next(&mut self, bytes: &[u8]) -> Result<(usize, u64), LexError>
        requires some { 0 < length bytes.now }
        requires places { self.old.place + length bytes.now < 2 ^ 64 }
        requires lines { self.old.line + length bytes.now < 2 ^ 64 }
        ensures { GivesNext self.old bytes.now result self.new }
    {
        if let Some(read) = self.read_simple(bytes)? {
            return Ok(read);
        }
        let end_len = self.scan_line(bytes)?;
        let stop = self.scan.stop;
        let after = self.read_line(&bytes[..stop], end_len, self.line)?;
        Ok((end_len, after))
    }

    /// Reads the tokens of a whole logical line without fault, which has this text and begins on this line: the line after it. Its last
    /// `end_len` bytes are its line end. The scan is lent for its strings, and stops where it did. Without memory nothing is said of that, and
    /// of the tokens that are held.
    pub fn read_line(&mut self, text: &[u8], end_len: usize, line: u64) -> Result<u64, AllocError>
        requires text { IsLineText text.now end_len }
        requires lines { line + length text.now < 2 ^ 64 }
        ensures same { self.new ≡ reread self.old self.new }
        ensures stop { OnOk result (self.new.scan.stop ≡ self.old.scan.stop) }
        ensures tokens { OnOk result (HoldsTokens text.now end_len line self.new.tokens.items) }
        ensures after { IfOk result (IsLineAfter line text.now end_len) }
    {
        let LineState { scan, tokens, .. } = self;
        let stop = scan.stop;
        tokens.clear();
        let mut start = mark_len(text);
        let mut line_here = line;
        let content_len = text.len() - end_len;
        'pieces: while start < content_len {
            let (piece, line_ends) = read_piece(tokens, scan, text, start, line_here)?;
            line_here += line_ends;
            start += piece;
        }
        scan.stop = stop;
        Ok(line_here + (end_len > 0) as u64)
    }

    /// The text has this fault, from now on. It stands so far from the start of these bytes, with which the next line begins.
    pub fn fail(&mut self, line_fault: LineFault, bytes: &[u8]) -> LexError
        requires within { line_fault.place ≤ length bytes.now }
        requires bytes { self.old.place + line_fault.place < 2 ^ 64 }
        requires lines { self.old.line + line_fault.place < 2 ^ 64 }
        ensures { KeepsFault self.old line_fault.kind line_fault.place (take line_fault.place bytes.now) result self.new }
    {
        let before = &bytes[..line_fault.place];
        let fault = Fault {
            kind: line_fault.kind,
            offset: self.place + before.len() as u64,
            line: self.line + line_ends(before),
        };
        self.fault = Some(fault);
        LexError::Fault(fault)
    }
}
