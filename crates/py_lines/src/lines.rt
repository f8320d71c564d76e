//! The logical lines of a whole text, one after another.
ghost use Rattle.std.specs.Prelude.{◌≡◌, [], IfOk, IfErr};
ghost use Rattle.std.specs.Borrow.{sem};
ghost use Rattle.py_lines.specs.Reader.{Reader, GoesOnAt, HasGiven, at_start};
ghost use Rattle.py_lines.specs.Reader.View.{reader_of};

use crate::fault::LexError;
use crate::line_state::LineState;
use crate::source::Source;
use crate::unit::{Line, Unit};
use std::alloc::Global;
use std::marker::Model;

/// Reads a text into its logical lines (Python Language Reference, 2.1), one at a time. Contracts see it as a
/// [`Reader`]: the text, the byte and line that were reached, and the text's fault once it was met.
#[derive(Drop)]
pub struct Lines<'t> {
    /// The text, and how far it was read.
    source: Source<'t>,
}

impl<'t> Model for Lines<'t> {
    ghost Value = { Reader };

    ghost view = { λ l. reader_of l.source };
}

impl<'t> Lines<'t> {
    ghost use Rattle.py_lines.specs.Lines.{IsLine, LeavesNext, LeavesTokens, PassesUpTo, ReadsNextLine, outline_in};

    /// A reader at the start of a text, which is any bytes. The only error is `Memory`, and then there is no reader.
    pub fn new(alloc: Global, text: &'t [u8]) -> Result<Lines<'t>, LexError>
        ensures start { IfOk result (λ l. l ≡ at_start text.now) }
        ensures given { IfOk result (λ l. HasGiven l []) }
        ensures memory { IfErr result (λ e. e ≡ LexError.Memory) }
    {
        Lines::at(alloc, text, 0, 1)
    }

    /// A reader that goes on in a text where an earlier one stopped: at byte `offset` from the text's start, which is on
    /// line `line`, from 1. The only error is `Memory`, and then there is no reader.
    ///
    /// A byte order mark is part of a line at the text's start alone. Where no logical line ends at `offset`, or `line` is
    /// another line, the reader is safe, and nothing else is promised of its lines.
    pub fn at(
        alloc: Global,
        text: &'t [u8],
        offset: usize,
        line: u64,
    ) -> Result<Lines<'t>, LexError>
        ensures goes_on { IfOk result (GoesOnAt text.now offset line) }
        ensures text { IfOk result (λ l. l.text ≡ text.now) }
        ensures memory { IfErr result (λ e. e ≡ LexError.Memory) }
    {
        // So many lines stand before it at most.
        let place = offset.min(text.len()) as u64;
        let state = LineState::at(alloc, place, line.min(place + 1));
        let source = Source { bytes: text, state };
        Ok(Lines { source })
    }

    /// The byte up to which logical lines were given, from the text's start.
    pub fn offset(&self) -> u64
        ensures { result ≡ self.now.place }
    {
        self.source.state.place
    }

    /// The line of that byte, from 1.
    pub fn line(&self) -> u64
        ensures { result ≡ self.now.line }
    {
        self.source.state.line
    }

    /// The next logical line (2.1.1), lent out of the text and this reader; `None` after the last one, for good.
    ///
    /// The error is `Fault` where the text's lexical fault stops the next line, and at each later call again. It is
    /// `Memory` where a growth was refused: the reader is as it was, and the same line comes next.
    pub fn next_unit(&mut self) -> Result<Option<Unit<'_>>, LexError>
        ensures* next { sem 𝓛 (LeavesNext self.entry result) }
    {
        let Some(line) = self.source.advance()? else {
            return Ok(None);
        };
        Ok(Some(line.unit(self.source.state.tokens.as_slice())))
    }

    /// The next logical line (2.1.1) without its tokens, lent out of the text; `None` after the last one, for good. It takes no memory.
    /// [`Lines::tokens`] reads the tokens.
    ///
    /// The error is `Fault` where the text's lexical fault stops the next line, and at each later call again.
    pub fn next_line(&mut self) -> Result<Option<Line<'t>>, LexError>
        ensures next { ReadsNextLine self.old result self.new }
    {
        self.source.pass_line()
    }

    /// A logical line that [`Lines::next_line`] gave, with its tokens, lent out of the line's text and this reader. The reader stays where
    /// it is.
    ///
    /// The error is `Memory` where a growth was refused.
    pub fn tokens(&mut self, line: Line<'t>) -> Result<Unit<'_>, LexError>
        requires line { IsLine (outline_in line) }
        ensures* tokens { sem 𝓛 (LeavesTokens self.entry line.entry result) }
    {
        self.source.read_tokens(&line)?;
        Ok(line.unit(self.source.state.tokens.as_slice()))
    }

    /// Passes over the next logical lines (2.1.1) without their tokens, one after another, and answers how many bytes they have; 0
    /// where none is passed over, and then nothing changed. It takes no memory, and is quicker than [`Lines::next_unit`].
    ///
    /// A line is passed over only where it ends at byte `before` of the text or before it, and nothing is wrong in it. That each such line is
    /// passed over is not promised.
    pub fn pass_lines(&mut self, before: usize) -> usize
        ensures passes { PassesUpTo self.old before result self.new }
    {
        let source = &mut self.source;
        let place = source.state.place as usize;
        if place >= before || before > source.bytes.len() || source.state.fault.is_some() {
            return 0;
        }
        let (len, ends) = source.state.scan.pass_lines(&source.bytes[place..before]);
        let line = source.state.line + ends;
        source.state.pass(len, line);
        len
    }
}
