//! The reader inside a `Lines`: one logical line at a time, with its tokens or without, or the text's fault.

ghost use Rattle.std.specs.Prelude.{◌+◌, ◌≤◌, length};

use crate::fault::LexError;
use crate::line_ends::line_ends;
use crate::line_state::LineState;
use crate::line_tokens::{add_token, mark_len};
use crate::token::TokKind;
use crate::unit::{Line, UnitKind};
use std::alloc::AllocError;

/// A text and how far it has been read. The tokens of the line read last are kept until the next one.
#[derive(Drop)]
pub struct Source<'t> {
    /// The text.
    pub bytes: &'t [u8],
    /// Where the next line begins.
    pub state: LineState,
    pub ghost within: { state.place ≤ length bytes.now },
    pub ghost few_lines: { state.line ≤ state.place + 1 },
}

impl<'t> Source<'t> {
    ghost use Rattle.std.specs.Prelude.{◌≡◌, OnOk};
    ghost use Rattle.py_lines.specs.Private.Source.{Advances, HasNextOf, HasTokens, IsLine, IsOutlineNext, ReadsNextLine, outline_in};
    ghost use Rattle.py_lines.specs.Private.Source.{reader_of};

    /// The next line, up to where the scan has stopped after it, with so many bytes of line end.
    #[inline(always)]
    fn line(&self, end_len: usize) -> Line<'t>
        requires { HasNextOf (reader_of self.now) self.now.state.scan.stop end_len }
        ensures { IsOutlineNext (reader_of self.now) result self.now.state.scan.stop end_len }
    {
        let state = &self.state;
        let text = &self.bytes[state.place as usize..][..state.scan.stop];
        Line::of(text, state.place, state.line, end_len)
    }

    /// Passes the next line, if there is one, without its tokens.
    pub fn pass_line(&mut self) -> Result<Option<Line<'t>>, LexError>
        ensures { ReadsNextLine (reader_of self.old) result (reader_of self.new) }
    {
        if let Some(fault) = self.state.fault {
            return Err(LexError::Fault(fault));
        }
        let place = self.state.place as usize;
        if place == self.bytes.len() {
            return Ok(None);
        }
        let end_len = self.state.scan_line(&self.bytes[place..])?;
        let line = self.line(end_len);
        let after = line.line + line_ends(line.text.as_bytes());
        self.state.pass(line.text.len(), after);
        Ok(Some(line))
    }

    /// Reads the tokens of a line.
    pub fn read_tokens(&mut self, line: &Line<'_>) -> Result<(), AllocError>
        requires { IsLine (outline_in line.now) }
        ensures same { reader_of self.new ≡ reader_of self.old }
        ensures tokens { OnOk result (HasTokens line.now self.new.state.tokens.items) }
    {
        let text = line.text.as_bytes();
        let state = &mut self.state;
        if let UnitKind::Comment = line.kind {
            // It ends where the line does, and is not looked at again.
            let start = mark_len(text) + line.indent;
            let len = text.len() - line.end_len - start;
            state.tokens.clear();
            return add_token(&mut state.tokens, TokKind::Remark, start, len, line.line);
        }
        state.read_line(text, line.end_len, line.line)?;
        Ok(())
    }

    /// Reads the next line with its tokens, and passes it, if there is one.
    pub fn advance(&mut self) -> Result<Option<Line<'t>>, LexError>
        ensures { Advances (reader_of self.old) result (reader_of self.new) self.new.state.tokens.items }
    {
        if let Some(fault) = self.state.fault {
            return Err(LexError::Fault(fault));
        }
        let place = self.state.place as usize;
        if place == self.bytes.len() {
            return Ok(None);
        }
        let (end_len, after) = self.state.read_next(&self.bytes[place..])?;
        let line = self.line(end_len);
        self.state.pass(line.text.len(), after);
        Ok(Some(line))
    }
}
