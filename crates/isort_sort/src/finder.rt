//! Finding the blocks of a text, line by line.
ghost use Rattle.std.specs.Prelude.{◌≡◌, ◌+◌, ◌<◌, ◌≤◌, ◌^◌, [], None, MatchOption, is_some, map, option_map};
ghost use Rattle.std.specs.Prelude.{string_bytes, IfOk, OnOk};
ghost use Rattle.isort_sort.specs.Private.Found.{after_blank, after_comments, after_member, after_other};
ghost use Rattle.isort_sort.specs.Private.Found.{before_value, begun_with, closed_before, closed_found, closed_block};
ghost use Rattle.isort_sort.specs.Private.Found.{found_value, open_value, with_blank, with_comments, with_member, IsFurther};
ghost use Rattle.isort_sort.specs.Private.LineRole.{before_of};
ghost use Rattle.isort_sort.specs.Private.Values.{member_value};

use crate::member::Member;
use crate::row::BlankLines;
use py_lines::Unit;
use std::alloc::{AllocError, Global};
use std::marker::Model;
use std::mem;

/// Where a line ends.
#[derive(Clone, Copy)]
pub(crate) struct LineStop {
    /// The byte after it.
    pub(crate) stop: usize,
    /// Whether it has a line end.
    pub(crate) ended: bool,
}

impl LineStop {
    ghost use Rattle.py_lines.specs.Lines.{line_in};
    ghost use Rattle.isort_sort.specs.Private.Reading.{stop_of};
    ghost use Rattle.std.specs.Prelude.{nat_lt};
    ghost use Rattle.std.specs.Str.{IsUtf8};

    /// Where a line of the text ends. The line is UTF-8.
    pub(crate) fn of(unit: &Unit<'_>) -> LineStop
        ensures stop { result.stop ≡ stop_of (line_in unit.now) }
        ensures ended { result.ended ≡ nat_lt 0 (line_in unit.now).end_len }
        ensures utf8 { IsUtf8 (line_in unit.now).text }
    {
        LineStop {
            stop: unit.offset as usize + unit.text.len(),
            ended: unit.end_len > 0,
        }
    }
}

/// A block of a text, with what its layout needs.
#[derive(Drop)]
pub(crate) struct FoundBlock {
    /// The byte at which its span begins.
    pub(crate) start: usize,
    /// The byte after its span.
    pub(crate) stop: usize,
    /// The indentation of its members.
    pub(crate) indentation: String,
    /// Its members, in source order.
    pub(crate) members: Vec<Member>,
    /// Whether its last line has a line end.
    pub(crate) ended: bool,
    /// How many of the blank lines after it have a line end.
    pub(crate) blanks: usize,
    /// What the line after these asks of the blank lines before it; none at the text's end.
    pub(crate) next: Option<BlankLines>,
}

/// A block that may go on.
#[derive(Drop)]
struct OpenBlock {
    /// The block up to its last member.
    block: FoundBlock,
    /// The comments after its last member.
    above: Vec<String>,
    /// Whether a line with comments stands after its last member.
    commented: bool,
}

impl OpenBlock {
    /// A block that begins with this member.
    fn begin(
        alloc: Global,
        start: usize,
        line: LineStop,
        indentation: &str,
        member: Member,
    ) -> Result<OpenBlock, AllocError>
        ensures { IfOk result (λ o. open_value o
            ≡ begun_with start line.stop line.ended indentation.now (member_value member)) }
    {
        let mut members = Vec::new(alloc);
        members.push(member)?;
        Ok(OpenBlock {
            block: FoundBlock {
                start,
                stop: line.stop,
                indentation: String::from_str(alloc, indentation)?,
                members,
                ended: line.ended,
                blanks: 0,
                next: None,
            },
            above: Vec::new(alloc),
            commented: false,
        })
    }

    /// Takes in a member, with the comments before it. No blank line is counted after it, also where memory runs out.
    fn push_member(
        &mut self,
        alloc: Global,
        line: LineStop,
        mut member: Member,
    ) -> Result<(), AllocError>
        ensures value { OnOk result (open_value self.new
            ≡ with_member line.stop line.ended (member_value member) (open_value self.old)) }
        ensures blanks { self.new.block.blanks ≡ 0 }
    {
        self.block.blanks = 0;
        member.above = mem::replace(&mut self.above, Vec::new(alloc));
        self.block.members.push(member)?;
        self.block.stop = line.stop;
        self.block.ended = line.ended;
        self.commented = false;
        Ok(())
    }

    /// Takes in a line without tokens.
    fn push_blank(&mut self, line: LineStop)
        requires { self.old.block.blanks + 1 < 2 ^ 64 }
        ensures { open_value self.new ≡ with_blank line.stop line.ended (open_value self.old) }
    {
        if self.commented {
            return;
        }
        self.block.stop = line.stop;
        if line.ended {
            self.block.blanks += 1;
        }
    }

    /// Takes in comments.
    fn push_comments(&mut self, mut comments: Vec<String>) -> Result<(), AllocError>
        ensures value { OnOk result (open_value self.new
            ≡ with_comments (map string_bytes comments.items) (open_value self.old)) }
        ensures blanks { self.new.block.blanks ≡ self.old.block.blanks }
    {
        self.above.append(&mut comments)?;
        self.commented = true;
        Ok(())
    }

    /// The block, which ends before a line that asks for these blank lines, or at the text's end.
    fn close(self, next: Option<BlankLines>) -> FoundBlock
        ensures { found_value result ≡ closed_block (before_value next) (open_value self) }
    {
        let mut block = self.block;
        block.next = if self.commented {
            Some(BlankLines::AsMany)
        } else {
            next
        };
        block
    }
}

/// Finds the blocks of a text whose lines are handed in one after another. Contracts see it as a `Finding`.
#[derive(Drop)]
pub(crate) struct BlockFinder {
    /// The blocks that were found, in source order.
    found: Vec<FoundBlock>,
    /// The block that may go on.
    opened: Option<OpenBlock>,
    /// The byte after the last line.
    place: usize,
}

impl Model for BlockFinder {
    ghost use Rattle.std.specs.Prelude.{◌≤◌, MatchOption, map, option_map};
    ghost use Rattle.isort_sort.specs.Private.Found.{Finding, found_value, open_value};

    ghost Value = { Finding };

    ghost view = { λ f. record {
      found = map found_value f.found.items;
      opened = option_map open_value f.opened;
      place = f.place;
    } };

    ghost invariant = { λ f. MatchOption f.opened (Unit {0}) (λ o. o.block.blanks ≤ f.place) };
}

impl BlockFinder {
    /// A finder for lines the first of which begins at this byte.
    pub(crate) fn new(alloc: Global, start: usize) -> BlockFinder
        ensures { result ≡ record { found = []; opened = None; place = start } }
    {
        BlockFinder {
            found: Vec::new(alloc),
            opened: None,
            place: start,
        }
    }

    /// Whether a block may go on.
    pub(crate) fn is_open(&self) -> bool
        ensures { result ≡ is_some self.now.opened }
    {
        self.opened.is_some()
    }

    /// Takes in the lines up to this byte, whatever they are, where no block may go on.
    pub(crate) fn pass(&mut self, stop: usize)
        requires { self.old.opened ≡ None }
        ensures { self.new ≡ record self.old { place = stop } }
    {
        self.place = stop;
    }

    /// Takes in a line without tokens.
    pub(crate) fn push_blank(&mut self, line: LineStop)
        requires { IsFurther line.stop self.old }
        ensures { self.new ≡ after_blank line.stop line.ended self.old }
    {
        if let Some(open) = &mut self.opened {
            open.push_blank(line);
        }
        self.place = line.stop;
    }

    /// Takes in a line with comments alone; they are asked for only where a block may go on.
    pub(crate) fn push_comments(
        &mut self,
        line: LineStop,
        comments: Vec<String>,
    ) -> Result<(), AllocError>
        requires { IsFurther line.stop self.old }
        ensures { OnOk result (self.new
            ≡ after_comments line.stop (map string_bytes comments.items) self.old) }
    {
        if let Some(open) = &mut self.opened {
            open.push_comments(comments)?;
        }
        self.place = line.stop;
        Ok(())
    }

    /// Takes in a member.
    pub(crate) fn push_member(
        &mut self,
        alloc: Global,
        line: LineStop,
        indentation: &str,
        member: Member,
    ) -> Result<(), AllocError>
        ensures { OnOk result (self.new
            ≡ after_member line.stop line.ended indentation.now (member_value member) self.old) }
    {
        match &mut self.opened {
            Some(open) if open.block.indentation.as_str() == indentation => {
                open.push_member(alloc, line, member)?
            }
            _ => {
                self.close(Some(BlankLines::One))?;
                let open = OpenBlock::begin(alloc, self.place, line, indentation, member)?;
                self.opened = Some(open);
            }
        }
        self.place = line.stop;
        Ok(())
    }

    /// Takes in a line that no block takes in.
    pub(crate) fn push_other(&mut self, line: LineStop, next: BlankLines) -> Result<(), AllocError>
        ensures { OnOk result (self.new ≡ after_other line.stop (before_of next) self.old) }
    {
        self.close(Some(next))?;
        self.place = line.stop;
        Ok(())
    }

    /// All blocks of the lines.
    pub(crate) fn finish(mut self) -> Result<Vec<FoundBlock>, AllocError>
        ensures { IfOk result (λ found. map found_value found.items ≡ closed_found None self) }
    {
        self.close(None)?;
        Ok(self.found)
    }

    /// Puts the block that may go on, if there is one, among those found: it ends before such a line.
    fn close(&mut self, next: Option<BlankLines>) -> Result<(), AllocError>
        ensures { OnOk result (self.new ≡ closed_before (before_value next) self.old) }
    {
        if let Some(open) = self.opened.take() {
            self.found.push(open.close(next))?;
        }
        Ok(())
    }
}
