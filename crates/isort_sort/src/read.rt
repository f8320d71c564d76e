//! Reading a text that is to be sorted, and finding its blocks.
ghost use Rattle.std.specs.Prelude.{◌≡◌, ◌≤◌, ℕ, List, [], false, map};
ghost use Rattle.std.specs.Prelude.{IsTrue, IfOk, IfErr, OnOk};
ghost use Rattle.py_lines.specs.Lines.{line_in};
ghost use Rattle.py_lines.specs.LogicalLine.{LogicalLine};
ghost use Rattle.py_imports.specs.Binds.{Binds};
ghost use Rattle.py_imports.specs.BindingValue.{binding_value};
ghost use Rattle.isort_sort.specs.Answers.{IsRefused};
ghost use Rattle.isort_sort.specs.Private.Actions.{AreActions};
ghost use Rattle.isort_sort.specs.Private.Markers.{HoldsLineAt};
ghost use Rattle.isort_sort.specs.Private.Found.{IsFurther};
ghost use Rattle.isort_sort.specs.Private.Reading.{stop_of, FindsLine, IsFoundIn, IsKnown, IsReadBefore, IsReadSoFar};
ghost use Rattle.isort_sort.specs.Private.Reading.{IsWholeRead, MayPass, ReadsLine, ReadsOver};

use crate::actions::Actions;
use crate::answer::SortError;
use crate::comment::{comment_texts, own_comments};
use crate::finder::{BlockFinder, FoundBlock, LineStop};
use crate::markers::Markers;
use crate::member::Member;
use crate::row::{Role, indentation, role_of};
use crate::skip::SkipReader;
use py_imports::laws::lines_without_import_bind_nothing;
use py_imports::{Binding, bindings_of, has_first_word, mark_len};
use py_lines::{Lines, Unit};
use std::alloc::{AllocError, Global};

/// What was found in a text.
#[derive(Drop)]
pub(crate) enum FoundText {
    /// It asks to be left as it is.
    Skipped,
    /// Its blocks, in order.
    Blocks(Vec<FoundBlock>),
}

/// What is known of a text, as far as its lines were read.
#[derive(Drop)]
pub(crate) struct LineReader {
    /// Whether a line was read.
    pub(crate) begun: bool,
    /// Whether sorting is off after the lines.
    pub(crate) off: bool,
    /// Whether the text asks to be left as it is.
    pub(crate) skip: SkipReader,
    /// The blocks of the lines.
    pub(crate) blocks: BlockFinder,
}

impl LineReader {
    /// A reader of no lines.
    fn new(alloc: Global) -> LineReader
        ensures { IsReadSoFar [] result }
    {
        LineReader {
            begun: false,
            off: false,
            skip: SkipReader::new(),
            blocks: BlockFinder::new(alloc, 0),
        }
    }

    /// Reads the lines of a text, of which none was read.
    fn read(&mut self, alloc: Global, text: &[u8]) -> Result<(), SortError>
        requires { IsReadSoFar [] self.old }
        ensures ok { OnOk result (IsWholeRead text.now self.new) }
        ensures err { IfErr result (λ e. IsRefused text.now e) }
    {
        let mut markers = Markers::new(text);
        let mut lines = Lines::new(alloc, text)?;
        'lines: loop {
            self.pass_lines(&mut lines, &mut markers);
            if !self.read_line(alloc, &mut lines, &mut markers)? {
                return Ok(());
            }
        }
    }

    /// Whether no block may go on, and the string was read that the text may begin with.
    #[inline(always)]
    fn may_pass(&self) -> bool
        ensures { IsTrue result → MayPass self.now }
    {
        self.skip.begun && !self.blocks.is_open()
    }

    /// Passes over the next lines without their tokens, as long as no import statement begins in them, `isort:` stands nowhere in them,
    /// and no block may go on. Most lines are passed over so.
    #[inline(always)]
    fn pass_lines(&mut self, lines: &mut Lines<'_>, markers: &mut Markers<'_>)
        requires text { markers.old ≡ lines.old.text }
        requires known { IsKnown lines.old self.old }
        ensures known { IsKnown lines.new self.new }
        ensures same { lines.new.text ≡ lines.old.text }
        ensures further { lines.old.place ≤ lines.new.place }
        ensures markers { markers.new ≡ markers.old }
    {
        if !self.may_pass() {
            return;
        }
        lines_without_import_bind_nothing();
        let start = lines.offset() as usize;
        lines.pass_lines(markers.free_up_to(start));
        self.blocks.pass(lines.offset() as usize);
    }

    /// Reads the next line. The result is whether there is one.
    fn read_line(
        &mut self,
        alloc: Global,
        lines: &mut Lines<'_>,
        markers: &mut Markers<'_>,
    ) -> Result<bool, SortError>
        requires text { markers.old ≡ lines.old.text }
        requires known { IsKnown lines.old self.old }
        ensures reads { ReadsOver lines.old result lines.new self.new }
        ensures markers { markers.new ≡ markers.old }
    {
        let Some(line) = lines.next_line()? else {
            return Ok(false);
        };
        let unit = lines.tokens(line)?;
        if !self.pass(&unit, markers) {
            let bindings = bindings_of(alloc, &unit)?;
            self.push(alloc, &unit, Actions::of(&unit, markers), bindings)?;
        }
        Ok(true)
    }

    /// Passes over the line, where no block needs it: it has neither word `import` nor `from`, `isort:` stands nowhere in it, and no block
    /// may go on. The result is whether it was passed over.
    #[inline(always)]
    fn pass(&mut self, unit: &Unit<'_>, markers: &mut Markers<'_>) -> bool
        requires { HoldsLineAt markers.old (line_in unit.now) }
        ensures on { IsTrue result → ReadsLine (line_in unit.now) self.old self.new }
        ensures binds { IsTrue result → Binds (line_in unit.now) [] }
        ensures same { result ≡ false → self.new ≡ self.old }
        ensures markers { markers.new ≡ markers.old }
    {
        if !self.may_pass() || has_first_word(unit) || !markers.is_silent(unit) {
            return false;
        }
        let line = LineStop::of(unit);
        self.blocks.pass(line.stop);
        true
    }

    /// Reads one more line, which says these actions and binds `bindings`.
    fn push(
        &mut self,
        alloc: Global,
        unit: &Unit<'_>,
        actions: Actions,
        bindings: Vec<Binding>,
    ) -> Result<(), AllocError>
        requires actions { AreActions (line_in unit.now) actions }
        requires binds { Binds (line_in unit.now) (map binding_value bindings.items) }
        requires further { IsFurther (stop_of (line_in unit.now)) self.old.blocks }
        ensures { OnOk result (ReadsLine (line_in unit.now) self.old self.new) }
    {
        self.begin(alloc, unit);
        find_line(&mut self.blocks, alloc, unit, actions, self.off, bindings)?;
        self.off = actions.is_off_after(self.off);
        self.skip.push(unit, actions);
        Ok(())
    }

    /// Begins the text where this line is its first: its blocks stand after a byte order mark.
    fn begin(&mut self, alloc: Global, unit: &Unit<'_>)
        ensures before { (lines : List LogicalLine) → IsReadSoFar lines self.old
            → IsReadBefore lines (line_in unit.now) self.new }
        ensures further { (stop : ℕ) → IsFurther stop self.old.blocks
            → IsFurther stop self.new.blocks }
    {
        if !self.begun {
            self.begun = true;
            self.blocks = BlockFinder::new(alloc, mark_len(unit));
        }
    }

    /// What was found in the text of the lines.
    fn finish(self) -> Result<FoundText, AllocError>
        ensures { IfOk result (λ found. (text : List ℕ) → IsWholeRead text self
            → IsFoundIn text found) }
    {
        if self.skip.skips {
            return Ok(FoundText::Skipped);
        }
        Ok(FoundText::Blocks(self.blocks.finish()?))
    }
}

/// Hands a line, which says these actions and binds `bindings`, to the finder; `off` says whether sorting is off before it.
fn find_line(
    blocks: &mut BlockFinder,
    alloc: Global,
    unit: &Unit<'_>,
    actions: Actions,
    off: bool,
    bindings: Vec<Binding>,
) -> Result<(), AllocError>
    requires actions { AreActions (line_in unit.now) actions }
    requires binds { Binds (line_in unit.now) (map binding_value bindings.items) }
    requires further { IsFurther (stop_of (line_in unit.now)) blocks.old }
    ensures { OnOk result (FindsLine off (line_in unit.now) blocks.old blocks.new) }
{
    let line = LineStop::of(unit);
    match role_of(unit, actions, off) {
        Role::Blank => {
            blocks.push_blank(line);
            Ok(())
        }
        Role::Comments => {
            let comments = if blocks.is_open() {
                comment_texts(alloc, unit)?
            } else {
                Vec::new(alloc)
            };
            blocks.push_comments(line, comments)
        }
        Role::Member => {
            let member = Member {
                bindings,
                comments: own_comments(alloc, unit)?,
                above: Vec::new(alloc),
            };
            blocks.push_member(alloc, line, indentation(unit), member)
        }
        Role::Other(blank_lines) => blocks.push_other(line, blank_lines),
    }
}

/// Reads a text: what is found in it, or its fault.
pub(crate) fn find_blocks(alloc: Global, text: &[u8]) -> Result<FoundText, SortError>
    ensures ok { IfOk result (λ found. IsFoundIn text.now found) }
    ensures err { IfErr result (λ e. IsRefused text.now e) }
{
    let mut reader = LineReader::new(alloc);
    reader.read(alloc, text)?;
    Ok(reader.finish()?)
}
