//! The imports of a whole text, one after another.
ghost use Rattle.std.specs.Prelude.{◌≡◌, ◌<◌, ◌≤◌, ◌↔◌, ℕ, List, [], length, IfOk, IfErr, OnOk, OnErr};
ghost use Rattle.py_imports.specs.BindingValue.{BindingValue};

use crate::cursor::Cursor;
use crate::error::{FindError, ResumeError};
use crate::known::known_laws;
use crate::options::FindOptions;
use crate::pauses::Pauses;
use crate::pending::LineStart;
use crate::step::{Step, next_step};
use crate::walker::{Phase, Walker};
use py_imports::laws::lines_without_import_bind_nothing;
use py_imports::{Binding, FirstWords};
use py_lines::Lines;
use std::alloc::Global;
use std::marker::Model;

/// Finds the imports of a text, one at a time. Contracts see it as a `FinderState`.
#[derive(Drop)]
pub struct Finder<'t> {
    /// Where its memory comes from.
    alloc: Global,
    /// The whole text.
    text: &'t [u8],
    /// Where import statements may begin in it.
    words: FirstWords<'t>,
    /// When to try to pass over lines.
    pauses: Pauses,
    /// Reads its logical lines.
    lines: Lines<'t>,
    /// Goes through them.
    walker: Walker,
}

impl<'t> Model for Finder<'t> {
    ghost use Rattle.std.specs.Prelude.{◌≡◌};
    ghost use Rattle.isort_find.specs.Finder.{FinderState, finder_state};

    ghost Value = { FinderState };

    ghost view = { λ f. finder_state f.lines f.walker.position f.walker.cursor };

    ghost invariant = { λ f. (f.lines.text ≡ f.text.now) × (f.words ≡ f.text.now) };
}

impl<'t> Finder<'t> {
    ghost use Rattle.isort_find.specs.Cursor.{first_cursor, HasStopped};
    ghost use Rattle.isort_find.specs.Finder.{HasFound, GivesNext, finder_text};
    ghost use Rattle.isort_find.specs.Position.{left_in, phase_in};
    ghost use Rattle.isort_find.specs.Private.FinderSteps.{GivesNew, GoesBack, FollowsRead, ReadsNextLine, StandsBefore};

    /// A finder at the start of the text, which is any bytes. It answers `Memory` alone.
    pub fn new(alloc: Global, text: &'t [u8], options: FindOptions) -> Result<Finder<'t>, FindError>
        ensures text { IfOk result (λ f. finder_text f ≡ text.now) }
        ensures cursor { IfOk result (λ f. f.cursor ≡ first_cursor options) }
        ensures found { IfOk result (λ f. HasFound f []) }
        ensures err { IfErr result (λ e. e ≡ FindError.Memory) }
    {
        let Ok(lines) = Lines::new(alloc, text) else {
            return Err(FindError::Memory);
        };
        let walker = Walker::at(alloc, Cursor::start(alloc, options));
        Ok(Finder {
            alloc,
            text,
            words: FirstWords::new(text),
            pauses: Pauses::new(),
            lines,
            walker,
        })
    }

    /// The next binding of the logical line read last whose key wasn't given yet.
    fn next_new(&mut self) -> Result<Option<Binding>, FindError>
        requires { phase_in self.old.position ≡ Phase.Open }
        ensures { GivesNew self.old result self.new }
    {
        self.walker.next_new()
    }

    /// Goes back to where the logical line begins that has to be read again.
    fn go_back(&mut self) -> Result<(), FindError>
        ensures ok { OnOk result (GoesBack self.old self.new) }
        ensures err { IfErr result (λ e. e ≡ FindError.Memory) }
        ensures kept { OnErr result (self.new ≡ self.old) }
    {
        let Some(start) = self.walker.unread() else {
            return Ok(());
        };
        match Lines::at(self.alloc, self.text, start.offset as usize, start.line) {
            Ok(lines) => {
                self.lines = lines;
                self.walker.go_back();
                Ok(())
            }
            Err(_) => Err(FindError::Memory),
        }
    }

    /// Passes over the next logical lines without their tokens, as long as they bind nothing. Most lines are passed over so. Nothing is
    /// left of the line read last, and none was left unread.
    #[inline(always)]
    fn pass_lines(&mut self)
        requires stands { StandsBefore self.old self.old }
        ensures { StandsBefore self.old self.new }
    {
        if !self.walker.may_pass_lines() || !self.pauses.are_over() {
            return;
        }
        lines_without_import_bind_nothing();
        self.walker.leave();
        let start = (self.lines.offset() as usize).min(self.text.len());
        let before = self.words.clear_up_to(start);
        let passed = self.lines.pass_lines(before);
        self.pauses.note(passed > 0 || before == start);
    }

    /// Where the next logical line begins.
    fn start(&self) -> LineStart
        ensures offset { result.offset ≡ self.now.reader.place }
        ensures line { result.line ≡ self.now.reader.line }
    {
        LineStart {
            offset: self.lines.offset(),
            line: self.lines.line(),
        }
    }

    /// Does what follows from a step of the logical line that begins at `start`.
    fn follow(&mut self, start: LineStart, step: Step) -> Result<(), FindError>
        ensures { FollowsRead self.old start step result self.new }
    {
        if let Err(FindError::Memory) = self.walker.follow(start, step) {
            return Err(FindError::Memory);
        }
        if !self.walker.is_open() {
            self.walker.rest(start);
        }
        Ok(())
    }

    /// Reads the next logical line, where nothing is left of the one read last.
    fn read_line(&mut self) -> Result<(), FindError>
        requires is_open { phase_in self.old.position ≡ Phase.Open }
        requires none_left { left_in self.old.position ≡ [] }
        ensures { ReadsNextLine self.old result self.new }
    {
        known_laws();
        self.go_back()?;
        self.pass_lines();
        let start = self.start();
        let step = next_step(self.alloc, &mut self.lines, self.walker.options());
        self.follow(start, step)
    }

    /// The next import that is found: with a key, the next whose key no earlier one has. `None` after the last one,
    /// for good.
    ///
    /// - `Fault`: the text's fault, after all imports before it; every later call answers it again.
    /// - `Memory`: memory ran out; the same import comes next, and the cursor stays.
    pub fn next_import(&mut self) -> Result<Option<Binding>, FindError>
        ensures next { GivesNext self.old result self.new }
    {
        'lines: while self.walker.is_open() {
            // Mostly nothing is left of the line read last.
            if self.walker.is_within() {
                if let Some(binding) = self.next_new()? {
                    return Ok(Some(binding));
                }
            }
            self.read_line()?;
        }
        match self.walker.phase() {
            Phase::Fault(fault) => Err(FindError::Fault(fault)),
            Phase::Open | Phase::End => Ok(None),
        }
    }

    /// The cursor from which another finder goes on. It takes no memory.
    pub fn stop(self) -> Cursor
        ensures cursor { result ≡ self.entry.cursor }
        ensures stopped { (values : List BindingValue) → HasFound self.entry values
            → HasStopped (finder_text self.entry) result values }
    {
        let Finder { walker, .. } = self;
        walker.stop()
    }

    /// A finder that goes on from the cursor, in the same text. In another text it finds something, and nothing is
    /// said of what.
    ///
    /// The cursor comes back with each error.
    ///
    /// - `TextTooShort`: the text ends before the cursor's offset.
    /// - `Memory`: memory ran out.
    pub fn resume(
        alloc: Global,
        text: &'t [u8],
        cursor: Cursor,
    ) -> Result<Finder<'t>, (Cursor, ResumeError)>
        ensures found { IfOk result (λ f. (values : List BindingValue)
            → HasStopped text.now cursor values → HasFound f values) }
        ensures text { IfOk result (λ f. finder_text f ≡ text.now) }
        ensures cursor { IfOk result (λ f. f.cursor ≡ cursor) }
        ensures within { IfOk result (λ f. cursor.offset ≤ length text.now) }
        ensures back { IfErr result (λ e. e.0 ≡ cursor) }
        ensures too_short { IfErr result (λ e. (e.1 ≡ ResumeError.TextTooShort)
            ↔ (length text.now < cursor.offset)) }
    {
        let start = cursor.start_of_line();
        if start.offset > text.len() as u64 {
            return Err((cursor, ResumeError::TextTooShort));
        }
        match Lines::at(alloc, text, start.offset as usize, start.line) {
            Ok(lines) => {
                let walker = Walker::at(alloc, cursor);
                Ok(Finder {
                    alloc,
                    text,
                    words: FirstWords::new(text),
                    pauses: Pauses::new(),
                    lines,
                    walker,
                })
            }
            Err(_) => Err((cursor, ResumeError::Memory)),
        }
    }
}
