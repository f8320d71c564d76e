//! What a finder over a whole text and one over pieces have in common: where each stands in its text, and its cursor.
ghost use Rattle.std.specs.Prelude.{◌≡◌, ◌↔◌, IsTrue, [], false, map};
ghost use Rattle.py_lines.specs.UnitLine.{line_in};
ghost use Rattle.py_imports.specs.BindingValue.{binding_value};

use crate::cursor::Cursor;
use crate::error::FindError;
use crate::options::FindOptions;
use crate::pending::{LineStart, Pending};
use crate::step::{Step, is_plain, judge};
use crate::take::{pass_known, take_new};
use py_imports::Binding;
use py_lines::{Fault, Unit};
use std::alloc::Global;
use std::marker::Model;

/// Where a finder stands in its text.
#[derive(Drop)]
pub enum Position {
    /// Between two logical lines. So many bindings of the next one were looked at.
    Between { skip: usize },
    /// Before the logical line that begins at `start`, which was left unread, since memory ran out. So many of its bindings
    /// were looked at.
    Unread { start: LineStart, skip: usize },
    /// Within the logical line read last, some of whose bindings were looked at.
    Within(Pending),
    /// At the end of what counts. Text after it was passed over up to this byte, or not at all.
    End { passed: u64 },
    /// At the text's fault.
    Fault(Fault),
}

/// Whether a finder goes on, or has met the end of what counts or the text's fault.
#[derive(Clone, Copy)]
pub enum Phase {
    /// It goes on.
    Open,
    /// It has met the end of the top, or of the text.
    End,
    /// It has met this fault.
    Fault(Fault),
}

/// Goes through the logical lines of a text, which are handed to it one by one, and gives their imports.
#[derive(Drop)]
pub struct Walker {
    /// Where its memory comes from.
    alloc: Global,
    /// Where it stands.
    position: Position,
    /// Where another finder would go on.
    cursor: Cursor,
}

impl Model for Walker {
    ghost use Rattle.isort_find.specs.Private.Walks.{WalkerState, walker_state};

    ghost Value = { WalkerState };

    ghost view = { λ w. walker_state w.position w.cursor };
}

impl Walker {
    ghost use Rattle.isort_find.specs.Position.{left_in, phase_in, ready_in, skip_in};
    ghost use Rattle.isort_find.specs.Private.CursorMoves.{cursor_before};
    ghost use Rattle.isort_find.specs.Private.Walks.{FollowsStep, LooksAhead, ReadsOrLosesLine, TakesOne, TriesLine, walker_state};
    ghost use Rattle.isort_find.specs.Private.Walks.{with_fault, with_position, after_line, passed_in, passed_up_to, read_again, unread_in};

    /// Where the cursor stands.
    pub fn at(alloc: Global, cursor: Cursor) -> Walker
        ensures { result ≡ walker_state (Position.Between cursor.taken) cursor }
    {
        Walker {
            alloc,
            position: Position::Between {
                skip: cursor.taken(),
            },
            cursor,
        }
    }

    /// Which imports are found.
    pub fn options(&self) -> FindOptions
        ensures { result ≡ self.now.cursor.options }
    {
        self.cursor.options()
    }

    /// Whether it goes on, or has met the end or the fault.
    pub fn phase(&self) -> Phase
        ensures { result ≡ phase_in self.now.position }
    {
        match &self.position {
            Position::Between { .. } | Position::Unread { .. } | Position::Within(_) => Phase::Open,
            Position::End { .. } => Phase::End,
            Position::Fault(fault) => Phase::Fault(*fault),
        }
    }

    /// Whether neither the end nor a fault was met.
    pub fn is_open(&self) -> bool
        ensures { IsTrue result ↔ (phase_in self.now.position ≡ Phase.Open) }
    {
        matches!(self.phase(), Phase::Open)
    }

    /// Whether a binding is left, or a logical line was left unread.
    pub fn has_ready(&self) -> bool
        ensures { result ≡ ready_in self.now.position }
    {
        match &self.position {
            Position::Unread { .. } => true,
            Position::Within(pending) => pending.front().is_some(),
            Position::Between { .. } | Position::End { .. } | Position::Fault(_) => false,
        }
    }

    /// Where the logical line begins that was left unread, if one was.
    pub fn unread(&self) -> Option<LineStart>
        ensures { result ≡ unread_in self.now.position }
    {
        match &self.position {
            Position::Unread { start, .. } => Some(*start),
            _ => None,
        }
    }

    /// How many bindings of the next logical line were looked at.
    pub fn skip(&self) -> usize
        ensures { result ≡ skip_in self.now.position }
    {
        match &self.position {
            Position::Between { skip } | Position::Unread { skip, .. } => *skip,
            _ => 0,
        }
    }

    /// Whether logical lines that bind nothing may be passed over: no bindings of the next one were looked at, and none ends the top.
    pub fn may_pass_lines(&self) -> bool
        ensures fresh { IsTrue result → skip_in self.now.position ≡ 0 }
        ensures counts { IsTrue result → self.now.cursor.options.top_only ≡ false }
    {
        self.skip() == 0 && !self.options().top_only
    }

    /// Once the end was met, the byte up to which text was passed over after it, or 0.
    pub fn passed(&self) -> Option<u64>
        ensures { result ≡ passed_in self.now.position }
    {
        match &self.position {
            Position::End { passed } => Some(*passed),
            _ => None,
        }
    }

    /// The text has this fault, from now on. The logical line that has it begins at `start`.
    pub fn fail(&mut self, start: LineStart, fault: Fault) -> FindError
        ensures answer { result ≡ FindError.Fault fault }
        ensures kept { self.new ≡ with_fault self.old start fault }
    {
        self.position = Position::Fault(fault);
        self.cursor.move_to(start);
        FindError::Fault(fault)
    }

    /// Whether bindings of the logical line read last may be left.
    pub fn is_within(&self) -> bool
        ensures { result ≡ false → left_in self.now.position ≡ [] }
    {
        matches!(&self.position, Position::Within(_))
    }

    /// Goes on after a logical line that binds nothing, as most do.
    fn pass_line(&mut self)
        ensures { self.new ≡ with_position self.old (Position.Between 0) }
    {
        match &mut self.position {
            Position::Between { skip } => *skip = 0,
            _ => self.position = Position::Between { skip: 0 },
        }
    }

    /// Does what follows from the logical line that begins at `start`.
    pub fn follow(&mut self, start: LineStart, step: Step) -> Result<(), FindError>
        ensures { FollowsStep self.old start step result self.new }
    {
        match step {
            Step::Bindings(bindings) => {
                let skip = self.skip();
                self.position = Position::Within(Pending::new(bindings, start, skip));
            }
            Step::Plain => self.pass_line(),
            Step::End => self.position = Position::End { passed: 0 },
            Step::Fault(fault) => return Err(self.fail(start, fault)),
            Step::LineLost => {
                self.lose(start);
                return Err(FindError::Memory);
            }
            Step::NoMemory => return Err(FindError::Memory),
        }
        Ok(())
    }

    /// Reads a logical line, which begins at `start`. Without memory for its bindings it is left unread.
    pub fn read(&mut self, unit: &Unit<'_>, start: LineStart) -> Result<(), FindError>
        ensures { ReadsOrLosesLine self.old (line_in unit.now) start result self.new }
    {
        let step = judge(self.alloc, unit, self.cursor.options());
        self.follow(start, step)
    }

    /// The same, where a line that is left unread is no error, and what is ready then is known.
    #[inline(always)]
    pub fn try_line(&mut self, unit: &Unit<'_>, start: LineStart) -> Result<(), FindError>
        ensures { TriesLine self.old (line_in unit.now) start result self.new }
    {
        if is_plain(unit, self.options()) {
            self.position = Position::Within(Pending::none(self.alloc, start));
            return Ok(());
        }
        self.try_words(unit, start)
    }

    /// The same, for a logical line that may bind something. It is apart so that other lines take few steps.
    #[cold]
    fn try_words(&mut self, unit: &Unit<'_>, start: LineStart) -> Result<(), FindError>
        ensures { TriesLine self.old (line_in unit.now) start result self.new }
    {
        match self.read(unit, start) {
            Err(FindError::Fault(fault)) => Err(FindError::Fault(fault)),
            Ok(()) | Err(FindError::Memory) => {
                self.look_ahead();
                Ok(())
            }
        }
    }

    /// The next binding of the logical line read last whose key wasn't given yet.
    pub fn next_new(&mut self) -> Result<Option<Binding>, FindError>
        ensures { TakesOne self.old result self.new }
    {
        match &mut self.position {
            Position::Within(pending) => take_new(self.alloc, pending, &mut self.cursor),
            Position::Between { .. }
            | Position::Unread { .. }
            | Position::End { .. }
            | Position::Fault(_) => { Ok(None) }
        }
    }

    /// Passes over bindings whose keys were given. It needs no memory.
    pub fn look_ahead(&mut self)
        ensures { LooksAhead self.old self.new }
    {
        match &mut self.position {
            Position::Within(pending) => {
                pass_known(self.alloc, pending, &self.cursor);
            }
            Position::Between { .. }
            | Position::Unread { .. }
            | Position::End { .. }
            | Position::Fault(_) => {}
        }
    }

    /// Leaves the logical line read last.
    pub fn leave(&mut self)
        ensures { self.new ≡ with_position self.old (after_line self.old.position) }
    {
        if let Position::Within(_) = &self.position {
            self.position = Position::Between { skip: 0 };
        }
    }

    /// Memory ran out for the logical line that begins at `start`.
    pub fn lose(&mut self, start: LineStart)
        ensures { self.new
            ≡ with_position self.old (Position.Unread start (skip_in self.old.position)) }
    {
        let skip = self.skip();
        self.position = Position::Unread { start, skip };
    }

    /// The logical line that was left unread comes next.
    pub fn go_back(&mut self)
        ensures { self.new ≡ with_position self.old (read_again self.old.position) }
    {
        if let Position::Unread { skip, .. } = &self.position {
            let skip = *skip;
            self.position = Position::Between { skip };
        }
    }

    /// What follows begins at `start`. The cursor goes there, except where some of the next line's bindings were looked at.
    pub fn rest(&mut self, start: LineStart)
        ensures fresh { skip_in self.old.position ≡ 0
            → self.new ≡ walker_state self.old.position (cursor_before self.old.cursor start) }
        ensures stays { ¬ (skip_in self.old.position ≡ 0) → self.new ≡ self.old }
    {
        if self.skip() == 0 {
            self.cursor.move_to(start);
        }
    }

    /// After the end text is passed over up to this byte.
    pub fn pass_to(&mut self, place: u64)
        ensures { self.new ≡ with_position self.old (passed_up_to self.old.position place) }
    {
        if let Position::End { passed } = &mut self.position {
            *passed = place;
        }
    }

    /// The cursor from which another finder goes on. It takes no memory.
    pub fn stop(self) -> Cursor
        ensures { result ≡ self.cursor }
    {
        let Walker { cursor, .. } = self;
        cursor
    }
}
