//! The imports of a text that comes in pieces.
ghost use Rattle.std.specs.Prelude.{◌≡◌, ◌+◌, ◌-◌, ◌≤◌, ◌^◌, ℕ, List, [], true, false, Ok, drop, length, IsTrue, IfOk, IfErr};
ghost use Rattle.py_imports.specs.BindingValue.{BindingValue};
ghost use Rattle.py_lines.specs.ScannerState.{fed_of};

use crate::cursor::Cursor;
use crate::error::{FindError, ResumeError};
use crate::known::known_laws;
use crate::options::FindOptions;
use crate::pauses::Pauses;
use crate::pending::LineStart;
use crate::walker::{Phase, Walker};
use py_imports::laws::lines_without_import_bind_nothing;
use py_imports::{Binding, FirstWords};
use py_lines::{Fault, LexError, Scanner};
use std::alloc::Global;
use std::marker::Model;

/// Whether bytes begin with a word with which import statements begin.
fn begins_import(bytes: &[u8]) -> bool {
    bytes.starts_with(b"import") || bytes.starts_with(b"from")
}

/// Finds the imports of a text that comes in pieces, each as soon as its logical line is whole. It keeps the text of one
/// line, and after CR one byte more. Contracts see it as a `PieceFinderState`.
///
/// Feed a piece, take what is ready, and feed what wasn't taken of the piece. After the last piece call `finish`, and take
/// what is ready then.
#[derive(Drop)]
pub struct PieceFinder {
    /// Makes the logical lines, and holds the one that was read last until all of it was given.
    scanner: Scanner,
    /// Goes through them.
    walker: Walker,
}

impl Model for PieceFinder {
    ghost use Rattle.isort_find.specs.Pieces.{PieceFinderState, piece_finder_state};

    ghost Value = { PieceFinderState };

    ghost view = { λ f. piece_finder_state f.scanner f.walker.position f.walker.cursor };
}

impl PieceFinder {
    ghost use Rattle.isort_find.specs.Cursor.{first_cursor, HasStopped};
    ghost use Rattle.isort_find.specs.Pieces.{PieceFinderState, HasFoundIn, AreAllSettled, IsUndecided, IsOpenYet, FeedsPiece};
    ghost use Rattle.isort_find.specs.Pieces.{GivesReady, EndsFeeding, GoesOnFrom, fed_by, held_by, has_ready};
    ghost use Rattle.isort_find.specs.Position.{phase_in};
    ghost use Rattle.isort_find.specs.Private.PieceSteps.{FeedsLine, IsBetween, IsNextStart, LetsLineGo, PassesLines};
    ghost use Rattle.isort_find.specs.Private.PieceSteps.{TriesReady, TakesBytesOf, TakesLineOf, IsToGoOn, IsToStop};
    ghost use Rattle.isort_find.specs.Private.PieceSteps.{HasTakenAll, ReadsUnread, TakesReady, Rests, walker_of, with_passed, with_walker};
    ghost use Rattle.isort_find.specs.Private.Walks.{with_fault};

    /// A finder at the start of a text, before its first piece. It answers `Memory` alone.
    pub fn new(alloc: Global, options: FindOptions) -> Result<PieceFinder, FindError>
        ensures cursor { IfOk result (λ f. f.cursor ≡ first_cursor options) }
        ensures fed { IfOk result (λ f. fed_by f ≡ 0) }
        ensures open_yet { IfOk result (λ f. f.scanning.ended ≡ false) }
        ensures is_open { IfOk result (λ f. phase_in f.position ≡ Phase.Open) }
        ensures none_ready { IfOk result (λ f. has_ready f ≡ false) }
        ensures found { IfOk result (λ f. (text : List ℕ) → HasFoundIn f text []) }
        ensures settled { IfOk result (λ f. (text : List ℕ) → AreAllSettled f text []) }
        ensures undecided { IfOk result (λ f. (text : List ℕ) → IsUndecided f text) }
        ensures held { IfOk result (λ f. held_by f ≡ []) }
        ensures err { IfErr result (λ e. e ≡ FindError.Memory) }
    {
        known_laws();
        let Ok(scanner) = Scanner::new(alloc) else {
            return Err(FindError::Memory);
        };
        let walker = Walker::at(alloc, Cursor::start(alloc, options));
        Ok(PieceFinder { scanner, walker })
    }

    /// Where the next logical line begins.
    fn start(&self) -> LineStart
        ensures { IsNextStart self.now.scanning result }
    {
        LineStart {
            offset: self.scanner.offset(),
            line: self.scanner.line(),
        }
    }

    /// Lets the logical line go that was read last, if it is held yet.
    fn let_go(&mut self)
        ensures { LetsLineGo self.old self.new }
    {
        if self.scanner.ready().is_some() {
            self.scanner.release();
        }
        self.walker.leave();
    }

    /// Reads the logical line that is ready, if one is. Without memory for its bindings it is left unread.
    #[inline(always)]
    fn try_line(&mut self) -> Result<(), FindError>
        ensures { TriesReady self.old result self.new }
    {
        let start = self.start();
        match self.scanner.ready() {
            Some(unit) => self.walker.try_line(&unit, start),
            None => Ok(()),
        }
    }

    /// Lets the logical line go that was read last. After it, from byte `start` of the piece on, passes over lines without their
    /// tokens, as long as they bind nothing, and answers how many bytes these have. Most lines are passed over so.
    #[inline(always)]
    fn pass_lines(
        &mut self,
        piece: &[u8],
        start: usize,
        words: &mut FirstWords<'_>,
        pauses: &mut Pauses,
    ) -> usize
        requires within { start ≤ length piece.now }
        requires fits { fed_by self.old + (length piece.now - start) ≤ 2 ^ 62 }
        requires open_yet { self.old.scanning.ended ≡ false }
        requires is_open { phase_in self.old.position ≡ Phase.Open }
        requires none_ready { has_ready self.old ≡ false }
        requires text { words.old ≡ piece.now }
        ensures passes { PassesLines self.old (drop start piece.now) result self.new }
        ensures text { words.new ≡ words.old }
    {
        lines_without_import_bind_nothing();
        self.let_go();
        if !self.walker.may_pass_lines() || !pauses.are_over() {
            return 0;
        }
        let held = self.scanner.held().len();
        // What is held may be the end of another piece.
        if held > start {
            return 0;
        }
        let first = start - held;
        // Most lines with an import follow another one.
        if begins_import(&piece[first..]) {
            return 0;
        }
        let before = words.clear_up_to(first) - first;
        let passed = self.scanner.pass_lines(&piece[first..], before);
        // The piece may begin in mid-line.
        pauses.note(passed > 0 || start == 0);
        passed + self.scanner.held().len() - held
    }

    /// The text has this fault, from now on. The logical line that has it begins at `start`.
    fn fail(&mut self, start: LineStart, fault: Fault) -> FindError
        ensures answer { result ≡ FindError.Fault fault }
        ensures kept { self.new
            ≡ with_walker self.old (with_fault (walker_of self.old) start fault) }
    {
        self.walker.fail(start, fault)
    }

    /// Hands bytes to the scanner, up to the end of a logical line: how many. Where lines may be passed over, one in which neither
    /// `import` nor `from` stands is let go at once.
    #[inline(always)]
    fn feed_line(&mut self, piece: &[u8]) -> Result<usize, LexError>
        requires fits { fed_of self.old.scanning + length piece.now ≤ 2 ^ 62 }
        requires open_yet { self.old.scanning.ended ≡ false }
        ensures { FeedsLine self.old piece.now result self.new }
    {
        // A line that begins with one of the words holds it, so its tokens are read anyway.
        if self.walker.may_pass_lines() && !begins_import(piece) {
            return self.scanner.feed_naming(piece, b"import", b"from");
        }
        self.scanner.feed(piece)
    }

    /// Takes bytes up to the end of a logical line, and reads that line, if it may bind something: how many.
    #[inline(always)]
    fn take_line(&mut self, piece: &[u8]) -> Result<usize, FindError>
        requires fits { fed_by self.old + length piece.now ≤ 2 ^ 62 }
        requires open_yet { self.old.scanning.ended ≡ false }
        requires between { IsBetween self.old }
        ensures { TakesLineOf self.old piece.now result self.new }
    {
        known_laws();
        lines_without_import_bind_nothing();
        let start = self.start();
        match self.feed_line(piece) {
            Ok(taken) => {
                self.try_line()?;
                Ok(taken)
            }
            Err(LexError::Fault(fault)) => Err(self.fail(start, fault)),
            Err(LexError::Memory) => Err(FindError::Memory),
        }
    }

    /// Takes bytes, line by line, until a binding is ready: how many. After a line that gives nothing the byte that is held
    /// of the next one is looked at too. Where memory runs out after the first byte, the next line is left unread.
    fn take_lines(&mut self, piece: &[u8]) -> Result<usize, FindError>
        requires fits { fed_by self.old + length piece.now ≤ 2 ^ 62 }
        requires open_yet { self.old.scanning.ended ≡ false }
        requires is_open { phase_in self.old.position ≡ Phase.Open }
        requires none_ready { has_ready self.old ≡ false }
        ensures takes { TakesBytesOf self.old piece.now result self.new }
        ensures done { (n : ℕ) → result ≡ Ok n → has_ready self.new ≡ false
            → HasTakenAll piece.now n self.new }
    {
        let mut words = FirstWords::new(piece);
        let mut pauses = Pauses::new();
        let mut taken = 0;
        'lines: loop {
            taken += self.pass_lines(piece, taken, &mut words, &mut pauses);
            let place = self.start().offset;
            match self.take_line(&piece[taken..]) {
                Ok(more) => taken += more,
                Err(FindError::Fault(fault)) => return Err(FindError::Fault(fault)),
                Err(FindError::Memory) if taken == 0 => return Err(FindError::Memory),
                Err(FindError::Memory) => {
                    let start = self.start();
                    self.walker.lose(start);
                    return Ok(taken);
                }
            }
            if !self.goes_on(taken < piece.len(), place) {
                return Ok(taken);
            }
        }
    }

    /// Whether nothing is ready, and there is more of the piece, or a line that began at byte `place` was let go, or one is held that
    /// gave nothing.
    fn goes_on(&self, more: bool, place: u64) -> bool
        ensures goes { IsTrue result → IsToGoOn self.now more place }
        ensures done { result ≡ false → has_ready self.now ≡ false → IsToStop self.now more place }
    {
        if !self.walker.is_open() || self.has_ready() {
            return false;
        }
        match self.scanner.ready() {
            Some(_) => true,
            None => more || self.scanner.offset() > place,
        }
    }

    /// After the top every piece is taken whole.
    fn pass(&mut self, piece: &[u8]) -> usize
        requires { fed_by self.old + length piece.now ≤ 2 ^ 62 }
        ensures all { result ≡ length piece.now }
        ensures passed { self.new ≡ with_passed self.old (length piece.now) }
    {
        let fed = self.fed();
        self.walker.pass_to(fed + piece.len() as u64);
        piece.len()
    }

    /// Takes bytes of a piece, in order, and answers how many. It stops after a logical line that has an import to give, or
    /// where a growth was refused, and then `has_ready` is true. It takes none where that is true before. In each other
    /// case it takes all.
    ///
    /// `finish` hasn't answered `Ok`. The error is `Fault` as soon as the bytes decide it, and at each later call again. It
    /// is `Memory` where a growth was refused before the first byte: none was taken, and the finder is as it was.
    pub fn feed(&mut self, piece: &[u8]) -> Result<usize, FindError>
        requires fits { fed_by self.old + length piece.now ≤ 2 ^ 62 }
        requires open_yet { IsOpenYet self.old }
        ensures feeds { FeedsPiece self.old piece.now result self.new }
    {
        known_laws();
        match self.walker.phase() {
            Phase::Fault(fault) => Err(FindError::Fault(fault)),
            Phase::End => Ok(self.pass(piece)),
            Phase::Open if self.has_ready() => Ok(0),
            Phase::Open => {
                let taken = self.take_lines(piece)?;
                if let Phase::End = self.walker.phase() {
                    return Ok(taken + self.pass(&piece[taken..]));
                }
                Ok(taken)
            }
        }
    }

    /// Whether an import is ready, or a growth was refused that left it open whether one is. Then `next_ready` looks again,
    /// and may answer `None`.
    pub fn has_ready(&self) -> bool
        ensures { result ≡ has_ready self.now }
    {
        self.walker.has_ready()
    }

    /// Nothing is ready: the line read last is let go, and the cursor goes to where the next one begins. It stands there
    /// where some of that line's bindings were looked at before.
    fn rest(&mut self)
        ensures { Rests self.old self.new }
    {
        if self.walker.is_open() {
            self.let_go();
        }
        let start = self.start();
        self.walker.rest(start);
    }

    /// Reads the last logical line, if it was left unread.
    fn read_unread(&mut self) -> Result<(), FindError>
        ensures { ReadsUnread self.old result self.new }
    {
        if self.walker.unread().is_none() {
            return Ok(());
        }
        let start = self.start();
        match self.scanner.ready() {
            Some(unit) => self.walker.read(&unit, start),
            None => {
                self.walker.go_back();
                Ok(())
            }
        }
    }

    /// The next binding of the last logical line whose key wasn't given yet. A line that was left unread is read first.
    fn take_ready(&mut self) -> Result<Option<Binding>, FindError>
        ensures { TakesReady self.old result self.new }
    {
        self.read_unread()?;
        match self.walker.next_new() {
            Ok(binding) => {
                self.walker.look_ahead();
                Ok(binding)
            }
            Err(error) => Err(error),
        }
    }

    /// The next import that is ready. `None` where none is. After `None` the cursor stands at the first logical line that
    /// the bytes fed don't settle. After a fault it answers `None` and changes nothing.
    ///
    /// - `Fault`: F9 of the last logical line, where a growth had left it unread. `feed` and `finish` answer it again.
    /// - `Memory`: memory ran out; the same import comes next, and the cursor stays.
    pub fn next_ready(&mut self) -> Result<Option<Binding>, FindError>
        ensures next { GivesReady self.old result self.new }
        ensures open_yet { IsOpenYet self.old → IsOpenYet self.new }
    {
        known_laws();
        match self.walker.phase() {
            Phase::Fault(_) => Ok(None),
            Phase::End => {
                self.rest();
                Ok(None)
            }
            Phase::Open => match self.take_ready() {
                Ok(Some(binding)) => Ok(Some(binding)),
                Ok(None) => {
                    self.rest();
                    Ok(None)
                }
                Err(error) => Err(error),
            },
        }
    }

    /// Ends the text: what is left of it is its last logical line. `has_ready` is false, and `finish` hasn't answered `Ok`
    /// before.
    ///
    /// The error is `Fault` where the text may not end so, or where its last line is F9, and at each later call again. It
    /// is `Memory` where a growth was refused: the finder is as it was. After `Ok` the imports of the last line are ready,
    /// and then `None` is the end.
    pub fn finish(&mut self) -> Result<(), FindError>
        requires none_ready { has_ready self.old ≡ false }
        requires open_yet { IsOpenYet self.old }
        ensures finishes { EndsFeeding self.old result self.new }
    {
        known_laws();
        match self.walker.phase() {
            Phase::Fault(fault) => return Err(FindError::Fault(fault)),
            Phase::End => return Ok(()),
            Phase::Open => {}
        }
        self.let_go();
        let start = self.start();
        match self.scanner.finish() {
            Ok(()) => self.try_line(),
            Err(LexError::Fault(fault)) => Err(self.walker.fail(start, fault)),
            Err(LexError::Memory) => Err(FindError::Memory),
        }
    }

    /// The text fed, without the logical lines that it settles, and without what stands before the cursor that the finder
    /// went on from. While a logical line is ready it is that line, and before the text's end, after CR, one byte more. After
    /// the top it is empty.
    pub fn held(&self) -> &[u8]
        ensures { result.now ≡ held_by self.now }
    {
        match self.walker.passed() {
            Some(_) => &[],
            None => self.scanner.held(),
        }
    }

    /// The byte of the text up to which it was fed.
    pub fn fed(&self) -> u64
        ensures { result ≡ fed_by self.now }
    {
        match self.walker.passed() {
            Some(passed) => passed.max(self.scanner.fed()),
            None => self.scanner.fed(),
        }
    }

    /// The cursor from which another finder goes on, over pieces or over the whole text. It takes no memory.
    pub fn stop(self) -> Cursor
        ensures cursor { result ≡ self.cursor }
        ensures stopped { (text : List ℕ) (values : List BindingValue) → HasFoundIn self text values
            → HasStopped text result values }
    {
        let PieceFinder { walker, .. } = self;
        walker.stop()
    }

    /// A finder that goes on from the cursor, whose offset is at most 2^62: it is fed the text from that byte on. In
    /// another text it finds something, and nothing is said of what. It answers `Memory` alone, and the cursor comes back
    /// with it.
    pub fn resume(alloc: Global, cursor: Cursor) -> Result<PieceFinder, (Cursor, ResumeError)>
        requires offset { cursor.offset ≤ 2 ^ 62 }
        ensures cursor { IfOk result (λ f. f.cursor ≡ cursor) }
        ensures fed { IfOk result (λ f. fed_by f ≡ cursor.offset) }
        ensures open_yet { IfOk result (λ f. f.scanning.ended ≡ false) }
        ensures none_ready { IfOk result (λ f. has_ready f ≡ false) }
        ensures found { IfOk result (GoesOnFrom cursor) }
        ensures held { IfOk result (λ f. held_by f ≡ []) }
        ensures back { IfErr result (λ e. e.0 ≡ cursor) }
        ensures memory { IfErr result (λ e. e.1 ≡ ResumeError.Memory) }
    {
        let start = cursor.start_of_line();
        // A cursor of a text stands on a line from 1 to its offset and 1.
        let line = start.line.max(1).min(start.offset + 1);
        match Scanner::at(alloc, start.offset, line) {
            Ok(scanner) => {
                let walker = Walker::at(alloc, cursor);
                Ok(PieceFinder { scanner, walker })
            }
            Err(_) => Err((cursor, ResumeError::Memory)),
        }
    }
}
