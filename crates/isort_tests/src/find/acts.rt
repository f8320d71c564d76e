//! What is done with a finder of pieces, and what it tells then.
ghost use Rattle.std.specs.Prelude.{◌≡◌, false, true};
ghost use Rattle.isort_find.specs.Pieces.{IsOpenYet};

use crate::told::{tell, tell_binding, tell_error};
use isort_find::{Cursor, FindError, FindOptions, Finder, PieceFinder};
use py_imports::Binding;
use std::alloc::Global;
use std::marker::Model;
use test_harness::cases::{page, was_refused};

/// More bytes than a text of these tests has.
const MOST: u64 = 1_000_000;

/// A finder that these tests feed, and which of its calls may yet be made. Contracts see nothing of it: the calls below
/// look for themselves whether the finder allows them, so that no test has to prove it.
#[derive(Drop)]
struct Fed {
    alloc: Global,
    finder: PieceFinder,
    /// Whether the text was ended.
    ended: bool,
    /// Whether a fault was answered: each later `feed` and `finish` may be called, and answers it again.
    faulty: bool,
}

impl Model for Fed {
    ghost Value = { Unit {0} };

    ghost view = { λ f. tt };

    ghost invariant = { λ f. (f.ended ≡ false → f.finder.scanning.ended ≡ false) × (f.faulty ≡ true → IsOpenYet f.finder) };
}

impl Fed {
    /// One whose text is not ended.
    fn of(alloc: Global, finder: PieceFinder) -> Fed
        requires { finder.scanning.ended ≡ false }
    {
        Fed {
            alloc,
            finder,
            ended: false,
            faulty: false,
        }
    }

    /// One that goes on from a cursor of a short text; where memory ran out, it is made again of the cursor that came back.
    fn resume(alloc: Global, cursor: Cursor) -> Option<Fed> {
        match Fed::try_resume(alloc, cursor) {
            Ok(finder) => Some(finder),
            Err(cursor) if was_refused(alloc) => Fed::try_resume(alloc, cursor).ok(),
            Err(_) => None,
        }
    }

    /// One that goes on from a cursor, or the cursor.
    fn try_resume(alloc: Global, cursor: Cursor) -> Result<Fed, Cursor> {
        if cursor.offset() > MOST {
            return Err(cursor);
        }
        match PieceFinder::resume(alloc, cursor) {
            Ok(finder) => Ok(Fed::of(alloc, finder)),
            Err((cursor, _)) => Err(cursor),
        }
    }

    /// Feeds a short piece once; where memory ran out, it is fed again.
    fn feed(&mut self, piece: &[u8]) -> Result<usize, FindError> {
        match self.try_feed(piece) {
            Err(FindError::Memory) if was_refused(self.alloc) => self.try_feed(piece),
            answer => answer,
        }
    }

    /// Feeds a short piece once, if the finder allows it.
    fn try_feed(&mut self, piece: &[u8]) -> Result<usize, FindError> {
        if self.ended && !self.faulty || self.finder.fed() > MOST || piece.len() as u64 > MOST {
            return Err(FindError::Memory);
        }
        self.faulty = false;
        match self.finder.feed(piece) {
            Ok(taken) => Ok(taken),
            Err(FindError::Fault(fault)) => {
                self.faulty = true;
                Err(FindError::Fault(fault))
            }
            Err(FindError::Memory) => Err(FindError::Memory),
        }
    }

    /// The next import that is ready; where memory ran out, it is asked for again.
    fn next_ready(&mut self) -> Result<Option<Binding>, FindError> {
        match self.try_next_ready() {
            Err(FindError::Memory) if was_refused(self.alloc) => self.try_next_ready(),
            answer => answer,
        }
    }

    /// The next import that is ready. After a fault that is none, and the finder may be fed as before.
    fn try_next_ready(&mut self) -> Result<Option<Binding>, FindError> {
        match self.finder.next_ready() {
            Err(FindError::Fault(fault)) => {
                self.faulty = true;
                Err(FindError::Fault(fault))
            }
            answer => answer,
        }
    }

    /// Ends the text; where memory ran out, it is ended again.
    fn finish(&mut self) -> Result<(), FindError> {
        match self.try_finish() {
            Err(FindError::Memory) if was_refused(self.alloc) => self.try_finish(),
            answer => answer,
        }
    }

    /// Ends the text once, if the finder allows it.
    fn try_finish(&mut self) -> Result<(), FindError> {
        if self.ended && !self.faulty || self.finder.has_ready() {
            return Err(FindError::Memory);
        }
        match self.finder.finish() {
            Ok(()) => {
                self.ended = true;
                self.faulty = false;
                Ok(())
            }
            Err(FindError::Fault(fault)) => {
                self.ended = true;
                self.faulty = true;
                Err(FindError::Fault(fault))
            }
            Err(FindError::Memory) => {
                self.faulty = false;
                Err(FindError::Memory)
            }
        }
    }

    /// What the finder is asked for.
    fn options(self) -> FindOptions {
        self.stop().options()
    }

    /// Where the finder stops.
    fn stop(self) -> Cursor {
        let Fed { finder, .. } = self;
        finder.stop()
    }
}

/// What a finder was asked for last.
#[derive(Clone, Copy)]
pub(crate) enum Told {
    /// An import.
    Import,
    /// That there is none.
    None,
    /// A fault.
    Fault,
}

/// What a finder answers: an import, that there is none, or a fault.
fn tell_answer(
    alloc: Global,
    answer: Result<Option<Binding>, FindError>,
    none: &str,
    out: &mut String,
) -> Told {
    match answer {
        Ok(Some(binding)) => {
            tell_binding(alloc, &binding, out);
            Told::Import
        }
        Ok(None) => {
            tell(none, out);
            Told::None
        }
        Err(error) => {
            tell_error(error, out);
            Told::Fault
        }
    }
}

/// The next import that is ready, if one is.
fn tell_next(alloc: Global, finder: &mut Fed, none: &str, out: &mut String) -> Told {
    tell_answer(alloc, finder.next_ready(), none, out)
}

/// So often the next import that is ready, or that there is none.
fn tell_some(alloc: Global, finder: &mut Fed, times: usize, out: &mut String) {
    for _ in 0..times {
        tell_next(alloc, finder, "no import\n", out);
    }
}

/// All imports that are ready, but at most a hundred: whether they meet no fault. Where a growth was refused, a fault of the
/// last line may be met here first.
fn tell_ready(alloc: Global, finder: &mut Fed, out: &mut String) -> bool {
    for _ in 0..100 {
        match tell_next(alloc, finder, "", out) {
            Told::Import => {}
            Told::None => return true,
            Told::Fault => return false,
        }
    }
    true
}

/// A short piece fed whole, with the imports that get ready: whether it meets no fault.
fn tell_piece(alloc: Global, finder: &mut Fed, piece: &[u8], out: &mut String) -> bool {
    let mut rest = piece;
    for _ in 0..=piece.len() {
        match finder.feed(rest) {
            Ok(taken) => rest = rest.get(taken..).unwrap_or(rest),
            Err(error) => {
                tell_error(error, out);
                return false;
            }
        }
        if !tell_ready(alloc, finder, out) {
            return false;
        }
        if rest.is_empty() {
            return true;
        }
    }
    tell("a piece isn't taken\n", out);
    false
}

/// The imports of the last line, and the end.
fn tell_end(alloc: Global, finder: &mut Fed, out: &mut String) {
    match finder.finish() {
        Ok(()) => {
            if tell_ready(alloc, finder, out) {
                tell("end\n", out);
            }
        }
        Err(error) => tell_error(error, out),
    }
}

/// Whether an import is ready.
fn readiness(finder: &Fed) -> &'static str {
    if finder.finder.has_ready() {
        "ready"
    } else {
        "none"
    }
}

/// Whether an import is ready, up to which byte the text was fed, and how many bytes are held.
fn tell_state(finder: &Fed, out: &mut String) {
    let (fed, held) = (finder.finder.fed(), finder.finder.held().len());
    let _ = writeln!(out, "{}, {fed}, {held}", readiness(finder));
}

/// A piece fed once: how many bytes were taken, or the fault. What is left of the piece, if it has none.
fn tell_feed<'p>(finder: &mut Fed, piece: &'p [u8], out: &mut String) -> Option<&'p [u8]> {
    match finder.feed(piece) {
        Ok(taken) => {
            let _ = writeln!(out, "took {taken}");
            piece.get(taken..)
        }
        Err(error) => {
            tell_error(error, out);
            None
        }
    }
}

/// A piece fed once, the state, the imports that are ready, and the state after them; or the fault. What is left of the piece, if it
/// has none.
fn tell_step<'p>(
    alloc: Global,
    finder: &mut Fed,
    piece: &'p [u8],
    out: &mut String,
) -> Option<&'p [u8]> {
    let rest = tell_feed(finder, piece, out)?;
    tell_state(finder, out);
    tell_ready(alloc, finder, out);
    tell_state(finder, out);
    Some(rest)
}

/// Each of these pieces fed once.
fn tell_steps(alloc: Global, finder: &mut Fed, pieces: &[&[u8]], out: &mut String) {
    for piece in pieces {
        tell_step(alloc, finder, piece, out);
    }
}

/// A piece fed by as many calls as it takes, or up to a fault.
fn tell_calls(alloc: Global, finder: &mut Fed, piece: &[u8], out: &mut String) {
    let mut rest = piece;
    for _ in 0..=piece.len() {
        match tell_step(alloc, finder, rest, out) {
            Some(left) if !left.is_empty() => rest = left,
            _ => return,
        }
    }
}

/// Where a finder stands, and how many imports it has given.
pub(crate) fn tell_place(cursor: &Cursor, out: &mut String) {
    let _ = writeln!(out, "at {}, {}", cursor.offset(), cursor.given());
}

/// What a finder tells that is fed two pieces up to a fault, and their end.
fn tell_text(alloc: Global, finder: &mut Fed, first: &[u8], second: &[u8], out: &mut String) {
    if tell_piece(alloc, finder, first, out) && tell_piece(alloc, finder, second, out) {
        tell_end(alloc, finder, out);
    }
}

/// A text up to a byte, from where a finder stands: whether it meets no fault.
fn tell_up_to(alloc: Global, finder: &mut Fed, text: &[u8], upto: usize, out: &mut String) -> bool {
    match text.get(finder.finder.fed() as usize..upto) {
        Some(piece) => tell_piece(alloc, finder, piece, out),
        None => true,
    }
}

/// A finder that is fed one byte after another up to a fault, stops before each, and goes on from its cursor.
fn go_by_bytes(alloc: Global, mut finder: Fed, text: &[u8], out: &mut String) -> Option<Fed> {
    for upto in 1..=text.len() {
        finder = Fed::resume(alloc, finder.stop())?;
        if !tell_up_to(alloc, &mut finder, text, upto, out) {
            return Some(finder);
        }
    }
    tell_end(alloc, &mut finder, out);
    Some(finder)
}

/// What is done with a finder.
#[derive(Clone, Copy)]
pub(crate) enum Act<'t> {
    /// Feeds a piece once, and tells how many bytes were taken, or the fault.
    Feed(&'t [u8]),
    /// Feeds a piece whole, and tells the imports that get ready, and its fault.
    Piece(&'t [u8]),
    /// Feeds each of these pieces once, and tells that, the state, the imports that are ready, and the state after them.
    Steps(&'t [&'t [u8]]),
    /// Feeds a piece by as many calls as it takes, and tells the same of each call.
    Calls(&'t [u8]),
    /// Feeds two pieces whole, and ends the text, up to a fault.
    Text(&'t [u8], &'t [u8]),
    /// Feeds this text byte by byte, and ends it, up to a fault. It stops before each byte, and goes on from there.
    Bytes(&'t [u8]),
    /// Tells so often the next import that is ready, or that there is none.
    Next(usize),
    /// Tells whether an import is ready.
    Ready,
    /// Tells up to which byte the text was fed, and what is held.
    Held,
    /// Tells whether an import is ready, and then the same.
    State,
    /// Ends the text, and tells that, or the fault.
    Finish,
    /// Stops, tells the place, and goes on from there.
    Stop,
    /// Stops, tells the place, gives the other imports of this text from there, tells the place, and goes on from there.
    Whole(&'t [u8]),
    /// Gives so many imports of this text from its start on, tells the place, and goes on from there.
    First(&'t [u8], usize),
    /// Gives all imports of this text, from its start on, and its end or fault, and goes on from there.
    Found(&'t [u8]),
}

/// Ends the text, and tells that, or the fault.
fn tell_finish(finder: &mut Fed, out: &mut String) {
    match finder.finish() {
        Ok(()) => tell("end\n", out),
        Err(error) => tell_error(error, out),
    }
}

/// Whether an import is ready, on a line of its own.
fn tell_readiness(finder: &Fed, out: &mut String) {
    tell(readiness(finder), out);
    tell("\n", out);
}

/// Up to which byte the text was fed, and what is held.
fn tell_held(finder: &Fed, out: &mut String) {
    match str::from_utf8(finder.finder.held()) {
        Ok(held) => {
            let _ = writeln!(out, "{}, {held}", finder.finder.fed());
        }
        Err(_) => tell("other bytes are held\n", out),
    }
}

/// The next import of a whole text, that there is none, or the fault. It is asked for once more where memory ran out.
pub(crate) fn tell_import(
    alloc: Global,
    finder: &mut Finder<'_>,
    none: &str,
    out: &mut String,
) -> Told {
    match finder.next_import() {
        Err(FindError::Memory) if was_refused(alloc) => {
            tell_answer(alloc, finder.next_import(), none, out)
        }
        answer => tell_answer(alloc, answer, none, out),
    }
}

/// The imports of a whole text up to the last, and what comes after it, but at most so many.
fn tell_imports(alloc: Global, finder: &mut Finder<'_>, most: usize, none: &str, out: &mut String) {
    for _ in 0..most {
        if !matches!(tell_import(alloc, finder, none, out), Told::Import) {
            return;
        }
    }
}

/// A finder of a whole text; where memory ran out, it is begun again.
pub(crate) fn begun(alloc: Global, text: &[u8], options: FindOptions) -> Option<Finder<'_>> {
    match Finder::new(alloc, text, options) {
        Ok(finder) => Some(finder),
        Err(_) if was_refused(alloc) => Finder::new(alloc, text, options).ok(),
        Err(_) => None,
    }
}

/// A finder that goes on from a cursor; where memory ran out, it is made again of the cursor that came back.
pub(crate) fn resumed(alloc: Global, text: &[u8], cursor: Cursor) -> Option<Finder<'_>> {
    match Finder::resume(alloc, text, cursor) {
        Ok(finder) => Some(finder),
        Err((cursor, _)) if was_refused(alloc) => Finder::resume(alloc, text, cursor).ok(),
        Err(_) => None,
    }
}

/// A finder of pieces; where memory ran out, it is begun again.
fn begun_in_pieces(alloc: Global, options: FindOptions) -> Option<Fed> {
    match PieceFinder::new(alloc, options) {
        Ok(finder) => Some(Fed::of(alloc, finder)),
        Err(_) if was_refused(alloc) => {
            let finder = PieceFinder::new(alloc, options).ok()?;
            Some(Fed::of(alloc, finder))
        }
        Err(_) => None,
    }
}

/// A finder that goes on from where one of a whole text stops, which gives at most so many imports and tells the place.
fn go_after(alloc: Global, mut whole: Finder<'_>, most: usize, out: &mut String) -> Option<Fed> {
    tell_imports(alloc, &mut whole, most, "no import\n", out);
    let cursor = whole.stop();
    tell_place(&cursor, out);
    Fed::resume(alloc, cursor)
}

/// A finder that goes on from where this one stops.
fn go_on(alloc: Global, finder: Fed, out: &mut String) -> Option<Fed> {
    let cursor = finder.stop();
    tell_place(&cursor, out);
    Fed::resume(alloc, cursor)
}

/// A finder that goes on from where one of this whole text stops, which goes on from where this one stops.
fn go_whole(alloc: Global, finder: Fed, text: &[u8], out: &mut String) -> Option<Fed> {
    let cursor = finder.stop();
    tell_place(&cursor, out);
    go_after(alloc, resumed(alloc, text, cursor)?, 100, out)
}

/// A finder that goes on from where one of this whole text stops, which has the options of this one, and gives so many
/// imports.
fn go_first(alloc: Global, finder: Fed, text: &[u8], most: usize, out: &mut String) -> Option<Fed> {
    go_after(alloc, begun(alloc, text, finder.options())?, most, out)
}

/// A finder that goes on from where one of this whole text stops, which has the options of this one, and tells all of it.
fn go_found(alloc: Global, finder: Fed, text: &[u8], out: &mut String) -> Option<Fed> {
    let mut whole = begun(alloc, text, finder.options())?;
    tell_imports(alloc, &mut whole, 100, "end\n", out);
    Fed::resume(alloc, whole.stop())
}

/// Does what makes no other finder.
fn tell_act(alloc: Global, finder: &mut Fed, act: Act<'_>, out: &mut String) {
    match act {
        Act::Feed(piece) => {
            tell_feed(finder, piece, out);
        }
        Act::Piece(piece) => {
            tell_piece(alloc, finder, piece, out);
        }
        Act::Steps(pieces) => tell_steps(alloc, finder, pieces, out),
        Act::Calls(piece) => tell_calls(alloc, finder, piece, out),
        Act::Text(first, second) => tell_text(alloc, finder, first, second, out),
        Act::Next(times) => tell_some(alloc, finder, times, out),
        Act::Ready => tell_readiness(finder, out),
        Act::Held => tell_held(finder, out),
        Act::State => {
            tell_readiness(finder, out);
            tell_held(finder, out);
        }
        Act::Finish => tell_finish(finder, out),
        _ => {}
    }
}

/// Does this with a finder.
fn go(alloc: Global, mut finder: Fed, act: Act<'_>, out: &mut String) -> Option<Fed> {
    match act {
        Act::Bytes(text) => go_by_bytes(alloc, finder, text, out),
        Act::Stop => go_on(alloc, finder, out),
        Act::Whole(text) => go_whole(alloc, finder, text, out),
        Act::First(text, most) => go_first(alloc, finder, text, most, out),
        Act::Found(text) => go_found(alloc, finder, text, out),
        _ => {
            tell_act(alloc, &mut finder, act, out);
            Some(finder)
        }
    }
}

/// Does all this with one finder, in order, or up to where none can go on. Gives where it stops.
fn go_through(
    alloc: Global,
    options: FindOptions,
    acts: &[Act<'_>],
    out: &mut String,
) -> Option<Cursor> {
    let mut finder = begun_in_pieces(alloc, options)?;
    for act in acts {
        finder = go(alloc, finder, *act, out)?;
    }
    Some(finder.stop())
}

/// What a finder tells with which all this is done, in order.
pub(crate) fn tell_acts(alloc: Global, options: FindOptions, acts: &[Act<'_>]) -> String {
    let mut out = page(alloc);
    if go_through(alloc, options, acts, &mut out).is_none() {
        tell("no finder\n", &mut out);
    }
    out
}

/// Whether a finder tells this with which all this is done, in order.
pub(crate) fn tells(alloc: Global, options: FindOptions, acts: &[Act<'_>], want: &str) -> bool {
    tell_acts(alloc, options, acts).as_str() == want
}
