//! Made texts, which are read alike whether they are cut or not, and whether lines are passed over or not.
ghost use Rattle.std.specs.Prelude.{◌≡◌, ◌<◌, ◌≤◌, false, length, IfSome};

use crate::lines::made::{Dice, LONGEST, made_text};
use crate::lines::scanner::{begun, feed, finish};
use py_lines::*;
use std::alloc::Global;
use std::test::Fail;
use test_harness::cases::was_refused;

/// How many texts are tried. checks/judges/cut_tokens tries others, and more of them.
const TEXTS: u64 = 300;

/// The number of the first text.
const FIRST: u64 = 1;

/// Whether two logical lines are one, with their tokens.
fn are_one(unit: &Unit<'_>, other: &Unit<'_>) -> bool {
    unit.kind == other.kind
        && unit.text == other.text
        && unit.tokens == other.tokens
        && (unit.offset, unit.line) == (other.offset, other.line)
        && (unit.indent, unit.end_len) == (other.indent, other.end_len)
}

/// Whether the reader's next answer is this line.
fn gives(lines: &mut Lines<'_>, unit: &Unit<'_>) -> bool {
    match lines.next_unit() {
        Ok(Some(next)) => are_one(&next, unit),
        _ => false,
    }
}

/// Whether it is this error.
fn fails(lines: &mut Lines<'_>, error: LexError) -> bool {
    match lines.next_unit() {
        Ok(_) => false,
        Err(next) => next == error,
    }
}

/// Whether it is the end.
fn ends(lines: &mut Lines<'_>) -> bool {
    matches!(lines.next_unit(), Ok(None))
}

/// Whether the reader comes to this byte, on this line, by giving whole lines.
fn comes_to(lines: &mut Lines<'_>, offset: u64, line: u64) -> bool {
    for _ in 0..LONGEST {
        if lines.offset() >= offset || !matches!(lines.next_unit(), Ok(Some(_))) {
            break;
        }
    }
    (lines.offset(), lines.line()) == (offset, line)
}

/// Whether the line that is ready, which is then released, is what the reader gives next. So it is where none is ready.
fn ready_is_next(scanner: &mut Scanner, lines: &mut Lines<'_>) -> bool
    ensures { scanner.new.ended ≡ scanner.old.ended }
{
    let Some(unit) = scanner.ready() else {
        return true;
    };
    let is_next = gives(lines, &unit);
    scanner.release();
    is_next
}

/// The byte of a piece up to which the scanner is fed by passing over lines, as far as they end in so many bytes, where it was fed up to
/// this byte. The answer is none where the reader doesn't come to the same place.
fn passed(
    scanner: &mut Scanner,
    lines: &mut Lines<'_>,
    piece: &[u8],
    fed: usize,
    ahead: usize,
) -> Option<usize>
    ensures within { IfSome result (λ n. n ≤ length piece.now) }
    ensures ended { scanner.new.ended ≡ scanner.old.ended }
{
    if scanner.fed() > LONGEST as u64 || piece.len() > LONGEST {
        return None;
    }
    let held = scanner.held().len();
    // What is held may be the end of another piece.
    if held > fed || fed > piece.len() {
        return Some(fed.min(piece.len()));
    }
    let start = fed - held;
    let stop = start.saturating_add(scanner.pass_lines(&piece[start..], ahead));
    if comes_to(lines, scanner.offset(), scanner.line()) {
        Some(stop.saturating_add(scanner.held().len()).min(piece.len()))
    } else {
        None
    }
}

/// Whether a piece is read as the reader reads on, if lines are passed over as far as they end in so many bytes. The answer is none where
/// more may come: where neither a fault nor a difference was met.
fn piece_is_alike(
    alloc: Global,
    scanner: &mut Scanner,
    lines: &mut Lines<'_>,
    piece: &[u8],
    ahead: usize,
) -> Option<bool>
    requires { scanner.old.ended ≡ false }
    ensures { scanner.new.ended ≡ false }
{
    let mut fed = 0;
    for _ in 0..piece.len() {
        match passed(scanner, lines, piece, fed, ahead) {
            Some(stop) => fed = stop,
            None => return Some(false),
        }
        match feed(alloc, scanner, &piece[fed..]) {
            Ok(taken) => fed += taken,
            Err(error) => return Some(fails(lines, error)),
        }
        if !ready_is_next(scanner, lines) {
            return Some(false);
        }
        if fed == piece.len() {
            break;
        }
    }
    None
}

/// Whether the text's last line and its end are read as the reader reads on, or its fault.
fn end_is_alike(alloc: Global, scanner: &mut Scanner, lines: &mut Lines<'_>) -> bool
    requires { scanner.old.ended ≡ false }
{
    match finish(alloc, scanner) {
        Ok(()) => ready_is_next(scanner, lines) && ends(lines),
        Err(error) => fails(lines, error),
    }
}

/// A text, how many bytes the pieces of it have at most, and in how many bytes the lines end that may be passed over.
#[derive(Drop)]
struct Cuts<'t>(&'t [u8], usize, usize);

impl Cuts<'_> {
    /// Whether the text in pieces, of which each ends at random, is read as the reader reads on.
    fn are_alike(
        &self,
        alloc: Global,
        dice: &mut Dice,
        scanner: &mut Scanner,
        lines: &mut Lines<'_>,
    ) -> bool
        requires positive { 0 < self.now.1 }
        requires open_yet { scanner.old.ended ≡ false }
    {
        let mut rest = self.0;
        for _ in 0..self.0.len() {
            let len = (dice.below(self.1) + 1).min(rest.len());
            if let Some(alike) = piece_is_alike(alloc, scanner, lines, &rest[..len], self.2) {
                return alike;
            }
            rest = &rest[len..];
        }
        end_is_alike(alloc, scanner, lines)
    }
}

/// Whether a text in these pieces is read as it is whole.
fn scans_alike(alloc: Global, dice: &mut Dice, cuts: Cuts<'_>) -> bool
    requires { 0 < cuts.1 }
{
    match (begun(alloc), Lines::new(alloc, cuts.0)) {
        (Ok(mut scanner), Ok(mut lines)) => {
            cuts.are_alike(alloc, dice, &mut scanner, &mut lines)
        }
        _ => false,
    }
}

/// Whether a reader that passes over lines, as far as they end in so many bytes, and then gives one, reads as another that gives all.
/// The answer is none where more may come.
fn next_is_alike(passing: &mut Lines<'_>, giving: &mut Lines<'_>, ahead: usize) -> Option<bool> {
    let start = passing.offset() as usize;
    passing.pass_lines(start.saturating_add(ahead));
    if !comes_to(giving, passing.offset(), passing.line()) {
        return Some(false);
    }
    match passing.next_unit() {
        Ok(Some(unit)) if gives(giving, &unit) => None,
        Ok(Some(_)) => Some(false),
        Ok(None) => Some(ends(giving)),
        Err(error) => Some(fails(giving, error)),
    }
}

/// Whether it does so up to the text's end, or its fault.
fn rest_is_alike(dice: &mut Dice, passing: &mut Lines<'_>, giving: &mut Lines<'_>) -> bool {
    for _ in 0..LONGEST {
        if let Some(alike) = next_is_alike(passing, giving, dice.below(90)) {
            return alike;
        }
    }
    false
}

/// Whether a text is read alike where lines are passed over.
fn passes_alike(alloc: Global, dice: &mut Dice, text: &[u8]) -> bool {
    match (Lines::new(alloc, text), Lines::new(alloc, text)) {
        (Ok(mut passing), Ok(mut giving)) => rest_is_alike(dice, &mut passing, &mut giving),
        _ => false,
    }
}

/// Whether the text of this number is read alike: byte by byte, in short pieces and in long ones, whole, and with lines passed over.
fn is_alike(alloc: Global, number: u64) -> bool {
    let mut dice = Dice::new(number);
    match made_text(alloc, &mut dice) {
        Ok(text) => {
            let text = text.as_slice();
            scans_alike(alloc, &mut dice, Cuts(text, 1, 0))
                && scans_alike(alloc, &mut dice, Cuts(text, 8, 0))
                && scans_alike(alloc, &mut dice, Cuts(text, 90, 0))
                && scans_alike(alloc, &mut dice, Cuts(text, LONGEST, 0))
                && scans_alike(alloc, &mut dice, Cuts(text, 90, 40))
                && scans_alike(alloc, &mut dice, Cuts(text, LONGEST, LONGEST))
                && passes_alike(alloc, &mut dice, text)
        }
        Err(_) => false,
    }
}

#[test]
fn cuts_change_no_token(rt: HostRuntime) -> Result<(), Fail> {
    for number in FIRST..FIRST + TEXTS {
        let alloc = rt.alloc();
        if !is_alike(alloc, number) && !(was_refused(alloc) && is_alike(alloc, number)) {
            return Err(Fail::new(format_args!("the text of number {number} is not read alike")));
        }
    }
    Ok(())
}
