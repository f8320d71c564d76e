//! Sorting and checking.
ghost use Rattle.std.specs.Prelude.{◌≡◌, ◌≢◌, Err};
ghost use Rattle.isort_settings.specs.Values.{values};
ghost use Rattle.isort_c.specs.Readings.{reading};
ghost use Rattle.isort_c.specs.Sorting.{TellsError, TellsSort, left_by, SortsUnder, AnswersSort, ChecksUnder, AnswersCheck};

use crate::answer::{Answer, CHANGED, MEMORY, SAME, SKIPPED};
use crate::buffer::fill;
use crate::settings::read;
use isort_settings::Settings;
use isort_sort::{Outcome, SortError, Sorted, sort_code, sort_outcome};
use std::alloc::Global;

/// The answer at an error of a call that writes nothing.
fn at_error(error: SortError) -> Answer
    requires { error ≢ SortError.Write }
    ensures { TellsError error result }
{
    match error {
        SortError::Memory => Answer::plain(MEMORY),
        SortError::Fault(fault) => Answer::at_fault(fault),
        SortError::Write => unreachable!(),
    }
}

/// Puts the sorted text at the buffer's beginning, where it fits.
fn put(sorted: &Result<Sorted, SortError>, out: &mut [u8]) -> Answer
    requires { sorted.now ≢ Err SortError.Write }
    ensures answer { TellsSort sorted.now result }
    ensures out { out.new ≡ left_by sorted.now out.old }
{
    match sorted {
        Ok(Sorted::Same) => Answer::plain(SAME),
        Ok(Sorted::Skipped) => Answer::plain(SKIPPED),
        Ok(Sorted::Changed(text)) => {
            let bytes = text.as_bytes();
            fill(bytes, out);
            let mut answer = Answer::plain(CHANGED);
            answer.size = bytes.len();
            answer
        }
        Err(error) => at_error(*error),
    }
}

/// Sorts the text under these settings, into the buffer where it fits.
pub fn sort_under(alloc: Global, text: &[u8], settings: &Settings, out: &mut [u8]) -> Answer
    ensures { SortsUnder text.now (values settings.now) result out.old out.new }
{
    put(&sort_code(alloc, text, settings), out)
}

/// Tells whether the text is its own sorted text under these settings.
pub fn check_under(alloc: Global, text: &[u8], settings: &Settings) -> Answer
    ensures { ChecksUnder text.now (values settings.now) result }
{
    match sort_outcome(alloc, text, settings) {
        Ok(Outcome::Same) => Answer::plain(SAME),
        Ok(Outcome::Changed) => Answer::plain(CHANGED),
        Ok(Outcome::Skipped) => Answer::plain(SKIPPED),
        Err(error) => at_error(error),
    }
}

/// Sorts the text under the settings that the text of a `pyproject.toml` stands for, with the profile of this number.
///
/// `CHANGED`: the sorted text has `size` bytes. It stands at the beginning of `out` where `out` has so many, and else
/// `out` is as it was. After every other answer `out` is as it was.
#[unsafe(no_mangle)]
pub extern "C" fn fihroste_sort(
    alloc: Global,
    text: &[u8],
    settings: &[u8],
    profile: u32,
    out: &mut [u8],
) -> Answer
    ensures { AnswersSort text.now (reading settings.now profile) result out.old out.new }
{
    match read(alloc, settings, profile) {
        Ok(reading) => sort_under(alloc, text, &reading.settings, out),
        Err(answer) => answer,
    }
}

/// What `fihroste_sort` answers, with no size: `SAME` says that the text is its own sorted text, `CHANGED` that it isn't, and
/// `SKIPPED` that it asks to be left as it is.
#[unsafe(no_mangle)]
pub extern "C" fn fihroste_check(
    alloc: Global,
    text: &[u8],
    settings: &[u8],
    profile: u32,
) -> Answer
    ensures { AnswersCheck text.now (reading settings.now profile) result }
{
    match read(alloc, settings, profile) {
        Ok(reading) => check_under(alloc, text, &reading.settings),
        Err(answer) => answer,
    }
}
