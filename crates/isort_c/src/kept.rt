//! Settings that are read once and kept for calls.
ghost use Rattle.std.specs.Prelude.{◌≡◌, ◌≢◌, Ok, Err};
ghost use Rattle.std.specs.Arc.{arc_value};
ghost use Rattle.isort_c.specs.Answers.{plain_answer};
ghost use Rattle.isort_c.specs.Kept.{kept_reading, read_values, KeepsReading, TellsUnknown};
ghost use Rattle.isort_c.specs.Places.{AnswersPlace};
ghost use Rattle.isort_c.specs.Readings.{reading};
ghost use Rattle.isort_c.specs.Sorting.{AnswersSort, AnswersCheck};
ghost use Rattle.isort_c.specs.declared.answer.TheConstants.{MEMORY, ARGUMENT};

use crate::answer::{ARGUMENT, Answer, MEMORY, SAME};
use crate::handle::KeptSettings;
use crate::place::tell_section;
use crate::settings::{read, tell_names};
use crate::sort::{check_under, sort_under};
use crate::stored::{Reading, Stored};
use std::alloc::Global;
use std::str;
use std::sync::Arc;

/// Has the handle keep this reading, unless memory runs out.
fn keep(alloc: Global, reading: Arc<Reading>, kept: &mut KeptSettings) -> Answer
    ensures { KeepsReading (Ok (read_values (arc_value reading))) result
        (kept_reading kept.old) (kept_reading kept.new) }
{
    match Box::new(alloc, Stored { reading }) {
        Ok(stored) => {
            *kept = KeptSettings::of(stored);
            Answer::plain(SAME)
        }
        Err(_) => Answer::plain(MEMORY),
    }
}

/// Reads the settings that the text of a `pyproject.toml` stands for, with the profile of this number, and keeps them.
///
/// `SAME`: they are kept, and what was kept before is given back. After every other answer the handle keeps what it kept.
#[unsafe(no_mangle)]
pub extern "C" fn fihroste_settings_read(
    alloc: Global,
    settings: &[u8],
    profile: u32,
    kept: &mut KeptSettings,
) -> Answer
    ensures { KeepsReading (reading settings.now profile) result
        (kept_reading kept.old) (kept_reading kept.new) }
{
    match read(alloc, settings, profile) {
        Ok(reading) => keep(alloc, reading, kept),
        Err(answer) => answer,
    }
}

/// Makes `other` keep what `kept` keeps, without reading it again, so that each can be lent to a call at the same time.
///
/// `SAME`: it is kept, and what `other` kept before is given back. After every other answer `other` keeps what it kept.
/// `ARGUMENT`: `kept` keeps nothing.
#[unsafe(no_mangle)]
pub extern "C" fn fihroste_settings_share(
    alloc: Global,
    kept: &mut KeptSettings,
    other: &mut KeptSettings,
) -> Answer
    ensures shared { KeepsReading (kept_reading kept.old) result
        (kept_reading other.old) (kept_reading other.new) }
    ensures unchanged { kept_reading kept.new ≡ kept_reading kept.old }
{
    let Some(stored) = kept.take(alloc) else {
        return Answer::plain(ARGUMENT);
    };
    let reading = Arc::try_clone(&stored.reading);
    *kept = KeptSettings::of(stored);
    match reading {
        Ok(reading) => keep(alloc, reading, other),
        Err(_) => Answer::plain(MEMORY),
    }
}

/// Gives back what the handle keeps. It keeps nothing then.
#[unsafe(no_mangle)]
pub extern "C" fn fihroste_settings_free(alloc: Global, kept: &mut KeptSettings)
    ensures { kept_reading kept.new ≡ Err (plain_answer ARGUMENT) }
{
    drop(kept.take(alloc));
}

/// Tells the names of the unknown keys that were read.
///
/// `SAME`: their records have `size` bytes. They stand at the beginning of `out` where it has so many bytes, and else `out` is
/// as it was. After every other answer it is as it was. `ARGUMENT`: the handle keeps nothing.
#[unsafe(no_mangle)]
pub extern "C" fn fihroste_settings_unknown(
    alloc: Global,
    kept: &mut KeptSettings,
    out: &mut [u8],
) -> Answer
    ensures told { TellsUnknown (kept_reading kept.old) result out.old out.new }
    ensures unchanged { kept_reading kept.new ≡ kept_reading kept.old }
{
    let Some(stored) = kept.take(alloc) else {
        return Answer::plain(ARGUMENT);
    };
    let answer = tell_names(alloc, &stored.reading.unknown, out);
    *kept = KeptSettings::of(stored);
    answer
}

/// What `fihroste_sort` does with the text of the settings that are kept. `ARGUMENT`: the handle keeps nothing.
#[unsafe(no_mangle)]
pub extern "C" fn fihroste_sort_kept(
    alloc: Global,
    text: &[u8],
    kept: &mut KeptSettings,
    out: &mut [u8],
) -> Answer
    ensures sorted { AnswersSort text.now (kept_reading kept.old) result out.old out.new }
    ensures unchanged { kept_reading kept.new ≡ kept_reading kept.old }
{
    let Some(stored) = kept.take(alloc) else {
        return Answer::plain(ARGUMENT);
    };
    let answer = sort_under(alloc, text, &stored.reading.settings, out);
    *kept = KeptSettings::of(stored);
    answer
}

/// What `fihroste_check` answers with the text of the settings that are kept. `ARGUMENT`: the handle keeps nothing.
#[unsafe(no_mangle)]
pub extern "C" fn fihroste_check_kept(alloc: Global, text: &[u8], kept: &mut KeptSettings) -> Answer
    ensures checked { AnswersCheck text.now (kept_reading kept.old) result }
    ensures unchanged { kept_reading kept.new ≡ kept_reading kept.old }
{
    let Some(stored) = kept.take(alloc) else {
        return Answer::plain(ARGUMENT);
    };
    let answer = check_under(alloc, text, &stored.reading.settings);
    *kept = KeptSettings::of(stored);
    answer
}

/// What `fihroste_place` does with the text of the settings that are kept. It takes no memory. `ARGUMENT`: the module is not
/// UTF-8, or the handle keeps nothing.
#[unsafe(no_mangle)]
pub extern "C" fn fihroste_place_kept(
    alloc: Global,
    name: &[u8],
    kept: &mut KeptSettings,
    out: &mut [u8],
) -> Answer
    ensures placed { AnswersPlace name.now (kept_reading kept.old) result out.old out.new }
    ensures answered { result.status ≢ MEMORY }
    ensures unchanged { kept_reading kept.new ≡ kept_reading kept.old }
{
    let Ok(module_name) = str::from_utf8(name) else {
        return Answer::plain(ARGUMENT);
    };
    let Some(stored) = kept.take(alloc) else {
        return Answer::plain(ARGUMENT);
    };
    let answer = tell_section(module_name, &stored.reading.settings, out);
    *kept = KeptSettings::of(stored);
    answer
}
