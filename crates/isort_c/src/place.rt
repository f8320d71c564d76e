//! The section of a module.
ghost use Rattle.std.specs.Prelude.{◌≡◌};
ghost use Rattle.isort_settings.specs.Sections.{section_in};
ghost use Rattle.isort_settings.specs.Values.{values};
ghost use Rattle.isort_c.specs.Places.{AnswersPlace, TellsSection};
ghost use Rattle.isort_c.specs.Readings.{reading};

use crate::answer::{ARGUMENT, Answer, SAME};
use crate::buffer::fill;
use crate::settings::read;
use isort_settings::Settings;
use std::alloc::Global;
use std::str;

/// Tells the section of the module of this name, with the section's name in the buffer.
pub fn tell_section(module_name: &str, settings: &Settings, out: &mut [u8]) -> Answer
    ensures { TellsSection (values settings.now) (section_in (values settings.now) module_name.now)
        result out.old out.new }
{
    let section = settings.section_of(module_name);
    let name = settings.section_name(section).as_bytes();
    fill(name, out);
    let mut answer = Answer::plain(SAME);
    answer.section = section.number();
    answer.size = name.len();
    answer
}

/// The section of the module of this name, by its number in `section` and by its name, under the settings that the text
/// of a `pyproject.toml` stands for, with the profile of this number.
///
/// `SAME`: the section's name has `size` bytes. It stands at the beginning of `out` where it has so many bytes, and else
/// `out` is as it was. After every other answer it is as it was. `ARGUMENT`: the module is not UTF-8, or no profile has
/// the number.
#[unsafe(no_mangle)]
pub extern "C" fn fihroste_place(
    alloc: Global,
    name: &[u8],
    settings: &[u8],
    profile: u32,
    out: &mut [u8],
) -> Answer
    ensures { AnswersPlace name.now (reading settings.now profile) result out.old out.new }
{
    let Ok(module_name) = str::from_utf8(name) else {
        return Answer::plain(ARGUMENT);
    };
    match read(alloc, settings, profile) {
        Ok(reading) => tell_section(module_name, &reading.settings, out),
        Err(answer) => answer,
    }
}
