//! What settings say.
ghost use Rattle.std.specs.Prelude.{◌≡◌, ◌⊎◌, Ok, Err, IfOk, IfErr, length, map, string_bytes};
ghost use Rattle.std.specs.Arc.{arc_value};
ghost use Rattle.isort_settings.specs.Values.{values};
ghost use Rattle.isort_c.specs.Answers.{plain_answer, filled};
ghost use Rattle.isort_c.specs.Kept.{read_values};
ghost use Rattle.isort_c.specs.Readings.{bad_key_name, profile_at, refused_answer, reading, AnswersSettings, TellsAllNames};
ghost use Rattle.isort_c.specs.Records.{name_records};
ghost use Rattle.isort_c.specs.declared.answer.TheConstants.{MEMORY};

use crate::answer::{ARGUMENT, Answer, MEMORY, SAME, SETTINGS};
use crate::buffer::fill;
use crate::key::number_of;
use crate::record::push_text;
use crate::stored::Reading;
use isort_settings::{Profile, Settings, SettingsError};
use std::alloc::{AllocError, Global};
use std::sync::Arc;

/// The profile of a number, or none for 0.
fn profile_at(number: u32) -> Result<Option<Profile>, Answer>
    ensures { result ≡ profile_at number }
{
    match number {
        0 => Ok(None),
        1 => Ok(Some(Profile::Black)),
        _ => Err(Answer::plain(ARGUMENT)),
    }
}

/// The answer where settings are refused.
fn refused(error: &SettingsError) -> Answer
    ensures { result ≡ refused_answer error.now }
{
    let mut answer = Answer::plain(SETTINGS);
    match error {
        SettingsError::Memory => return Answer::plain(MEMORY),
        SettingsError::BadToml => answer.label = 1,
        SettingsError::BadValue(key) => {
            answer.label = 2;
            answer.key = number_of(key);
        }
        SettingsError::UnknownProfile => answer.label = 3,
        SettingsError::UnsupportedMode => answer.label = 4,
    }
    answer
}

/// A reading of these settings and names, which handles can share; or the answer where memory ran out.
fn shared(alloc: Global, settings: Settings, unknown: Vec<String>) -> Result<Arc<Reading>, Answer>
    ensures ok { IfOk result (λ r.
        read_values (arc_value r) ≡ (values settings, map string_bytes unknown.items)) }
    ensures err { IfErr result (λ a. a ≡ plain_answer MEMORY) }
{
    match Arc::new(alloc, Reading { settings, unknown }) {
        Ok(reading) => Ok(reading),
        Err(_) => Err(Answer::plain(MEMORY)),
    }
}

/// The settings that the text of a `pyproject.toml` stands for, with the profile of this number, and the names of its
/// unknown keys; or the answer where there are none.
pub fn read(alloc: Global, text: &[u8], profile: u32) -> Result<Arc<Reading>, Answer>
    ensures ok { IfOk result (λ r. reading text.now profile ≡ Ok (read_values (arc_value r))) }
    ensures err { IfErr result (λ a.
        (reading text.now profile ≡ Err a) ⊎ (a ≡ plain_answer MEMORY)) }
{
    let profile = profile_at(profile)?;
    match Settings::from_pyproject(alloc, text, profile) {
        Ok((settings, unknown)) => shared(alloc, settings, unknown),
        Err(error) => Err(refused(&error)),
    }
}

/// The records of the names.
fn records_of(alloc: Global, names: &[String]) -> Result<Vec<u8>, AllocError>
    ensures { IfOk result (λ v. v.items ≡ name_records (map string_bytes names.now)) }
{
    let mut records = Vec::new(alloc);
    for name in names {
        push_text(name.as_str(), &mut records)?;
    }
    Ok(records)
}

/// Tells the names of unknown keys.
pub fn tell_names(alloc: Global, names: &[String], out: &mut [u8]) -> Answer
    ensures { TellsAllNames (map string_bytes names.now) result out.old out.new }
{
    let Ok(records) = records_of(alloc, names) else {
        return Answer::plain(MEMORY);
    };
    fill(&records, out);
    let mut answer = Answer::plain(SAME);
    answer.size = records.len();
    answer
}

/// The answer where settings are refused, with the name of the key whose value is bad.
fn tell_refusal(error: &SettingsError, out: &mut [u8]) -> Answer
    ensures answer { result
        ≡ record (refused_answer error.now) { size = length (bad_key_name error.now) } }
    ensures out { out.new ≡ filled (bad_key_name error.now) out.old }
{
    let mut answer = refused(error);
    if let SettingsError::BadValue(key) = error {
        let name = key.name().as_bytes();
        fill(name, out);
        answer.size = name.len();
    }
    answer
}

/// Tells whether the settings are refused, and which of their keys are unknown.
///
/// `SAME`: the records of the unknown keys' names have `size` bytes; `SETTINGS` at S2: the name of the key whose value is
/// bad. They stand at the beginning of `out` where it has so many bytes, and else `out` is as it was. After every other
/// answer it is as it was.
#[unsafe(no_mangle)]
pub extern "C" fn fihroste_settings(
    alloc: Global,
    settings: &[u8],
    profile: u32,
    out: &mut [u8],
) -> Answer
    ensures { AnswersSettings settings.now (profile_at profile) result out.old out.new }
{
    let profile = match profile_at(profile) {
        Ok(profile) => profile,
        Err(answer) => return answer,
    };
    match Settings::from_pyproject(alloc, settings, profile) {
        Ok((settings, unknown)) => {
            drop(settings);
            tell_names(alloc, &unknown, out)
        }
        Err(error) => tell_refusal(&error, out),
    }
}
