//! The settings of a run that sorts.
use crate::MAX_BYTES;
use crate::messages::{tell, tell_error, tell_no_memory, told_as};
use isort_cmd::{
    Action, Metered, Profile, RunError, Settings, SettingsError, read_text, settings_text,
};
use std::fs::File;
use std::io::ErrorKind;

/// The settings file of a folder, where the command line names none.
const SETTINGS_FILE: &str = "pyproject.toml";

/// Why there are no settings.
#[derive(Drop)]
pub(crate) enum Refusal<'a> {
    /// The settings file at this path could not be read.
    File(&'a str, RunError),
    /// Something in the settings is wrong.
    Settings(SettingsError),
}

impl From<SettingsError> for Refusal<'_> {
    fn from(error: SettingsError) -> Self {
        Refusal::Settings(error)
    }
}

/// Tells why there are no settings.
pub(crate) fn tell_refusal(rt: &HostRuntime, refusal: &Refusal<'_>) {
    match refusal {
        Refusal::File(path, error) => tell_error(rt, path, error),
        Refusal::Settings(error) => match settings_text(rt.alloc(), error) {
            Ok(line) => tell(rt, line.as_str()),
            Err(_) => tell_no_memory(rt),
        },
    }
}

/// The settings that the action asks for: those of the profile, then what the settings file says, then what the command line
/// says. Listing needs no settings, and so reads none.
pub(crate) fn settings_of<'a>(
    rt: &HostRuntime,
    action: &'a Action,
) -> Result<Settings, Refusal<'a>> {
    let Action::Sort {
        settings_file,
        profile,
        line_length,
        multi_line,
        ..
    } = action
    else {
        return Ok(Settings::plain(rt.alloc())?);
    };
    let profile = match profile {
        Some(name) => Some(Profile::read(name.as_str())?),
        None => None,
    };
    let text = settings_bytes(rt, settings_file.as_deref())?;
    let (mut settings, unknown) = Settings::from_pyproject(rt.alloc(), text.as_slice(), profile)?;
    warn_of_unknown_keys(rt, unknown.as_slice());
    if let Some(length) = line_length {
        settings.set_line_length(*length)?;
    }
    if let Some(mode) = multi_line {
        settings.set_mode(*mode)?;
    }
    Ok(settings)
}

/// The bytes of the settings file. The folder's own may be missing, which is as good as an empty one.
fn settings_bytes<'a>(rt: &HostRuntime, named: Option<&'a str>) -> Result<Vec<u8>, Refusal<'a>> {
    let path = named.unwrap_or(SETTINGS_FILE);
    let file = match File::open(rt, path) {
        Ok(file) => file,
        Err(error) if named.is_none() && error.kind() == ErrorKind::NotFound => {
            return Ok(Vec::new(rt.alloc()));
        }
        Err(error) => return Err(Refusal::File(path, told_as(&error, RunError::Read))),
    };
    match read_text(rt.alloc(), &mut Metered::new(file), MAX_BYTES) {
        Ok(text) => Ok(text),
        Err(error) => Err(Refusal::File(path, error)),
    }
}

/// Tells of each key that is none of ours, in the order of their bytes.
fn warn_of_unknown_keys(rt: &HostRuntime, keys: &[String]) {
    for key in keys {
        let _lost = eprintln!(rt; "isort: settings: {key} ignored");
    }
}
