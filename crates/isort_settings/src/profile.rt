//! The profiles: settings that are named as a whole.
ghost use Rattle.std.specs.Prelude.{◌≡◌};
ghost use Rattle.isort_settings.specs.Reading.{profile_named};

use crate::error::SettingsError;

/// A profile. `Black` is the only one.
#[derive(Clone, Copy, Debug, PartialEq, Eq)]
pub enum Profile {
    Black,
}

impl Profile {
    /// The profile of this name.
    pub fn read(name: &str) -> Result<Profile, SettingsError>
        ensures { result ≡ profile_named name.now }
    {
        if name == "black" {
            Ok(Profile::Black)
        } else {
            Err(SettingsError::UnknownProfile)
        }
    }
}
