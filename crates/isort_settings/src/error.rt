//! Why settings are refused.
ghost use Rattle.std.specs.Prelude.{◌≡◌};
ghost use Rattle.isort_settings.specs.declared.error.SettingsError.TheVariants.{Memory};

use crate::key::SettingKey;
use std::alloc::AllocError;
use thiserror::Error;

/// Why settings are refused.
#[derive(Debug, Drop, PartialEq, Eq, Error)]
pub enum SettingsError {
    #[error("out of memory")]
    Memory,
    #[error("the settings are not TOML")]
    BadToml,
    #[error("bad value for {}", .0.name())]
    BadValue(SettingKey),
    #[error("unknown profile")]
    UnknownProfile,
    #[error("unsupported wrap mode")]
    UnsupportedMode,
}

impl From<AllocError> for SettingsError {
    ghost from_gives = { λ _ e. e ≡ Memory };

    fn from(_error: AllocError) -> SettingsError {
        SettingsError::Memory
    }
}
