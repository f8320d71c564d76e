//! The lines that tell of errors and of refused settings.
ghost use Rattle.std.specs.Prelude.{◌≡◌, IfOk, IfErr, string_bytes};
ghost use Rattle.isort_cmd.specs.FaultText.{error_line};
ghost use Rattle.isort_cmd.specs.Reported.{settings_line};

use crate::error::RunError;
use isort_settings::SettingsError;
use std::alloc::Global;

/// The line that tells that memory ran out where no file is to blame, with its line feed.
pub const OUT_OF_MEMORY: &str = "isort: R5 out of memory\n";

/// The line that tells of an error of the file at `path`, with its line feed. A fault gives the file, the line from
/// 1, and what is wrong there; every other error gives the program's name, the file, and what went wrong.
///
/// The only error is `Memory`.
pub fn fault_text(alloc: Global, path: &str, error: &RunError) -> Result<String, RunError>
    ensures line { IfOk result (λ text. string_bytes text ≡ error_line path.now error.now) }
    ensures memory { IfErr result (λ e. e ≡ RunError.Memory) }
{
    let words = error.words();
    if let RunError::Fault(fault) = *error {
        let line = fault.line;
        return Ok(format!(in alloc; "{path}:{line}: {words}\n")?);
    }
    Ok(format!(in alloc; "isort: {path}: {words}\n")?)
}

/// The line that tells why settings are refused, with its line feed.
///
/// The only error is `Memory`.
pub fn settings_text(alloc: Global, error: &SettingsError) -> Result<String, RunError>
    ensures line { IfOk result (λ text. string_bytes text ≡ settings_line error.now) }
    ensures memory { IfErr result (λ e. e ≡ RunError.Memory) }
{
    let line = match error {
        SettingsError::Memory => OUT_OF_MEMORY,
        SettingsError::BadToml => "isort: settings: S1 not TOML\n",
        SettingsError::BadValue(key) => {
            let name = key.name();
            return Ok(format!(in alloc; "isort: settings: S2 bad value for {name}\n")?);
        }
        SettingsError::UnknownProfile => "isort: settings: S3 unknown profile\n",
        SettingsError::UnsupportedMode => "isort: settings: S4 unsupported multi_line_output\n",
    };
    Ok(String::from_str(alloc, line)?)
}
