//! Reading a `pyproject.toml` down to the table `[tool.isort]`.
ghost use Rattle.std.specs.Prelude.{◌≡◌, ◌≢◌, IfOk, IfErr, Ok, Err, filter, map, not, option_map, string_bytes, unwrap_or};
ghost use Rattle.toml.specs.Data.{get_member, no_members};
ghost use Rattle.toml.specs.View.{view, table_view};
ghost use Rattle.isort_settings.specs.Keys.{Ascends};
ghost use Rattle.isort_settings.specs.Pyproject.{document_of, table_in, profile_of, names_of, is_key};
ghost use Rattle.isort_settings.specs.SectionNames.{list_key};

use crate::error::SettingsError;
use crate::key::SettingKey;
use crate::own_key::OwnKey;
use crate::profile::Profile;
use crate::value::push_copy;
use std::alloc::{AllocError, Global};
use toml::{Table, Value};

/// The table that the text is. Whatever else it is than TOML in UTF-8 is refused.
pub fn document(alloc: Global, text: &[u8]) -> Result<Table, SettingsError>
    ensures ok { IfOk result (λ t. document_of text.now ≡ Ok (table_view t)) }
    ensures refused { IfErr result (λ e. e ≢ SettingsError.Memory → document_of text.now ≡ Err e) }
{
    match toml::table_from_slice(alloc, text) {
        Ok(table) => Ok(table),
        Err(error) if error.is_memory() => Err(SettingsError::Memory),
        Err(_) => Err(SettingsError::BadToml),
    }
}

/// The value under a name, if the name is there.
pub fn member<'t>(table: &'t Table, name: &str) -> Option<&'t Value>
    ensures { option_map (λ v. view v.now) result ≡ get_member name.now (table_view table.now) }
{
    table.get(name)
}

/// The table `isort` in the table `tool`, if both are there.
pub fn settings_table(document: &Table) -> Result<Option<&Table>, SettingsError>
    ensures ok { IfOk result (λ t. table_in (table_view document.now)
        ≡ Ok (unwrap_or (option_map (λ m. table_view m.now) t) no_members)) }
    ensures refused { IfErr result (λ e. table_in (table_view document.now) ≡ Err e) }
{
    let Some(tool) = member(document, "tool") else {
        return Ok(None);
    };
    let Some(tool) = tool.as_table() else {
        return Err(SettingsError::BadValue(SettingKey::Tool));
    };
    let Some(isort) = member(tool, "isort") else {
        return Ok(None);
    };
    match isort.as_table() {
        Some(table) => Ok(Some(table)),
        None => Err(SettingsError::BadValue(SettingKey::ToolIsort)),
    }
}

/// The profile that is handed in, or else the one that the table names, if it names one.
pub fn chosen_profile(
    handed_in: Option<Profile>,
    table: &Table,
) -> Result<Option<Profile>, SettingsError>
    ensures { result ≡ profile_of handed_in (table_view table.now) }
{
    if handed_in.is_some() {
        return Ok(handed_in);
    }
    let Some(value) = member(table, SettingKey::Profile.name()) else {
        return Ok(None);
    };
    let Some(name) = value.as_str() else {
        return Err(SettingsError::BadValue(SettingKey::Profile));
    };
    Ok(Some(Profile::read(name)?))
}

/// The keys of the lists of own sections.
fn own_keys(alloc: Global, own_names: &[String]) -> Result<Vec<OwnKey>, AllocError>
    ensures { IfOk result (λ keys. keys.items ≡ map list_key (map string_bytes own_names.now)) }
{
    let mut keys = Vec::new(alloc);
    for name in own_names {
        keys.push(OwnKey::of_section(alloc, name.as_str())?)?;
    }
    Ok(keys)
}

/// Whether the name is a key, where these are the keys of the lists of own sections.
fn is_key(own_keys: &[OwnKey], name: &str) -> bool
    ensures { result ≡ is_key own_keys.now name.now }
{
    SettingKey::is_known(name) || own_keys.iter().any(|key| key.as_str() == name)
}

/// The names in the table that are no key, where these are the keys of the lists of own sections.
fn other_names(alloc: Global, table: &Table, own_keys: &[OwnKey]) -> Result<Vec<String>, AllocError>
    ensures names { IfOk result (λ v. map string_bytes v.items
        ≡ filter (λ name. not (is_key own_keys.now name)) (names_of (table_view table.now))) }
    ensures ascend { IfOk result (λ v. Ascends (map string_bytes v.items)) }
{
    let mut unknown = Vec::new(alloc);
    for name in table.keys() {
        if !is_key(own_keys, name.as_str()) {
            push_copy(alloc, &mut unknown, name.as_str())?;
        }
    }
    Ok(unknown)
}

/// The names in the table that are no key, where these are the names of the own sections.
pub fn unknown_keys(
    alloc: Global,
    table: &Table,
    own_names: &[String],
) -> Result<Vec<String>, AllocError>
    ensures names { IfOk result (λ v. map string_bytes v.items
        ≡ filter (λ name. not (is_key (map list_key (map string_bytes own_names.now)) name))
        (names_of (table_view table.now))) }
    ensures ascend { IfOk result (λ v. Ascends (map string_bytes v.items)) }
{
    let own_keys = own_keys(alloc, own_names)?;
    other_names(alloc, table, own_keys.as_slice())
}
