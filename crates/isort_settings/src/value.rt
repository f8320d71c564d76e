//! A reader for each kind of value that a key may have: nothing where the value is refused.
ghost use Rattle.std.specs.Prelude.{◌≡◌, ◌≤◌, [], ◌∷◌, ◌++◌, IfOk, OnOk, length, map, option_and_then};
ghost use Rattle.std.specs.Prelude.{option_copied, option_map, string_bytes};
ghost use Rattle.toml.specs.Data.{as_array, as_integer, as_str};
ghost use Rattle.toml.specs.View.{view};
ghost use Rattle.isort_settings.specs.Modules.{modules_of};
ghost use Rattle.isort_settings.specs.Reading.{entry_of, entries_of, count_within, whole_within};
ghost use Rattle.isort_settings.specs.SectionNames.{section_named};

use crate::indexed_modules::IndexedModules;
use crate::limits::Limits;
use crate::modules::Modules;
use crate::section::Section;
use crate::section_names::section_named;
use std::alloc::{AllocError, Global};
use toml::Value;

/// The whole number, if it is within the limits.
pub fn within(n: i64, limits: Limits<u32>) -> Option<u32>
    ensures { result ≡ count_within limits.least limits.most n }
{
    match u32::try_from(n) {
        Ok(n) if limits.contain(n) => Some(n),
        _ => None,
    }
}

/// An entry of a list: a text without `*` and `?`.
fn entry(value: &Value) -> Option<&str>
    ensures { option_copied result ≡ entry_of (view value.now) }
{
    let text = value.as_str()?;
    if text.bytes().any(|b| b == b'*' || b == b'?') {
        None
    } else {
        Some(text)
    }
}

/// A whole number within the limits.
pub fn read_count(value: &Value, limits: Limits<u32>) -> Option<u32>
    ensures { result ≡ option_and_then (count_within limits.least limits.most)
        (as_integer (view value.now)) }
{
    within(value.as_integer()?, limits)
}

/// A whole number of either sign within the limits.
pub fn read_whole(value: &Value, limits: Limits<i32>) -> Option<i32>
    ensures { result ≡ option_and_then (whole_within limits.least limits.most)
        (as_integer (view value.now)) }
{
    match i32::try_from(value.as_integer()?) {
        Ok(n) if limits.least <= n && n <= limits.most => Some(n),
        _ => None,
    }
}

/// A section by its name, where these are the names of the own ones.
pub fn read_section(value: &Value, own: &[String]) -> Option<Section>
    requires { length own.now ≤ 256 }
    ensures { result ≡ option_and_then (section_named (map string_bytes own.now))
        (as_str (view value.now)) }
{
    section_named(own, value.as_str()?)
}

/// A list of modules.
pub fn read_modules(alloc: Global, value: &Value) -> Result<Option<Modules>, AllocError>
    ensures { IfOk result (λ list. option_map modules_of list
        ≡ option_and_then entries_of (as_array (view value.now))) }
{
    match texts(alloc, value)? {
        Some(texts) => Ok(Some(Modules::Indexed(IndexedModules::new(alloc, texts)?))),
        None => Ok(None),
    }
}

/// The entries of a list of texts, if the value is one.
pub fn texts(alloc: Global, value: &Value) -> Result<Option<Vec<String>>, AllocError>
    ensures { IfOk result (λ list. option_map (λ l. map string_bytes l.items) list
        ≡ option_and_then entries_of (as_array (view value.now))) }
{
    let Some(items) = value.as_array() else {
        return Ok(None);
    };
    let mut list = Vec::new(alloc);
    for item in items {
        let Some(text) = entry(item) else {
            return Ok(None);
        };
        push_copy(alloc, &mut list, text)?;
    }
    Ok(Some(list))
}

/// Puts a copy of a text after the others.
pub fn push_copy(alloc: Global, texts: &mut Vec<String>, text: &str) -> Result<(), AllocError>
    ensures { OnOk result (map string_bytes texts.new.items
        ≡ map string_bytes texts.old.items ++ text.now ∷ []) }
{
    texts.push(String::from_str(alloc, text)?)?;
    Ok(())
}
