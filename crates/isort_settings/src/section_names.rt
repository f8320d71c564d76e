//! The names that `sections` may list, and the sections that they give.
ghost use Rattle.std.specs.Prelude.{◌≡◌, ◌≤◌, ◌++◌, not, true, IfOk, OnOk, filter, length, map, string_bytes};
ghost use Rattle.std.specs.List.{list_all, list_any};
ghost use Rattle.std.specs.Str.{bytes_eq, str_eq_ignore_ascii_case};
ghost use Rattle.isort_settings.specs.FiveSections.{section_spelling, usual_order};
ghost use Rattle.isort_settings.specs.SectionNames.{is_plain_name, is_one_of_five, is_section_name, are_apart};
ghost use Rattle.isort_settings.specs.SectionNames.{own_among, are_sections, section_named, order_listed};

use crate::key::SettingKey;
use crate::modules::{is_among, place_of};
use crate::own_key::OwnKey;
use crate::section::Section;
use crate::value::push_copy;
use std::alloc::{AllocError, Global};

/// How many own sections there may be.
const MAX_OWN: usize = 64;

/// Whether two texts are the same when the case of ASCII letters is ignored.
fn is_same_word(a: &str, b: &str) -> bool
    ensures { result ≡ str_eq_ignore_ascii_case a.now b.now }
{
    a.eq_ignore_ascii_case(b)
}

/// Whether the name has ASCII letters, digits and `_` alone, and first a letter.
fn is_plain_name(name: &str) -> bool
    ensures { result ≡ is_plain_name name.now }
{
    match name.as_bytes().first() {
        Some(first) if first.is_ascii_alphabetic() => {
            name.bytes().all(|b| b.is_ascii_alphanumeric() || b == b'_')
        }
        _ => false,
    }
}

/// Whether the name is one of the five when the case of ASCII letters is ignored.
fn is_one_of_five(name: &str) -> bool
    ensures { result ≡ is_one_of_five name.now }
{
    Section::usual_order()
        .iter()
        .any(|section| is_same_word(section.spelling(), name))
}

/// Whether the name may be listed: one of the five by its exact spelling, or a name that an own section may have.
fn is_section_name(alloc: Global, name: &str) -> Result<bool, AllocError>
    ensures { IfOk result (λ answer. answer ≡ is_section_name name.now) }
{
    if Section::spelled(name).is_some() {
        return Ok(true);
    }
    if !is_plain_name(name) || is_one_of_five(name) {
        return Ok(false);
    }
    let key = OwnKey::of_section(alloc, name)?;
    Ok(!SettingKey::is_known(key.as_str()))
}

/// Whether each name may be listed.
fn are_section_names(alloc: Global, names: &[String]) -> Result<bool, AllocError>
    ensures { IfOk result (λ answer. answer
        ≡ list_all is_section_name (map string_bytes names.now)) }
{
    for name in names {
        if !is_section_name(alloc, name.as_str())? {
            return Ok(false);
        }
    }
    Ok(true)
}

/// Whether the name is no other's, whatever the case of its ASCII letters.
fn is_apart(name: &str, others: &[String]) -> bool
    ensures { result ≡ not (list_any (λ other. str_eq_ignore_ascii_case other name.now)
        (map string_bytes others.now)) }
{
    !others
        .iter()
        .any(|other| is_same_word(other.as_str(), name))
}

/// Whether no name comes twice, whatever the case of its ASCII letters.
fn are_apart(names: &[String]) -> bool
    ensures { result ≡ are_apart (map string_bytes names.now) }
{
    for place in 0..names.len() {
        if !is_apart(names[place].as_str(), &names[place + 1..]) {
            return false;
        }
    }
    true
}

/// The own names among some names.
pub fn own_among(alloc: Global, names: &[String]) -> Result<Vec<String>, AllocError>
    ensures { IfOk result (λ own. map string_bytes own.items
        ≡ own_among (map string_bytes names.now)) }
{
    let mut own = Vec::new(alloc);
    for name in names {
        if Section::spelled(name.as_str()).is_none() {
            push_copy(alloc, &mut own, name.as_str())?;
        }
    }
    Ok(own)
}

/// Whether the names may be listed together, where these are the own ones among them.
pub fn are_sections(alloc: Global, names: &[String], own: &[String]) -> Result<bool, AllocError>
    requires { map string_bytes own.now ≡ own_among (map string_bytes names.now) }
    ensures answer { IfOk result (λ answer. answer ≡ are_sections (map string_bytes names.now)) }
    ensures few { IfOk result (λ answer. answer ≡ true → length own.now ≤ 64) }
{
    Ok(are_section_names(alloc, names)? && own.len() <= MAX_OWN && are_apart(names))
}

/// The section that a text names where these are the own names: one of the five, or an own one by its exact spelling.
pub fn section_named(own: &[String], text: &str) -> Option<Section>
    requires { length own.now ≤ 256 }
    ensures { result ≡ section_named (map string_bytes own.now) text.now }
{
    if let Some(section) = Section::spelled(text) {
        return Some(section);
    }
    match place_of(own, text) {
        Some(place) => Some(Section::Own(place as u8)),
        None => None,
    }
}

/// The sections that names list, and after them those of the five that are missing, in their usual order.
pub fn order_listed(
    alloc: Global,
    names: &[String],
    own: &[String],
) -> Result<Vec<Section>, AllocError>
    requires few { length own.now ≤ 256 }
    requires own { map string_bytes own.now ≡ own_among (map string_bytes names.now) }
    ensures { IfOk result (λ order. order.items ≡ order_listed (map string_bytes names.now)) }
{
    let mut order = Vec::new(alloc);
    for name in names {
        if let Some(section) = section_named(own, name.as_str()) {
            order.push(section)?;
        }
    }
    add_missing(&mut order, names)?;
    Ok(order)
}

/// Whether one of the names spells the section.
fn is_listed(section: Section, names: &[String]) -> bool
    ensures { result
        ≡ list_any (λ name. bytes_eq name (section_spelling section)) (map string_bytes names.now) }
{
    is_among(names, section.spelling())
}

/// Adds those of the five that no name spells, in their usual order.
fn add_missing(order: &mut Vec<Section>, names: &[String]) -> Result<(), AllocError>
    ensures { OnOk result (order.new.items ≡ order.old.items
        ++ filter (λ s. not (list_any (λ name. bytes_eq name (section_spelling s))
        (map string_bytes names.now))) usual_order) }
{
    for section in Section::usual_order() {
        if !is_listed(*section, names) {
            order.push(*section)?;
        }
    }
    Ok(())
}
