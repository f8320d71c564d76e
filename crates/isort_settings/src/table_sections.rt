//! Reading the sections of a table: `sections` itself, and the lists of the own ones.
ghost use Rattle.std.specs.Prelude.{◌≡◌, ◌≤◌, IfOk, IfSome, OnOk, Some, [], ◌∷◌, ◌++◌, length, map, ok_or, option_map, string_bytes};
ghost use Rattle.std.specs.Result.{result_unwrap_or};
ghost use Rattle.toml.specs.View.{table_view};
ghost use Rattle.isort_settings.specs.declared.error.SettingsError.TheVariants.{BadValue};
ghost use Rattle.isort_settings.specs.declared.key.SettingKey.TheVariants.{Sections};
ghost use Rattle.isort_settings.specs.OwnLists.{modules_of_lists};
ghost use Rattle.isort_settings.specs.SectionNames.{five_alone, sections_of};
ghost use Rattle.isort_settings.specs.TableSections.{section_table, sections_in, own_names_in, entries_under, own_list};
ghost use Rattle.isort_settings.specs.TableSections.{first_refused, sections_refused};
ghost use Rattle.isort_settings.specs.TableSections.Steps.{listed_value, lists_refused, bad_key, earliest};

use crate::key::SettingKey;
use crate::own_key::OwnKey;
use crate::own_lists::OwnLists;
use crate::pyproject::member;
use crate::section_names::{are_sections, order_listed, own_among};
use crate::section_order::SectionOrder;
use crate::value::texts;
use std::alloc::{AllocError, Global};
use toml::Table;

/// The sections that `sections` lists.
#[derive(Drop)]
pub struct Listed {
    /// All sections in their order.
    pub order: SectionOrder,
    /// The names of the own ones.
    pub own_names: Vec<String>,
}

impl Listed {
    /// The five alone.
    pub fn five_alone(alloc: Global) -> Listed
        ensures { listed_value result ≡ five_alone }
    {
        Listed {
            order: SectionOrder::Usual,
            own_names: Vec::new(alloc),
        }
    }
}

/// The sections that names list, or nothing where they may not be listed together.
fn sections_named(alloc: Global, names: &[String]) -> Result<Option<Listed>, AllocError>
    ensures sections { IfOk result (λ listed. option_map listed_value listed
        ≡ sections_of (map string_bytes names.now)) }
    ensures few { IfOk result (λ listed. IfSome listed (λ l. length l.own_names.items ≤ 64)) }
{
    let own_names = own_among(alloc, names)?;
    if !are_sections(alloc, names, own_names.as_slice())? {
        return Ok(None);
    }
    let order = order_listed(alloc, names, own_names.as_slice())?;
    Ok(Some(Listed {
        order: SectionOrder::Listed(order),
        own_names,
    }))
}

/// The sections of a table, or nothing where `sections` is refused.
fn read_sections(alloc: Global, table: &Table) -> Result<Option<Listed>, AllocError>
    ensures sections { IfOk result
        (λ listed. ok_or (option_map listed_value listed) (BadValue Sections)
        ≡ section_table (table_view table.now)) }
    ensures few { IfOk result (λ listed. IfSome listed (λ l. length l.own_names.items ≤ 64)) }
{
    let Some(value) = member(table, SettingKey::Sections.name()) else {
        return Ok(Some(Listed::five_alone(alloc)));
    };
    let Some(names) = texts(alloc, value)? else {
        return Ok(None);
    };
    sections_named(alloc, names.as_slice())
}

/// The entries of the list under a key, if it is a list of texts: none where the key isn't there.
fn entries_under(alloc: Global, table: &Table, key: &str) -> Result<Option<Vec<String>>, AllocError>
    ensures { IfOk result (λ list. option_map (λ l. map string_bytes l.items) list
        ≡ entries_under (table_view table.now) key.now) }
{
    match member(table, key) {
        Some(value) => texts(alloc, value),
        None => Ok(Some(Vec::new(alloc))),
    }
}

/// Of two keys, if there are two, the one whose name comes first.
fn earlier(first: Option<SettingKey>, key: SettingKey) -> SettingKey
    ensures { Some (bad_key result)
        ≡ earliest (option_map bad_key first) (Some (bad_key key)) }
{
    match first {
        Some(first) if !key.comes_before(&first) => first,
        _ => key,
    }
}

/// The lists of some own sections.
#[derive(Drop)]
struct ListsRead {
    /// The lists, empty where one is refused.
    lists: Vec<Vec<String>>,
    /// Of the keys that are refused, the one whose name comes first.
    refused: Option<SettingKey>,
}

impl ListsRead {
    /// Reads the lists of the own sections of these names.
    fn read(alloc: Global, table: &Table, names: &[String]) -> Result<ListsRead, AllocError>
        ensures lists { IfOk result (λ r. modules_of_lists r.lists.items
            ≡ map (λ name. result_unwrap_or (own_list (table_view table.now) name) [])
            (map string_bytes names.now)) }
        ensures refused { IfOk result (λ r. option_map bad_key r.refused
            ≡ first_refused (lists_refused (table_view table.now) (map string_bytes names.now))) }
    {
        let mut read = ListsRead {
            lists: Vec::new(alloc),
            refused: None,
        };
        for name in names {
            read.add(alloc, table, name.as_str())?;
        }
        Ok(read)
    }

    /// Adds the list of the own section of a name.
    fn add(&mut self, alloc: Global, table: &Table, name: &str) -> Result<(), AllocError>
        ensures list { OnOk result (modules_of_lists self.new.lists.items
            ≡ modules_of_lists self.old.lists.items
            ++ result_unwrap_or (own_list (table_view table.now) name.now) [] ∷ []) }
        ensures refused { OnOk result (option_map bad_key self.new.refused
            ≡ earliest (option_map bad_key self.old.refused)
            (first_refused (lists_refused (table_view table.now) (name.now ∷ [])))) }
    {
        let key = OwnKey::of_section(alloc, name)?;
        match entries_under(alloc, table, key.as_str())? {
            Some(list) => self.lists.push(list)?,
            None => {
                self.lists.push(Vec::new(alloc))?;
                self.refused = Some(earlier(self.refused.take(), SettingKey::OwnList(key)));
            }
        }
        Ok(())
    }
}

/// The sections of a table.
#[derive(Drop)]
pub struct TableSections {
    /// What `sections` lists, or the five alone where it is refused.
    pub listed: Listed,
    /// The list of each own section, empty where it is refused.
    pub own_lists: OwnLists,
    /// Of the keys that are refused, `sections` and the lists of own sections, the one whose name comes first.
    pub refused: Option<SettingKey>,
}

impl TableSections {
    /// Reads the sections of a table.
    pub fn read(alloc: Global, table: &Table) -> Result<TableSections, AllocError>
        ensures listed { IfOk result (λ s. listed_value s.listed
            ≡ sections_in (table_view table.now)) }
        ensures few { IfOk result (λ s. length s.listed.own_names.items ≤ 64) }
        ensures own_lists { IfOk result (λ s. s.own_lists
            ≡ map (λ name. result_unwrap_or (own_list (table_view table.now) name) [])
            (own_names_in (table_view table.now))) }
        ensures refused { IfOk result (λ s. option_map bad_key s.refused
            ≡ first_refused (sections_refused (table_view table.now))) }
    {
        let Some(listed) = read_sections(alloc, table)? else {
            return Ok(TableSections {
                listed: Listed::five_alone(alloc),
                own_lists: OwnLists::from(Vec::new(alloc)),
                refused: Some(SettingKey::Sections),
            });
        };
        let ListsRead { lists, refused } = ListsRead::read(
            alloc,
            table,
            listed.own_names.as_slice(),
        )?;
        Ok(TableSections {
            listed,
            own_lists: OwnLists::indexed(alloc, lists)?,
            refused,
        })
    }
}
