//! The settings, one field for each key.
ghost use Rattle.std.specs.Prelude.{◌≡◌, ◌≤◌, ◌==◌, false, Ok, Err, MatchResult, length, ok_or, slice_index};
ghost use Rattle.std.specs.Cmp.Lexicographic.{slice_cmp};
ghost use Rattle.std.specs.Option.{option_map_or};
ghost use Rattle.std.specs.Ordering.{is_lt, nat_cmp};
ghost use Rattle.std.specs.Str.{byte};
ghost use Rattle.isort_settings.specs.Entries.{HoldEntries};
ghost use Rattle.isort_settings.specs.FiveSections.{order_of, StandOnce};
ghost use Rattle.isort_settings.specs.Keys.{name_of};
ghost use Rattle.isort_settings.specs.Limits.{IsWithin, IsWithinSigned};
ghost use Rattle.isort_settings.specs.declared.limits.TheConstants.{LINE_LENGTH, MODES, GRID_WRAP, SECTION_GAP, TYPE_GAP, END_GAP};

use crate::error::SettingsError;
use crate::key::SettingKey as Key;
use crate::limits::{END_GAP, GRID_WRAP, LINE_LENGTH, MODES, SECTION_GAP, TYPE_GAP};
use crate::modules::Modules;
use crate::order::{class_cmp, natural_cmp, split_run};
use crate::own_lists::OwnLists;
use crate::profile::Profile;
use crate::pyproject;
use crate::section::Section;
use crate::section_order::SectionOrder;
use crate::table_sections::{Listed, TableSections};
use crate::value::{read_count, read_modules, read_section, read_whole};
use std::alloc::Global;
use std::cmp::Ordering;
use toml::{Table, Value};

/// Settings: a value for each key of the table `[tool.isort]` except `profile`.
#[derive(Debug, Drop, PartialEq, Eq)]
pub struct Settings {
    /// The longest line in characters, 1 to 10000, before a `from` import is wrapped.
    pub line_length: u32,
    /// The wrap mode, 0 to 3: grid, vertical, hanging indent, vertical hanging indent.
    pub multi_line_output: u32,
    /// Whether a wrapped statement has a comma after its last name, in the modes 0, 1 and 3.
    pub include_trailing_comma: bool,
    /// Above 0: how many names, at most 10000, a `from` import needs to be wrapped whatever its length.
    pub force_grid_wrap: u32,
    /// Read, and without effect.
    pub use_parentheses: bool,
    /// Whether a blank line stands before comments that stand above a statement.
    pub ensure_newline_before_comments: bool,
    /// Whether each imported name is a statement of its own.
    pub force_single_line: bool,
    /// Whether `import` and `from` statements are sorted together, by module.
    pub force_sort_within_sections: bool,
    /// Whether ASCII capitals differ from small letters from the start in the order.
    pub case_sensitive: bool,
    /// Whether `from m import a as b` joins the module's other names.
    pub combine_as_imports: bool,
    /// Whether names stand in the order constants, classes, the rest.
    pub order_by_type: bool,
    /// The blank lines between two sections, at most 100.
    pub lines_between_sections: u32,
    /// The blank lines between `import` and `from` statements of one section, at most 100.
    pub lines_between_types: u32,
    /// The blank lines after a block, at most 100; -1 leaves the choice to the rules of the layout.
    pub lines_after_imports: i32,
    /// The section of a module that no list holds.
    pub default_section: Section,
    /// The modules of the standard library.
    pub known_standard_library: Modules,
    /// Further modules of the standard library.
    pub extra_standard_library: Modules,
    /// The modules of the section `THIRDPARTY`.
    pub known_third_party: Modules,
    /// The modules of the section `FIRSTPARTY`.
    pub known_first_party: Modules,
    /// The modules of the section `LOCALFOLDER`.
    pub known_local_folder: Modules,
    /// The modules of the section `FUTURE`.
    pub known_future_library: Modules,
    /// All sections in the order in which they are printed.
    pub sections: SectionOrder,
    /// The names of the own sections, as `sections` spells them.
    pub own_names: Vec<String>,
    /// The modules of each own section.
    pub own_lists: OwnLists,
    pub ghost line_length_in_range: { IsWithin LINE_LENGTH line_length },
    pub ghost mode_in_range: { IsWithin MODES multi_line_output },
    pub ghost grid_wrap_in_range: { IsWithin GRID_WRAP force_grid_wrap },
    pub ghost section_gap_in_range: { IsWithin SECTION_GAP lines_between_sections },
    pub ghost type_gap_in_range: { IsWithin TYPE_GAP lines_between_types },
    pub ghost end_gap_in_range: { IsWithinSigned END_GAP lines_after_imports },
    pub ghost few_own_sections: { length own_names.items ≤ 64 },
    pub ghost list_for_each_own: { length own_lists ≡ length own_names.items },

    // The five and each own section, and no others, in the order of `sections`.
    pub ghost each_section_once: { StandOnce (length own_names.items) (order_of sections) },

    // No module in a list of theirs holds `*` or `?`.
    pub ghost entries_in_own_lists: { HoldEntries own_lists },
}

impl Settings {
    ghost use Rattle.std.specs.Prelude.{◌≡◌, ◌≢◌, ◌≤◌, ◌↔◌, IsOk, IfOk, IfErr, IsOkAnd, OnOk, OnErr, IsOkUnless, Ok};
    ghost use Rattle.std.specs.Prelude.{Err, Some, None, [], map, option_map, string_bytes};
    ghost use Rattle.toml.specs.View.{view, table_view};
    ghost use Rattle.isort_settings.specs.Keys.{row_of, Ascends, flag, texts, wrap_mode};
    ghost use Rattle.isort_settings.specs.Orders.{module_cmp, name_cmp};
    ghost use Rattle.isort_settings.specs.Pyproject.{settings_of, settings_in, base_value, first_refusal, with_sections};
    ghost use Rattle.isort_settings.specs.Pyproject.Steps.{FillsFrom, of_document, of_table, with_listed, with_profile};
    ghost use Rattle.isort_settings.specs.TableSections.{own_names_in, first_refused, sections_refused};
    ghost use Rattle.isort_settings.specs.TableSections.Steps.{bad_key, listed_value};
    ghost use Rattle.isort_settings.specs.Reading.{read_value};
    ghost use Rattle.isort_settings.specs.Sections.{five_lists_of, lists_of, section_in, section_name, section_rank};
    ghost use Rattle.isort_settings.specs.Sections.OnePrefix.{section_holding};
    ghost use Rattle.isort_settings.specs.Values.{values, values_from, plain_values, black_values};
    ghost use Rattle.isort_settings.specs.Values.OneKey.{with_flag, with_value};

    /// The settings that hold where nothing else is said. They take no memory, so they are always there.
    pub fn plain(alloc: Global) -> Result<Settings, SettingsError>
        ensures made { IsOk result }
        ensures ok { IfOk result (λ s. values s ≡ plain_values) }
        ensures err { IsOkUnless result SettingsError.Memory }
    {
        Ok(Settings::of_profile(alloc, None))
    }

    /// The settings of the profile `black`. They take no memory, so they are always there.
    pub fn black(alloc: Global) -> Result<Settings, SettingsError>
        ensures made { IsOk result }
        ensures ok { IfOk result (λ s. values s ≡ black_values) }
        ensures err { IsOkUnless result SettingsError.Memory }
    {
        Ok(Settings::of_profile(alloc, Some(Profile::Black)))
    }

    /// The settings that the table `[tool.isort]` of the text stands for, and the names of its unknown keys.
    ///
    /// A profile that is handed in replaces the table's `profile`, which isn't read then.
    pub fn from_pyproject(
        alloc: Global,
        text: &[u8],
        profile: Option<Profile>,
    ) -> Result<(Settings, Vec<String>), SettingsError>
        ensures ok { IfOk result (λ r.
            settings_of text.now profile ≡ Ok (values r.0, map string_bytes r.1.items)) }
        ensures unknown_ascend { IfOk result (λ r. Ascends (map string_bytes r.1.items)) }

        // Each refusal except out of memory is the one that the definition gives.
        ensures refused { IfErr result (λ e. e ≢ SettingsError.Memory
            → settings_of text.now profile ≡ Err e) }
    {
        let document = pyproject::document(alloc, text)?;
        Settings::of_document(alloc, &document, profile)
    }

    /// The settings that the table `[tool.isort]` of the document stands for, and the names of its unknown keys.
    fn of_document(
        alloc: Global,
        document: &Table,
        profile: Option<Profile>,
    ) -> Result<(Settings, Vec<String>), SettingsError>
        ensures ok { IfOk result (λ r. of_document profile (table_view document.now)
            ≡ Ok (values r.0, map string_bytes r.1.items)) }
        ensures unknown_ascend { IfOk result (λ r. Ascends (map string_bytes r.1.items)) }
        ensures refused { IfErr result (λ e. e ≢ SettingsError.Memory
            → of_document profile (table_view document.now) ≡ Err e) }
    {
        match pyproject::settings_table(document)? {
            Some(table) => Settings::of_table(alloc, table, profile),
            None => Ok((Settings::of_profile(alloc, profile), Vec::new(alloc))),
        }
    }

    /// The settings that the table stands for, and the names of its unknown keys.
    fn of_table(
        alloc: Global,
        table: &Table,
        profile: Option<Profile>,
    ) -> Result<(Settings, Vec<String>), SettingsError>
        ensures ok { IfOk result (λ r. of_table profile (table_view table.now)
            ≡ Ok (values r.0, map string_bytes r.1.items)) }
        ensures unknown_ascend { IfOk result (λ r. Ascends (map string_bytes r.1.items)) }
        ensures refused { IfErr result (λ e. e ≢ SettingsError.Memory
            → of_table profile (table_view table.now) ≡ Err e) }
    {
        let profile = pyproject::chosen_profile(profile, table)?;
        let TableSections {
            listed,
            own_lists,
            refused,
        } = TableSections::read(alloc, table)?;
        let mut settings = Settings::with_sections(alloc, listed, own_lists);
        let unknown = settings.take_table(alloc, table, profile, refused)?;
        Ok((settings, unknown))
    }

    /// The settings that hold where the table says nothing.
    fn of_profile(alloc: Global, profile: Option<Profile>) -> Settings
        ensures { values result ≡ values_from (base_value profile) }
    {
        let mut settings = Settings::with_sections(
            alloc,
            Listed::five_alone(alloc),
            OwnLists::from(Vec::new(alloc)),
        );
        settings.take_profile(profile);
        settings
    }

    /// The settings that hold where nothing is said, except of these sections.
    fn with_sections(alloc: Global, listed: Listed, own_lists: OwnLists) -> Settings
        requires few { length listed.own_names.items ≤ 64 }
        requires list_for_each { length own_lists ≡ length listed.own_names.items }
        requires each_once { StandOnce (length listed.own_names.items) (order_of listed.order) }
        requires entries { HoldEntries own_lists }
        ensures { values result ≡ with_listed (listed_value listed) own_lists plain_values }
    {
        Settings {
            line_length: 79,
            multi_line_output: 0,
            include_trailing_comma: false,
            force_grid_wrap: 0,
            use_parentheses: false,
            ensure_newline_before_comments: false,
            force_single_line: false,
            force_sort_within_sections: false,
            case_sensitive: false,
            combine_as_imports: false,
            order_by_type: true,
            lines_between_sections: 1,
            lines_between_types: 0,
            lines_after_imports: -1,
            default_section: Section::ThirdParty,
            known_standard_library: Modules::StandardLibrary,
            extra_standard_library: Modules::Listed(Vec::new(alloc)),
            known_third_party: Modules::Listed(Vec::new(alloc)),
            known_first_party: Modules::Listed(Vec::new(alloc)),
            known_local_folder: Modules::Listed(Vec::new(alloc)),
            known_future_library: Modules::Future,
            sections: listed.order,
            own_names: listed.own_names,
            own_lists,
        }
    }

    /// Changes what the profile says, if there is one.
    fn take_profile(&mut self, profile: Option<Profile>)
        ensures { values self.new ≡ with_profile profile (values self.old) }
    {
        if let Some(Profile::Black) = profile {
            self.line_length = 88;
            self.multi_line_output = 3;
            self.include_trailing_comma = true;
            self.use_parentheses = true;
            self.ensure_newline_before_comments = true;
        }
    }

    /// Takes what a profile says, if there is one, and then what the table says, and answers the names of its unknown keys.
    /// This key is the first that the sections refuse.
    fn take_table(
        &mut self,
        alloc: Global,
        table: &Table,
        profile: Option<Profile>,
        refused: Option<Key>,
    ) -> Result<Vec<String>, SettingsError>
        requires plain { values self.old ≡ with_sections (table_view table.now) plain_values }
        requires refused { option_map bad_key refused
            ≡ first_refused (sections_refused (table_view table.now)) }
        ensures ok { IfOk result (λ unknown. settings_in (table_view table.now) profile
            ≡ Ok (values self.new, map string_bytes unknown.items)) }
        ensures unknown_ascend { IfOk result (λ unknown.
            Ascends (map string_bytes unknown.items)) }
        ensures refused { IfErr result (λ e. e ≢ SettingsError.Memory
            → settings_in (table_view table.now) profile ≡ Err e) }
    {
        self.take_profile(profile);
        self.take_values(alloc, table, refused)?;
        Ok(pyproject::unknown_keys(alloc, table, self.own_names.as_slice())?)
    }

    /// Takes the values of the keys that are read one by one, and answers the first refusal: of one of them, or of this key,
    /// which the sections refuse.
    fn take_values(
        &mut self,
        alloc: Global,
        table: &Table,
        refused: Option<Key>,
    ) -> Result<(), SettingsError>
        requires own_names { (values self.old).own_names ≡ own_names_in (table_view table.now) }
        requires refused { option_map bad_key refused
            ≡ first_refused (sections_refused (table_view table.now)) }
        ensures unrefused { OnOk result (first_refusal (table_view table.now) ≡ None) }
        ensures filled { OnOk result
            (FillsFrom (table_view table.now) (values self.old) (values self.new)) }
        ensures refused { IfErr result (λ e. e ≢ SettingsError.Memory
            → first_refusal (table_view table.now) ≡ Some e) }
    {
        for key in Key::in_order() {
            if is_after(&key, &refused) {
                break;
            }
            let Some(value) = pyproject::member(table, key.name()) else {
                continue;
            };
            self.take_value(alloc, key, value)?;
        }
        match refused {
            Some(key) => Err(SettingsError::BadValue(key)),
            None => Ok(()),
        }
    }

    /// Takes a key's value from the table.
    fn take_value(&mut self, alloc: Global, key: Key, value: &Value) -> Result<(), SettingsError>
        ensures ok { OnOk result
            (IsOkAnd (read_value (values self.old).own_names (row_of key).kind key (view value.now))
            (λ x. values self.new ≡ with_value key x (values self.old))) }
        ensures refused { IfErr result (λ e. e ≢ SettingsError.Memory
            → read_value (values self.old).own_names (row_of key).kind key (view value.now)
            ≡ Err e) }
    {
        match key {
            Key::CaseSensitive
            | Key::CombineAsImports
            | Key::EnsureNewlineBeforeComments
            | Key::ForceSingleLine
            | Key::ForceSortWithinSections
            | Key::IncludeTrailingComma
            | Key::OrderByType
            | Key::UseParentheses => self.take_flag(key, value),
            Key::ExtraStandardLibrary
            | Key::KnownFirstParty
            | Key::KnownFutureLibrary
            | Key::KnownLocalFolder
            | Key::KnownStandardLibrary
            | Key::KnownThirdParty => self.take_modules(alloc, key, value),
            Key::DefaultSection => {
                let own_names = self.own_names.as_slice();
                put(
                    &mut self.default_section,
                    read_section(value, own_names),
                    key,
                )
            }
            Key::ForceGridWrap => put(&mut self.force_grid_wrap, read_count(value, GRID_WRAP), key),
            Key::LineLength => put(&mut self.line_length, read_count(value, LINE_LENGTH), key),
            Key::LinesAfterImports => put(
                &mut self.lines_after_imports,
                read_whole(value, END_GAP),
                key,
            ),
            Key::LinesBetweenSections => {
                put(
                    &mut self.lines_between_sections,
                    read_count(value, SECTION_GAP),
                    key,
                )
            }
            Key::LinesBetweenTypes => put(
                &mut self.lines_between_types,
                read_count(value, TYPE_GAP),
                key,
            ),
            Key::MultiLineOutput => self.take_mode(value),
            Key::Tool | Key::ToolIsort | Key::Profile | Key::Sections | Key::OwnList(_) => Ok(()),
        }
    }

    /// Takes a value of a key that is true or false.
    fn take_flag(&mut self, key: Key, value: &Value) -> Result<(), SettingsError>
        ensures ok { OnOk result (IsOkAnd (read_value [] flag key (view value.now))
            (λ on. values self.new ≡ with_flag key on (values self.old))) }
        ensures refused { IfErr result (λ e. e ≢ SettingsError.Memory
            → read_value [] flag key (view value.now) ≡ Err e) }
    {
        match value.as_bool() {
            Some(on) => {
                self.set_flag(&key, on);
                Ok(())
            }
            None => Err(SettingsError::BadValue(key)),
        }
    }

    /// Sets a key that is true or false.
    fn set_flag(&mut self, key: &Key, on: bool)
        ensures { values self.new ≡ with_flag key.now on (values self.old) }
    {
        match key {
            Key::CaseSensitive => self.case_sensitive = on,
            Key::CombineAsImports => self.combine_as_imports = on,
            Key::EnsureNewlineBeforeComments => self.ensure_newline_before_comments = on,
            Key::ForceSingleLine => self.force_single_line = on,
            Key::ForceSortWithinSections => self.force_sort_within_sections = on,
            Key::IncludeTrailingComma => self.include_trailing_comma = on,
            Key::OrderByType => self.order_by_type = on,
            Key::UseParentheses => self.use_parentheses = on,
            _ => (),
        }
    }

    /// Takes a value of a key that is a list of modules.
    fn take_modules(&mut self, alloc: Global, key: Key, value: &Value) -> Result<(), SettingsError>
        requires { (row_of key).kind ≡ texts }
        ensures ok { OnOk result
            (IsOkAnd (read_value (values self.old).own_names (row_of key).kind key (view value.now))
            (λ x. values self.new ≡ with_value key x (values self.old))) }
        ensures refused { IfErr result (λ e. e ≢ SettingsError.Memory
            → read_value (values self.old).own_names (row_of key).kind key (view value.now)
            ≡ Err e) }
    {
        let list = read_modules(alloc, value)?;
        match key {
            Key::ExtraStandardLibrary => put(&mut self.extra_standard_library, list, key),
            Key::KnownFirstParty => put(&mut self.known_first_party, list, key),
            Key::KnownFutureLibrary => put(&mut self.known_future_library, list, key),
            Key::KnownLocalFolder => put(&mut self.known_local_folder, list, key),
            Key::KnownStandardLibrary => put(&mut self.known_standard_library, list, key),
            Key::KnownThirdParty => put(&mut self.known_third_party, list, key),
            _ => unreachable!(),
        }
    }

    /// Takes a value of the wrap mode.
    fn take_mode(&mut self, value: &Value) -> Result<(), SettingsError>
        ensures ok { OnOk result
            (IsOkAnd (read_value [] wrap_mode Key.MultiLineOutput (view value.now))
            (λ n. values self.new ≡ record (values self.old) { multi_line_output = n })) }
        ensures refused { IfErr result (λ e. e ≢ SettingsError.Memory
            → read_value [] wrap_mode Key.MultiLineOutput (view value.now) ≡ Err e) }
    {
        let Some(number) = value.as_integer() else {
            return Err(SettingsError::BadValue(Key::MultiLineOutput));
        };
        match u32::try_from(number) {
            Ok(mode) => self.set_mode(mode),
            Err(_) => Err(SettingsError::UnsupportedMode),
        }
    }

    /// Changes the line length, or refuses one outside 1 to 10000.
    pub fn set_line_length(&mut self, n: u32) -> Result<(), SettingsError>
        ensures accepted { IsOk result ↔ ((1 ≤ n) × (n ≤ 10000)) }
        ensures ok { OnOk result (values self.new ≡ record (values self.old) { line_length = n }) }
        ensures refused { IfErr result (λ e. e ≡ SettingsError.BadValue Key.LineLength) }
        ensures unchanged { OnErr result (values self.new ≡ values self.old) }
    {
        if !LINE_LENGTH.contain(n) {
            return Err(SettingsError::BadValue(Key::LineLength));
        }
        self.line_length = n;
        Ok(())
    }

    /// Changes the wrap mode, or refuses one above 3.
    pub fn set_mode(&mut self, n: u32) -> Result<(), SettingsError>
        ensures accepted { IsOk result ↔ (n ≤ 3) }
        ensures ok { OnOk result (values self.new
            ≡ record (values self.old) { multi_line_output = n }) }
        ensures refused { IfErr result (λ e. e ≡ SettingsError.UnsupportedMode) }
        ensures unchanged { OnErr result (values self.new ≡ values self.old) }
    {
        if !MODES.contain(n) {
            return Err(SettingsError::UnsupportedMode);
        }
        self.multi_line_output = n;
        Ok(())
    }

    /// The section of a module: `LocalFolder` after a leading dot; else the longest dotted prefix that a list holds
    /// decides, and among lists that hold it the first of those of the own sections, in their order, and then of local
    /// folder, first party, third party, standard library, future; else the default section.
    pub fn section_of(&self, module: &str) -> Section
        ensures { result ≡ section_in (values self.now) «module».now }
    {
        let name = module.as_bytes();
        if is_relative(name) {
            return Section::LocalFolder;
        }
        if let Some(section) = self.listed(module) {
            return section;
        }
        for stop in (0..name.len()).rev() {
            if name[stop] == b'.' {
                if let Some(section) = self.listed(&module[..stop]) {
                    return section;
                }
            }
        }
        self.default_section
    }

    /// The order of two modules: the one with more leading dots comes first, and then the natural order of what follows
    /// the dots decides.
    ///
    /// In the natural order of two texts, runs of ASCII digits count as numbers, by their value, and what stands between
    /// them by its bytes, with ASCII capitals as small letters unless `case_sensitive` is set. The first difference
    /// decides, and where one text ends before there is any, it comes first. Between texts that don't differ so, their
    /// bytes as they are decide, so that `Equal` is given for equal modules alone.
    pub fn order_modules(&self, a: &str, b: &str) -> Ordering
        ensures { result ≡ module_cmp (values self.now) a.now b.now }
    {
        let (a_dots, a_name) = split_run(a.as_bytes(), b'.');
        let (b_dots, b_name) = split_run(b.as_bytes(), b'.');
        match b_dots.cmp(&a_dots) {
            Ordering::Equal => natural_cmp(a_name, b_name, self.case_sensitive),
            by_dots => by_dots,
        }
    }

    /// The order of two names: with `order_by_type` set constants come first, then classes, then the rest; then the
    /// natural order decides, as in [`Settings::order_modules`], so that `Equal` is given for equal names alone.
    ///
    /// A constant has two or more characters, an ASCII capital among them and no small ASCII letter. A class begins with
    /// an ASCII capital and isn't a constant.
    pub fn order_names(&self, a: &str, b: &str) -> Ordering
        ensures { result ≡ name_cmp (values self.now) a.now b.now }
    {
        let a = a.as_bytes();
        let b = b.as_bytes();
        let by_class = if self.order_by_type {
            class_cmp(a, b)
        } else {
            Ordering::Equal
        };
        match by_class {
            Ordering::Equal => natural_cmp(a, b, self.case_sensitive),
            by_class => by_class,
        }
    }

    /// The place of a section among `sections`, or how many there are where it isn't among them.
    pub fn section_rank(&self, section: Section) -> usize
        ensures { result ≡ section_rank (values self.now) section }
    {
        self.sections.rank(section)
    }

    /// The name of a section, as `sections` spells it; empty where there is no such own section.
    pub fn section_name(&self, section: Section) -> &str
        ensures { result.now ≡ section_name (values self.now) section }
    {
        match section {
            Section::Own(place) => match self.own_names.get(place as usize) {
                Some(name) => name.as_str(),
                None => "",
            },
            _ => section.spelling(),
        }
    }

    /// The section of the first list that holds the prefix: those of the own sections come first.
    fn listed(&self, prefix: &str) -> Option<Section>
        ensures { result ≡ section_holding (lists_of (values self.now)) prefix.now }
    {
        match self.own_lists.holder(prefix) {
            Some(place) => Some(Section::Own(place as u8)),
            None => self.listed_in_five(prefix),
        }
    }

    /// The section of the first list among those of the five that holds the prefix.
    fn listed_in_five(&self, prefix: &str) -> Option<Section>
        ensures { result ≡ section_holding (five_lists_of (values self.now)) prefix.now }
    {
        if self.known_local_folder.holds(prefix) {
            Some(Section::LocalFolder)
        } else if self.known_first_party.holds(prefix) {
            Some(Section::FirstParty)
        } else if self.known_third_party.holds(prefix) {
            Some(Section::ThirdParty)
        } else if self.known_standard_library.holds(prefix)
            || self.extra_standard_library.holds(prefix)
        {
            Some(Section::Stdlib)
        } else if self.known_future_library.holds(prefix) {
            Some(Section::Future)
        } else {
            None
        }
    }
}

/// Whether the key comes after one that is refused.
fn is_after(key: &Key, refused: &Option<Key>) -> bool
    ensures { result ≡ option_map_or
        (λ k. is_lt (slice_cmp nat_cmp (name_of k) (name_of key.now))) refused.now false }
{
    match refused {
        Some(refused) => refused.comes_before(key),
        None => false,
    }
}

/// Whether the module begins with a dot.
fn is_relative(name: &[u8]) -> bool
    ensures { result ≡ (slice_index name.now 0 == byte ".") }
{
    name.first() == Some(&b'.')
}

/// Puts what was read in place of the old value, which stays where the key is refused.
fn put<T: Drop>(place: &mut T, read: Option<T>, key: Key) -> Result<(), SettingsError>
    ensures { MatchResult (ok_or read (SettingsError.BadValue key))
        (λ new. (result ≡ Ok tt) × (place.new ≡ new))
        (λ e. (result ≡ Err e) × (place.new ≡ place.old)) }
{
    match read {
        Some(new) => {
            *place = new;
            Ok(())
        }
        None => Err(SettingsError::BadValue(key)),
    }
}
