//! The keys of the settings table.
ghost use Rattle.std.specs.Prelude.{◌≡◌, ◌||◌, bytes_eq};
ghost use Rattle.std.specs.Cmp.Lexicographic.{slice_cmp};
ghost use Rattle.std.specs.Ordering.{is_lt, nat_cmp};
ghost use Rattle.isort_settings.specs.Keys.{name_of, keys_in_order, is_known};

use crate::own_key::OwnKey;
use std::cmp::Ordering;

/// A key of the table `[tool.isort]`, or one of the two tables around it.
#[derive(Debug, Drop, PartialEq, Eq)]
pub enum SettingKey {
    Tool,
    ToolIsort,
    Profile,
    CaseSensitive,
    CombineAsImports,
    DefaultSection,
    EnsureNewlineBeforeComments,
    ExtraStandardLibrary,
    ForceGridWrap,
    ForceSingleLine,
    ForceSortWithinSections,
    IncludeTrailingComma,
    KnownFirstParty,
    KnownFutureLibrary,
    KnownLocalFolder,
    KnownStandardLibrary,
    KnownThirdParty,
    LineLength,
    LinesAfterImports,
    LinesBetweenSections,
    LinesBetweenTypes,
    MultiLineOutput,
    OrderByType,
    UseParentheses,
    Sections,
    /// The list of an own section.
    OwnList(OwnKey),
}

impl SettingKey {
    /// The key as the table spells it; `tool` and `tool.isort` for the tables.
    pub fn name(&self) -> &str
        ensures { result.now ≡ name_of self.now }
    {
        match self {
            SettingKey::Tool => "tool",
            SettingKey::ToolIsort => "tool.isort",
            SettingKey::Profile => "profile",
            SettingKey::CaseSensitive => "case_sensitive",
            SettingKey::CombineAsImports => "combine_as_imports",
            SettingKey::DefaultSection => "default_section",
            SettingKey::EnsureNewlineBeforeComments => "ensure_newline_before_comments",
            SettingKey::ExtraStandardLibrary => "extra_standard_library",
            SettingKey::ForceGridWrap => "force_grid_wrap",
            SettingKey::ForceSingleLine => "force_single_line",
            SettingKey::ForceSortWithinSections => "force_sort_within_sections",
            SettingKey::IncludeTrailingComma => "include_trailing_comma",
            SettingKey::KnownFirstParty => "known_first_party",
            SettingKey::KnownFutureLibrary => "known_future_library",
            SettingKey::KnownLocalFolder => "known_local_folder",
            SettingKey::KnownStandardLibrary => "known_standard_library",
            SettingKey::KnownThirdParty => "known_third_party",
            SettingKey::LineLength => "line_length",
            SettingKey::LinesAfterImports => "lines_after_imports",
            SettingKey::LinesBetweenSections => "lines_between_sections",
            SettingKey::LinesBetweenTypes => "lines_between_types",
            SettingKey::MultiLineOutput => "multi_line_output",
            SettingKey::OrderByType => "order_by_type",
            SettingKey::UseParentheses => "use_parentheses",
            SettingKey::Sections => "sections",
            SettingKey::OwnList(key) => key.as_str(),
        }
    }

    /// The keys that are read one by one, by the bytes of their names.
    pub(crate) fn in_order() -> [SettingKey; 21]
        ensures { result ≡ keys_in_order }
    {
        [
            SettingKey::CaseSensitive,
            SettingKey::CombineAsImports,
            SettingKey::DefaultSection,
            SettingKey::EnsureNewlineBeforeComments,
            SettingKey::ExtraStandardLibrary,
            SettingKey::ForceGridWrap,
            SettingKey::ForceSingleLine,
            SettingKey::ForceSortWithinSections,
            SettingKey::IncludeTrailingComma,
            SettingKey::KnownFirstParty,
            SettingKey::KnownFutureLibrary,
            SettingKey::KnownLocalFolder,
            SettingKey::KnownStandardLibrary,
            SettingKey::KnownThirdParty,
            SettingKey::LineLength,
            SettingKey::LinesAfterImports,
            SettingKey::LinesBetweenSections,
            SettingKey::LinesBetweenTypes,
            SettingKey::MultiLineOutput,
            SettingKey::OrderByType,
            SettingKey::UseParentheses,
        ]
    }

    /// Whether the key's name comes before another's by its bytes.
    pub(crate) fn comes_before(&self, other: &SettingKey) -> bool
        ensures { result ≡ is_lt (slice_cmp nat_cmp (name_of self.now) (name_of other.now)) }
    {
        self.name().as_bytes().cmp(other.name().as_bytes()) == Ordering::Less
    }

    /// Whether a key is spelled so that isn't read with the others: `profile` or `sections`.
    fn is_read_apart(name: &str) -> bool
        ensures { result ≡ (bytes_eq (name_of SettingKey.Profile) name.now
            || bytes_eq (name_of SettingKey.Sections) name.now) }
    {
        SettingKey::Profile.name() == name || SettingKey::Sections.name() == name
    }

    /// Whether a key is spelled so whatever own sections there are.
    pub(crate) fn is_known(name: &str) -> bool
        ensures { result ≡ is_known name.now }
    {
        SettingKey::is_read_apart(name)
            || SettingKey::in_order().iter().any(|key| key.name() == name)
    }
}
