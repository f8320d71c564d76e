//! The keys of the settings, by numbers.
ghost use Rattle.std.specs.Prelude.{◌≡◌};
ghost use Rattle.isort_settings.specs.declared.key.SettingKey.{SettingKey};
ghost use Rattle.isort_c.specs.KeyNumbers.{key_at, key_number, IsAtItsNumber, NamesKey};

use crate::buffer::fill;
use isort_settings::SettingKey;

/// The number that the lists of own sections share, the keys `known_` and the section's name in small letters.
pub const OWN_LIST: u32 = 26;

/// The number of a key: that of the first of them is 1. New keys go after the others.
pub fn number_of(key: &SettingKey) -> u32
    ensures { result ≡ key_number key.now }
{
    match key {
        SettingKey::Tool => 1,
        SettingKey::ToolIsort => 2,
        SettingKey::Profile => 3,
        SettingKey::CaseSensitive => 4,
        SettingKey::CombineAsImports => 5,
        SettingKey::DefaultSection => 6,
        SettingKey::EnsureNewlineBeforeComments => 7,
        SettingKey::ExtraStandardLibrary => 8,
        SettingKey::ForceGridWrap => 9,
        SettingKey::ForceSingleLine => 10,
        SettingKey::ForceSortWithinSections => 11,
        SettingKey::IncludeTrailingComma => 12,
        SettingKey::KnownFirstParty => 13,
        SettingKey::KnownFutureLibrary => 14,
        SettingKey::KnownLocalFolder => 15,
        SettingKey::KnownStandardLibrary => 16,
        SettingKey::KnownThirdParty => 17,
        SettingKey::LineLength => 18,
        SettingKey::LinesAfterImports => 19,
        SettingKey::LinesBetweenSections => 20,
        SettingKey::LinesBetweenTypes => 21,
        SettingKey::MultiLineOutput => 22,
        SettingKey::OrderByType => 23,
        SettingKey::UseParentheses => 24,
        SettingKey::Sections => 25,
        SettingKey::OwnList(_) => OWN_LIST,
    }
}

/// The key with this number, if there is one.
#[tactic(auto, unfolding(crate::specs::KeyNumbers::keys))]
fn key_of(number: u32) -> Option<SettingKey>
    ensures { result ≡ key_at number }
{
    Some(match number {
        1 => SettingKey::Tool,
        2 => SettingKey::ToolIsort,
        3 => SettingKey::Profile,
        4 => SettingKey::CaseSensitive,
        5 => SettingKey::CombineAsImports,
        6 => SettingKey::DefaultSection,
        7 => SettingKey::EnsureNewlineBeforeComments,
        8 => SettingKey::ExtraStandardLibrary,
        9 => SettingKey::ForceGridWrap,
        10 => SettingKey::ForceSingleLine,
        11 => SettingKey::ForceSortWithinSections,
        12 => SettingKey::IncludeTrailingComma,
        13 => SettingKey::KnownFirstParty,
        14 => SettingKey::KnownFutureLibrary,
        15 => SettingKey::KnownLocalFolder,
        16 => SettingKey::KnownStandardLibrary,
        17 => SettingKey::KnownThirdParty,
        18 => SettingKey::LineLength,
        19 => SettingKey::LinesAfterImports,
        20 => SettingKey::LinesBetweenSections,
        21 => SettingKey::LinesBetweenTypes,
        22 => SettingKey::MultiLineOutput,
        23 => SettingKey::OrderByType,
        24 => SettingKey::UseParentheses,
        25 => SettingKey::Sections,
        _ => return None,
    })
}

/// Writes the name of the key with this number to the beginning of `out`, where `out` has room for it, and else leaves
/// `out` as it was. It answers the name's length: 0 where no key has the number, or where it is `OWN_LIST`.
#[unsafe(no_mangle)]
pub extern "C" fn fihroste_key_name(number: u32, out: &mut [u8]) -> usize
    ensures name { NamesKey (key_at number) result out.old out.new }
    ensures every_key { (key : SettingKey) → IsAtItsNumber key }
{
    match key_of(number) {
        Some(key) => {
            let name = key.name().as_bytes();
            fill(name, out);
            name.len()
        }
        None => 0,
    }
}
