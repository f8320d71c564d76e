//! Lists of modules, as settings have them.
ghost use Rattle.std.specs.Prelude.{◌≡◌, ◌<◌, IfSome, bytes_eq, length, map, option_copied, slice_get, string_bytes};
ghost use Rattle.std.specs.List.{position};
ghost use Rattle.isort_settings.specs.Sections.{holds};

use crate::indexed_modules::IndexedModules;
use crate::standard_library;

/// The modules that a key lists. Only a list that settings give takes memory.
#[derive(Debug, Drop)]
pub enum Modules {
    /// The default of `known_standard_library`: the modules that count as the standard library where no setting says
    /// otherwise.
    StandardLibrary,
    /// The default of `known_future_library`: `__future__` alone.
    Future,
    /// A list in which a module is searched entry by entry.
    Listed(Vec<String>),
    /// A list with an index, as settings that are read have it.
    Indexed(IndexedModules),
}

/// The default of `known_future_library`.
const FUTURE: [&str; 1] = ["__future__"];

impl Modules {
    ghost use Rattle.isort_settings.specs.Modules.{modules_of};

    /// How many modules there are.
    fn len(&self) -> usize
        ensures { result ≡ length (modules_of self.now) }
    {
        match self {
            Modules::StandardLibrary => standard_library::modules().len(),
            Modules::Future => FUTURE.len(),
            Modules::Listed(modules) => modules.len(),
            Modules::Indexed(list) => list.modules().len(),
        }
    }

    /// The module at the index, if there are that many.
    pub fn get(&self, index: usize) -> Option<&str>
        ensures { option_copied result ≡ slice_get (modules_of self.now) index }
    {
        match self {
            Modules::StandardLibrary => text_at(standard_library::modules(), index),
            Modules::Future => text_at(&FUTURE, index),
            Modules::Listed(modules) => entry_at(modules.as_slice(), index),
            Modules::Indexed(list) => entry_at(list.modules(), index),
        }
    }

    /// Whether the list holds the module.
    pub(crate) fn holds(&self, module: &str) -> bool
        ensures { result ≡ holds (modules_of self.now) «module».now }
    {
        match self {
            Modules::StandardLibrary => standard_library::holds(module.as_bytes()),
            Modules::Future => module.as_bytes() == b"__future__".as_slice(),
            Modules::Listed(modules) => is_among(modules, module),
            Modules::Indexed(list) => list.holds(module),
        }
    }
}

/// Two lists are equal where they hold the same modules in the same order.
impl PartialEq for Modules {
    ghost use Rattle.std.specs.Cmp.{partial_equiv_from_equiv};
    ghost use Rattle.std.specs.Cmp.Lexicographic.{lists_equiv, nat_list_eq_equiv, pointwise};
    ghost use Rattle.std.specs.Ordering.{on};
    ghost use Rattle.std.proofs.lemmas.Cmp.{on_equiv};
    ghost use Rattle.isort_settings.specs.Modules.{modules_of};

    ghost eq = { on modules_of (pointwise bytes_eq) };

    ghost laws = { partial_equiv_from_equiv (on_equiv modules_of (lists_equiv nat_list_eq_equiv)) };

    fn eq(&self, other: &Modules) -> bool {
        let count = self.len();
        if count != other.len() {
            return false;
        }
        for index in 0..count {
            if self.get(index) != other.get(index) {
                return false;
            }
        }
        true
    }
}

impl Eq for Modules {
    ghost use Rattle.std.specs.Cmp.Lexicographic.{lists_equiv, nat_list_eq_equiv};
    ghost use Rattle.std.proofs.lemmas.Cmp.{on_equiv};
    ghost use Rattle.isort_settings.specs.Modules.{modules_of};

    ghost laws = { on_equiv modules_of (lists_equiv nat_list_eq_equiv) };
}

/// The text at the index, if there are that many.
fn text_at(texts: &'static [&'static str], index: usize) -> Option<&'static str>
    ensures { option_copied result ≡ slice_get (map (λ t. t.now) texts.now) index }
{
    texts.get(index).copied()
}

/// The entry at the index, if there are that many.
fn entry_at(entries: &[String], index: usize) -> Option<&str>
    ensures { option_copied result ≡ slice_get (map string_bytes entries.now) index }
{
    Some(entries.get(index)?.as_str())
}

/// The place of the first entry that is the text.
pub(crate) fn place_of(entries: &[String], text: &str) -> Option<usize>
    ensures place { result
        ≡ position (λ entry. bytes_eq entry text.now) (map string_bytes entries.now) }
    ensures within { IfSome result (λ place. place < length entries.now) }
{
    entries.iter().position(|entry| entry.as_str() == text)
}

/// Whether the text is one of the entries.
pub(crate) fn is_among(entries: &[String], text: &str) -> bool
    ensures { result ≡ holds (map string_bytes entries.now) text.now }
{
    place_of(entries, text).is_some()
}
