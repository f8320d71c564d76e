//! The key of an own section's list.
ghost use Rattle.std.specs.Prelude.{◌≡◌, IfOk, string_bytes};
ghost use Rattle.isort_settings.specs.SectionNames.{list_key};

use std::alloc::{AllocError, Global};
use std::marker::Model;

/// The key of an own section's list, such as `known_django`.
#[derive(Debug, Drop)]
pub struct OwnKey {
    /// The key as the table spells it.
    text: String,
}

impl Model for OwnKey {
    ghost use Rattle.std.specs.Prelude.{ℕ, List, string_bytes};

    ghost Value = { List ℕ };

    ghost view = { λ key. string_bytes key.text };
}

impl OwnKey {
    /// The key that is spelled so.
    pub fn new(text: String) -> OwnKey
        ensures { result ≡ string_bytes text }
    {
        OwnKey { text }
    }

    /// The key of the list of the own section of this name.
    pub(crate) fn of_section(alloc: Global, name: &str) -> Result<OwnKey, AllocError>
        ensures { IfOk result (λ key. key ≡ list_key name.now) }
    {
        let mut text = String::from_str(alloc, "known_")?;
        text.push_str(name)?;
        text.make_ascii_lowercase();
        Ok(OwnKey::new(text))
    }

    /// The key as the table spells it.
    pub fn as_str(&self) -> &str
        ensures { result.now ≡ self.now }
    {
        self.text.as_str()
    }
}

/// Two keys are equal where they are spelled the same.
impl PartialEq for OwnKey {
    ghost use Rattle.std.specs.Cmp.{partial_equiv_from_equiv};
    ghost use Rattle.std.specs.Cmp.Lexicographic.{nat_list_eq_equiv};
    ghost use Rattle.std.specs.Prelude.{bytes_eq};

    ghost eq = { bytes_eq };

    ghost laws = { partial_equiv_from_equiv nat_list_eq_equiv };

    fn eq(&self, other: &OwnKey) -> bool {
        self.as_str() == other.as_str()
    }
}

impl Eq for OwnKey {
    ghost use Rattle.std.specs.Cmp.Lexicographic.{nat_list_eq_equiv};

    ghost laws = { nat_list_eq_equiv };
}
