//! Facts about the table of keys and about the orders, each proved as the contract of a function that does nothing.
ghost use Rattle.std.specs.Prelude.{◌≡◌, ℕ, List, [], ◌∷◌, ◌++◌, ◌⊎◌, Contains, IfOk, Option, map};
ghost use Rattle.std.specs.Cmp.{IsTotalOrder};
ghost use Rattle.std.specs.declared.cmp.Ordering.TheVariants.{Equal};
ghost use Rattle.isort_settings.specs.declared.profile.Profile.{Profile};
ghost use Rattle.isort_settings.specs.Entries.{HoldEntries};
ghost use Rattle.isort_settings.specs.Keys.{name_of, keys_in_order, IsOwnList, Ascends};
ghost use Rattle.isort_settings.specs.Orders.{module_cmp, name_cmp};
ghost use Rattle.isort_settings.specs.Pyproject.{settings_of};
ghost use Rattle.isort_settings.specs.Values.{Values, all_lists, plain_values, black_values};

use crate::key::SettingKey;

/// Each key is one of those that are read one by one, or `profile`, `sections`, the name of a table around them, or the
/// key of an own section's list.
pub fn every_key_has_its_place(key: SettingKey)
    ensures { IsOwnList key
        ⊎ Contains (keys_in_order ++
        SettingKey.Profile ∷ SettingKey.Sections ∷ SettingKey.Tool ∷ SettingKey.ToolIsort
        ∷ []) key }
{
    let _ = key;
}

/// The order in which keys are judged is that of the bytes of their names, and no two have one name.
pub fn keys_are_in_byte_order()
    ensures { Ascends (map name_of keys_in_order) }
{}

/// The order of modules is total under any settings, and only equal modules are equal in it.
pub fn modules_are_totally_ordered()
    ensures total { (v : Values) → IsTotalOrder (module_cmp v) }
    ensures equal { (v : Values) (a b : List ℕ) → module_cmp v a b ≡ Equal → a ≡ b }
{}

/// The order of names is total under any settings, and only equal names are equal in it.
pub fn names_are_totally_ordered()
    ensures total { (v : Values) → IsTotalOrder (name_cmp v) }
    ensures equal { (v : Values) (a b : List ℕ) → name_cmp v a b ≡ Equal → a ≡ b }
{}

/// In the settings that a text stands for no module in a list holds `*` or `?`, and so it is by default and under `black`.
pub fn lists_hold_entries_alone()
    ensures read { (text : List ℕ) (profile : Option Profile)
        → IfOk (settings_of text profile) (λ r. HoldEntries (all_lists r.0)) }
    ensures plain { HoldEntries (all_lists plain_values) }
    ensures black { HoldEntries (all_lists black_values) }
{}
