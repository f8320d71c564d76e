//! The numbers of c/fihroste.h, proved as the contract of a function that does nothing.
ghost use Rattle.std.specs.Prelude.{◌≡◌, ◌+◌, ℕ, None, Some, Ok, Err};
ghost use Rattle.py_lines.specs.declared.fault.FaultKind.TheVariants as kind;
ghost use Rattle.isort_find.specs.declared.options.ImportKey.TheVariants as unique;
ghost use Rattle.isort_settings.specs.FiveSections.{section_number};
ghost use Rattle.isort_settings.specs.declared.error.SettingsError.TheVariants as refusal;
ghost use Rattle.isort_settings.specs.declared.key.SettingKey.{SettingKey};
ghost use Rattle.isort_settings.specs.declared.profile.Profile.TheVariants.{Black};
ghost use Rattle.isort_settings.specs.declared.section.Section.TheVariants as section;
ghost use Rattle.isort_c.specs.Answers.{plain_answer, fault_number};
ghost use Rattle.isort_c.specs.Listing.{unique_at};
ghost use Rattle.isort_c.specs.Readings.{profile_at, refused_answer};
ghost use Rattle.isort_c.specs.declared.answer.TheConstants.{SAME, CHANGED, SKIPPED, FAULT, SETTINGS, MEMORY, ARGUMENT};
ghost use Rattle.isort_c.specs.declared.key.TheConstants.{OWN_LIST};

/// The numbers that the other contracts name have these values, as `c/fihroste.h` says: of statuses, faults, refusals, profiles,
/// keys of a listing and sections, and of the lists of own sections. No other number is that of a profile, or of a key of a
/// listing.
pub fn numbers_are_fixed()
    ensures statuses { (SAME ≡ 0) × (CHANGED ≡ 1) × (SKIPPED ≡ 2)
        × (FAULT ≡ 3) × (SETTINGS ≡ 4) × (MEMORY ≡ 5) × (ARGUMENT ≡ 6) }
    ensures faults { (fault_number kind.BadUtf8 ≡ 1) × (fault_number kind.BadChar ≡ 2)
        × (fault_number kind.OpenString ≡ 3) × (fault_number kind.OpenTriple ≡ 4)
        × (fault_number kind.WrongClose ≡ 5) × (fault_number kind.OpenBracket ≡ 6)
        × (fault_number kind.BadJoin ≡ 7) × (fault_number kind.TooDeep ≡ 8)
        × (fault_number kind.BadImport ≡ 9) × (fault_number kind.OpenField ≡ 10) }
    ensures refusals { ((refused_answer refusal.BadToml).label ≡ 1)
        × ((key : SettingKey) → (refused_answer (refusal.BadValue key)).label ≡ 2)
        × ((refused_answer refusal.UnknownProfile).label ≡ 3)
        × ((refused_answer refusal.UnsupportedMode).label ≡ 4) }
    ensures profiles { (profile_at 0 ≡ Ok None) × (profile_at 1 ≡ Ok (Some Black)) }
    ensures other_profiles { (n : ℕ) → profile_at (2 + n) ≡ Err (plain_answer 6) }
    ensures unique { (unique_at 0 ≡ Ok None) × (unique_at 1 ≡ Ok (Some unique.Package))
        × (unique_at 2 ≡ Ok (Some unique.Module)) × (unique_at 3 ≡ Ok (Some unique.Attribute))
        × (unique_at 4 ≡ Ok (Some unique.Alias)) }
    ensures other_unique { (n : ℕ) → unique_at (5 + n) ≡ Err (plain_answer 6) }
    ensures sections { (section_number section.Future ≡ 0) × (section_number section.Stdlib ≡ 1)
        × (section_number section.ThirdParty ≡ 2) × (section_number section.FirstParty ≡ 3)
        × (section_number section.LocalFolder ≡ 4) }
    ensures own_sections { (n : ℕ) → section_number (section.Own n) ≡ 5 + n }
    ensures own_lists { OWN_LIST ≡ 26 }
{}
