//! The settings of isort: what the table `[tool.isort]` of a `pyproject.toml` says, the section of a module, and the
//! orders of modules and of names.
#![tactic(auto)]

mod error;
mod index;
mod indexed_modules;
mod key;
pub mod laws;
mod limits;
mod modules;
mod order;
mod own_key;
mod own_lists;
mod profile;
mod pyproject;
mod section;
mod section_names;
mod section_order;
mod settings;
mod standard_library;
mod table_sections;
mod value;
mod with_index;

pub use error::SettingsError;
pub use indexed_modules::IndexedModules;
pub use key::SettingKey;
pub use modules::Modules;
pub use own_key::OwnKey;
pub use own_lists::OwnLists;
pub use profile::Profile;
pub use section::Section;
pub use section_order::SectionOrder;
pub use settings::Settings;
