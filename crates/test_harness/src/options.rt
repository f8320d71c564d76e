//! What finders are asked for.
use isort_find::{FindOptions, ImportKey};

/// All imports.
pub const ALL: FindOptions = FindOptions {
    unique: None,
    top_only: false,
};

/// The imports before the first function or class.
pub const TOP: FindOptions = FindOptions {
    unique: None,
    top_only: true,
};

/// The first import of each package.
pub const PACKAGES: FindOptions = FindOptions {
    unique: Some(ImportKey::Package),
    top_only: false,
};

/// The first import of each module.
pub const MODULES: FindOptions = FindOptions {
    unique: Some(ImportKey::Module),
    top_only: false,
};

/// The first import of each attribute of a module.
pub const ATTRIBUTES: FindOptions = FindOptions {
    unique: Some(ImportKey::Attribute),
    top_only: false,
};

/// The first of equal imports.
pub const UNIQUE: FindOptions = FindOptions {
    unique: Some(ImportKey::Alias),
    top_only: false,
};
