//! Which imports are found.

/// By what two imports count as one.
#[derive(Clone, Copy, Debug, PartialEq, Eq)]
pub enum ImportKey {
    /// The leading dots and the first name.
    Package,
    /// The module.
    Module,
    /// The module and the attribute.
    Attribute,
    /// The module, the attribute and the alias.
    Alias,
}

/// Which imports of a text are found.
#[derive(Clone, Copy, Debug, PartialEq, Eq)]
pub struct FindOptions {
    /// Only the first import under each key, or all where there is no key.
    pub unique: Option<ImportKey>,
    /// Only the imports before the first function or class.
    pub top_only: bool,
}
