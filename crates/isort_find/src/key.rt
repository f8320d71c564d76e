//! The keys under which only the first import is found.
ghost use Rattle.std.specs.Prelude.{◌≡◌, ◌↔◌, IsTrue, IfOk, IfErr};
ghost use Rattle.py_imports.specs.BindingValue.{binding_value};
ghost use Rattle.isort_find.specs.Key.{key_of, key_eq, package_of};
ghost use Rattle.isort_find.specs.KeyText.{counted_key, key_in};

use crate::error::FindError;
use crate::options::ImportKey;
use py_imports::{Binding, copy_of_text};
use std::alloc::Global;

/// By what an import counts as one with another: two keys made for one [`ImportKey`] are equal exactly where the
/// imports count as one.
#[derive(Debug, Drop, PartialEq, Eq, PartialOrd, Ord, Hash)]
pub struct KeyText {
    /// The module, or its leading dots and first name.
    text: String,
    /// The attribute, if it counts.
    attribute: Option<String>,
    /// The alias, if it counts.
    alias: Option<String>,
}

/// The leading dots and the first name of a module.
fn package_of(name: &str) -> &str
    ensures { result.now ≡ package_of name.now }
{
    let mut named = false;
    'bytes: for (place, byte) in name.as_bytes().iter().enumerate() {
        if *byte != b'.' {
            named = true;
        } else if named {
            return &name[..place];
        }
    }
    name
}

/// The texts of a binding by which it counts as one with another.
#[derive(Clone, Copy)]
struct CountedTexts<'b> {
    /// The module, or its leading dots and first name.
    text: &'b str,
    /// The attribute, if it counts.
    attribute: Option<&'b str>,
    /// The alias, if it counts.
    alias: Option<&'b str>,
}

/// The texts of a binding that count under a key.
fn counted_texts<'b>(binding: &'b Binding, key: ImportKey) -> CountedTexts<'b>
    ensures { counted_key result ≡ key_of key (binding_value binding.now) }
{
    let whole = CountedTexts {
        text: binding.module_name.as_str(),
        attribute: binding.attribute_name.as_deref(),
        alias: binding.alias_name.as_deref(),
    };
    match key {
        ImportKey::Package => CountedTexts {
            text: package_of(whole.text),
            attribute: None,
            alias: None,
        },
        ImportKey::Module => CountedTexts {
            attribute: None,
            alias: None,
            ..whole
        },
        ImportKey::Attribute => CountedTexts {
            alias: None,
            ..whole
        },
        ImportKey::Alias => whole,
    }
}

/// Whether a binding has this key. It takes no memory.
pub(crate) fn is_key_of(known: &KeyText, binding: &Binding, key: ImportKey) -> bool
    ensures { result ≡ key_eq (key_of key (binding_value binding.now)) (key_in known.now) }
{
    let counted = counted_texts(binding, key);
    counted.text == known.text.as_str()
        && counted.attribute == known.attribute.as_deref()
        && counted.alias == known.alias.as_deref()
}

/// The key of a binding, by copies of its texts. It answers `Memory` alone.
pub fn key_of(alloc: Global, binding: &Binding, key: ImportKey) -> Result<KeyText, FindError>
    ensures ok { IfOk result (λ k. key_in k ≡ key_of key (binding_value binding.now)) }
    ensures err { IfErr result (λ e. e ≡ FindError.Memory) }
{
    let counted = counted_texts(binding, key);
    Ok(KeyText {
        text: String::from_str(alloc, counted.text)?,
        attribute: copy_of_text(alloc, counted.attribute)?,
        alias: copy_of_text(alloc, counted.alias)?,
    })
}
