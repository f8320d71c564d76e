//! The keys of the imports that were given.
ghost use Rattle.std.specs.Prelude.{◌≡◌, ◌++◌, [], ◌∷◌, not, if◌then◌else◌, IfOk, OnErr};
ghost use Rattle.std.specs.List.{list_any};
ghost use Rattle.py_imports.specs.BindingValue.{binding_value};
ghost use Rattle.isort_find.specs.Key.{key_of, key_eq};
ghost use Rattle.isort_find.specs.KeyText.{key_in};

use crate::key::{KeyText, is_key_of};
use crate::options::ImportKey;
use py_imports::Binding;
use std::alloc::{AllocError, Global};
use std::collections::BTreeMap;
use std::marker::Model;

/// Some keys, each once. Contracts see the list of them, in the order in which they were added. They are kept in the order
/// of their texts: chosen names could make a hash with a fixed seed slow.
#[derive(Drop)]
pub struct GivenKeys {
    /// How many keys were added before each.
    places: BTreeMap<KeyText, usize>,
}

impl Model for GivenKeys {
    ghost use Rattle.std.specs.Prelude.{List};
    ghost use Rattle.isort_find.specs.Key.{Key};
    ghost use Rattle.isort_find.specs.GivenKeys.{ArePlaced, in_order};

    ghost Value = { List Key };

    ghost view = { λ k. in_order k.places.entries };

    ghost invariant = { λ k. ArePlaced k.places.entries };
}

impl GivenKeys {
    /// No keys. This takes no memory.
    pub(crate) fn new(alloc: Global) -> GivenKeys
        ensures { result ≡ [] }
    {
        GivenKeys {
            places: BTreeMap::new(alloc),
        }
    }

    /// Adds a key, if it isn't there yet, and answers whether it is new.
    pub(crate) fn insert(&mut self, key: KeyText) -> Result<bool, AllocError>
        ensures answer { IfOk result (λ is_new.
            is_new ≡ not (list_any (key_eq (key_in key)) self.old)) }
        ensures added { IfOk result (λ is_new. self.new
            ≡ (if is_new then self.old ++ key_in key ∷ [] else self.old)) }
        ensures kept { OnErr result (self.new ≡ self.old) }
    {
        if self.contains(&key) {
            return Ok(false);
        }
        let place = self.places.len();
        self.places.insert(key, place)?;
        Ok(true)
    }

    /// Whether a key is there.
    pub(crate) fn contains(&self, key: &KeyText) -> bool
        ensures { result ≡ list_any (key_eq (key_in key.now)) self.now }
    {
        self.places.contains_key(key)
    }

    /// Whether the key of a binding is there, by comparing each. It takes no memory.
    #[cold]
    pub(crate) fn has_key_of(&self, binding: &Binding, key: ImportKey) -> bool
        ensures { result ≡ list_any (key_eq (key_of key (binding_value binding.now))) self.now }
    {
        self.places
            .keys()
            .any(|known| is_key_of(known, binding, key))
    }
}
