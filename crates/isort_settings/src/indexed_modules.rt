//! A list of modules with an index of it.
ghost use Rattle.std.specs.Prelude.{◌≡◌, ℕ, IfOk, List, map, string_bytes};
ghost use Rattle.isort_settings.specs.Holds.{holds};

use crate::index::Index;
use crate::with_index::WithIndex;
use std::alloc::{AllocError, Global};
use std::marker::Model;

/// A list of modules, in which a module is found by one look-up.
#[derive(Debug, Drop)]
pub struct IndexedModules {
    /// The modules, in their order, with the index of this one list.
    kept: WithIndex<String, Index>,
}

impl Model for IndexedModules {
    ghost use Rattle.std.specs.Prelude.{ℕ, List, [], ◌∷◌, map, string_bytes};

    ghost Value = { List (List ℕ) };

    ghost use Rattle.isort_settings.specs.OwnLists.{IsIndexOf};

    ghost view = { λ modules. map string_bytes modules.kept.list.items };

    ghost invariant = { λ modules.
        IsIndexOf (map string_bytes modules.kept.list.items ∷ []) modules.kept.index.places };
}

impl IndexedModules {
    /// The list of these modules, in this order.
    pub(crate) fn new(alloc: Global, modules: Vec<String>) -> Result<IndexedModules, AllocError>
        ensures { IfOk result (λ list. list ≡ map string_bytes modules.items) }
    {
        let mut index = Index::empty(alloc);
        index.add_list(modules.as_slice(), 0)?;
        Ok(IndexedModules {
            kept: WithIndex {
                list: modules,
                index,
            },
        })
    }

    /// The modules, in their order.
    pub fn modules(&self) -> &[String]
        ensures { map string_bytes result.now ≡ self.now }
    {
        self.kept.as_slice()
    }

    /// The modules, in their order, without the index. This takes no memory.
    pub fn into_modules(self) -> Vec<String>
        ensures { map string_bytes result.items ≡ self }
    {
        self.kept.into_list()
    }

    /// Whether the list holds the module.
    pub(crate) fn holds(&self, module: &str) -> bool
        ensures { result ≡ holds self.now «module».now }
    {
        self.kept.index.get(module).is_some()
    }
}
