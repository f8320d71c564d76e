//! The lists of the own sections.
ghost use Rattle.std.specs.Prelude.{◌≡◌, IfOk};
ghost use Rattle.std.specs.List.{position_from};
ghost use Rattle.isort_settings.specs.Holds.{holds};
ghost use Rattle.isort_settings.specs.OwnLists.{modules_of_lists};

use crate::index::Index;
use crate::modules::is_among;
use crate::with_index::WithIndex;
use std::alloc::{AllocError, Global};
use std::marker::Model;

/// The lists of the own sections, a list of modules for each.
#[derive(Debug, Drop)]
pub struct OwnLists {
    /// The modules of each own section, in their order, with the index of the lists, where they were read from a table.
    kept: WithIndex<Vec<String>, Option<Index>>,
}

impl Model for OwnLists {
    ghost use Rattle.std.specs.Prelude.{ℕ, IfSome, List};

    ghost Value = { List (List (List ℕ)) };

    ghost use Rattle.isort_settings.specs.OwnLists.{modules_of_lists, IsIndexOf};

    ghost view = { λ own. modules_of_lists own.kept.list.items };

    ghost invariant = { λ own. IfSome own.kept.index (λ index.
        IsIndexOf (modules_of_lists own.kept.list.items) index.places) };
}

impl OwnLists {
    /// The lists, in this order, with an index of them.
    pub(crate) fn indexed(alloc: Global, lists: Vec<Vec<String>>) -> Result<OwnLists, AllocError>
        ensures { IfOk result (λ own. own ≡ modules_of_lists lists.items) }
    {
        let mut index = Index::empty(alloc);
        for (place, list) in lists.iter().enumerate() {
            index.add_list(list, place)?;
        }
        let kept = WithIndex {
            list: lists,
            index: Some(index),
        };
        Ok(OwnLists { kept })
    }

    /// The lists.
    pub fn lists(&self) -> &[Vec<String>]
        ensures { modules_of_lists result.now ≡ self.now }
    {
        self.kept.as_slice()
    }

    /// The lists, without the index. This takes no memory.
    pub fn into_lists(self) -> Vec<Vec<String>>
        ensures { modules_of_lists result.items ≡ self }
    {
        self.kept.into_list()
    }

    /// The place of the first list that holds the module.
    pub(crate) fn holder(&self, module: &str) -> Option<usize>
        ensures { result ≡ position_from (λ list. holds list «module».now) 0 self.now }
    {
        match &self.kept.index {
            Some(index) => index.get(module),
            None => self
                .kept
                .as_slice()
                .iter()
                .position(|list| is_among(list.as_slice(), module)),
        }
    }
}

/// The lists, in this order, without an index: a module is searched in one after another. This takes no memory.
impl From<Vec<Vec<String>>> for OwnLists {
    fn from(lists: Vec<Vec<String>>) -> OwnLists
        ensures { result ≡ modules_of_lists lists.items }
    {
        OwnLists {
            kept: WithIndex {
                list: lists,
                index: None,
            },
        }
    }
}

/// Lists are equal where they hold the same modules in the same order.
impl PartialEq for OwnLists {
    ghost use Rattle.std.specs.Cmp.{partial_equiv_from_equiv};
    ghost use Rattle.std.specs.Cmp.Lexicographic.{lists_equiv, nat_list_eq_equiv, pointwise};
    ghost use Rattle.std.specs.Prelude.{bytes_eq};

    ghost eq = { pointwise (pointwise bytes_eq) };

    ghost laws = { partial_equiv_from_equiv (lists_equiv (lists_equiv nat_list_eq_equiv)) };

    fn eq(&self, other: &OwnLists) -> bool {
        self.kept.list == other.kept.list
    }
}

impl Eq for OwnLists {
    ghost use Rattle.std.specs.Cmp.Lexicographic.{lists_equiv, nat_list_eq_equiv};

    ghost laws = { lists_equiv (lists_equiv nat_list_eq_equiv) };
}
