//! An index of lists of modules.
ghost use Rattle.std.specs.Prelude.{◌≡◌, ◌<◌, ℕ, OnOk, Some, None, List, if◌then◌else◌, bytes_eq, length, map, string_bytes};
ghost use Rattle.std.specs.HashMap.{get_by_text};
ghost use Rattle.std.specs.Option.{option_or};
ghost use Rattle.isort_settings.specs.Holds.{holds};

use std::alloc::{AllocError, Global};
use std::collections::HashMap;

/// For each module in some lists, the place of the first list that holds it.
#[derive(Debug, Drop)]
pub struct Index {
    /// The places.
    pub places: HashMap<String, usize>,
    /// A length that no module in the lists exceeds. A longer text is in none of them, so it isn't looked up.
    pub longest: usize,
    pub ghost none_is_longer: { (text : List ℕ) → longest < length text
        → get_by_text places text ≡ None },
}

impl Index {
    /// The index of no list. This takes no memory.
    pub fn empty(alloc: Global) -> Index
        ensures { (text : List ℕ) → get_by_text result.places text ≡ None }
    {
        Index {
            places: HashMap::new(alloc),
            longest: 0,
        }
    }

    /// Adds the modules of a list that no earlier list holds.
    pub fn add_list(&mut self, list: &[String], place: usize) -> Result<(), AllocError>
        ensures { OnOk result ((text : List ℕ) → get_by_text self.new.places text
            ≡ option_or (get_by_text self.old.places text)
            (if holds (map string_bytes list.now) text then Some place else None)) }
    {
        for name in list {
            self.add_module(name, place)?;
        }
        Ok(())
    }

    /// Adds a module, unless it is there.
    fn add_module(&mut self, name: &String, place: usize) -> Result<(), AllocError>
        ensures { OnOk result ((text : List ℕ) → get_by_text self.new.places text
            ≡ option_or (get_by_text self.old.places text)
            (if bytes_eq (string_bytes name.now) text then Some place else None)) }
    {
        self.longest = self.longest.max(name.len());
        self.places.entry(name.clone()?)?.or_insert(place);
        Ok(())
    }

    /// The place of the first list that holds the module.
    pub fn get(&self, module: &str) -> Option<usize>
        ensures { result ≡ get_by_text self.now.places «module».now }
    {
        if module.len() > self.longest {
            return None;
        }
        self.places.get(module).copied()
    }
}
