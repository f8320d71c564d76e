//! One name that an import statement binds.
ghost use Rattle.std.specs.Prelude.{◌≡◌, IfOk, IfErr, string_bytes};
ghost use Rattle.std.specs.Option.{option_map};

use crate::error::ImportError;
use std::alloc::{AllocError, Global};

/// One name that an import statement binds (Python Language Reference, 7.11).
#[derive(Debug, Drop, PartialEq, Eq)]
pub struct Binding {
    /// The line of the statement's first token, from 1.
    pub line: u64,
    /// Whether its logical line is indented.
    pub indented: bool,
    /// The module: its dots and names, without spaces.
    pub module_name: String,
    /// The name after `from .. import`, or `*`; none of a whole module.
    pub attribute_name: Option<String>,
    /// The name after `as`.
    pub alias_name: Option<String>,
}

/// A copy of the text, if there is one. The only error is that memory ran out.
pub fn copy_of_text(alloc: Global, text: Option<&str>) -> Result<Option<String>, AllocError>
    ensures { IfOk result (λ copy. option_map string_bytes copy
        ≡ option_map (λ t. t.now) text.entry) }
{
    match text {
        Some(text) => Ok(Some(String::from_str(alloc, text)?)),
        None => Ok(None),
    }
}

impl Binding {
    ghost use Rattle.py_imports.specs.BindingValue.{binding_value};
    ghost use Rattle.py_imports.specs.Spelled.{statement_text};

    /// The statement that binds this alone: `import m`, `import m as a`, `from m import n` or `from m import n as a`.
    /// It answers `Memory` alone.
    pub fn statement(&self, alloc: Global) -> Result<String, ImportError>
        ensures ok { IfOk result (λ s. string_bytes s ≡ statement_text (binding_value self.now)) }
        ensures err { IfErr result (λ e. e ≡ ImportError.Memory) }
    {
        let module = self.module_name.as_str();
        let (as_word, alias) = match &self.alias_name {
            Some(alias) => (" as ", alias.as_str()),
            None => ("", ""),
        };
        let text = match &self.attribute_name {
            None => ["import ", module, as_word, alias].concat(alloc),
            Some(attribute) => {
                let name = attribute.as_str();
                ["from ", module, " import ", name, as_word, alias].concat(alloc)
            }
        };
        Ok(text?)
    }

    /// An equal binding, with texts of its own. It answers `Memory` alone.
    pub fn copy(&self, alloc: Global) -> Result<Binding, ImportError>
        ensures ok { IfOk result (λ b. binding_value b ≡ binding_value self.now) }
        ensures err { IfErr result (λ e. e ≡ ImportError.Memory) }
    {
        Ok(Binding {
            line: self.line,
            indented: self.indented,
            module_name: self.module_name.clone()?,
            attribute_name: copy_of_text(alloc, self.attribute_name.as_deref())?,
            alias_name: copy_of_text(alloc, self.alias_name.as_deref())?,
        })
    }
}
