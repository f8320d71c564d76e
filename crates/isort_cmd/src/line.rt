//! The line of a listing that tells of one import.
ghost use Rattle.std.specs.Prelude.{◌≡◌, ◌++◌, OnOk, IfErr, string_bytes};
ghost use Rattle.py_imports.specs.BindingValue.{binding_value};
ghost use Rattle.py_imports.specs.Spelled.{statement_text};
ghost use Rattle.isort_cmd.specs.Printed.{line_text};

use crate::error::RunError;
use itoa::Buffer;
use py_imports::Binding;

/// Puts the statement that binds this alone after `out`.
fn push_statement(binding: &Binding, out: &mut String) -> Result<(), RunError>
    ensures ok { OnOk result (string_bytes out.new
        ≡ string_bytes out.old ++ statement_text (binding_value binding.now)) }
    ensures err { IfErr result (λ e. e ≡ RunError.Memory) }
{
    let module = binding.module_name.as_str();
    match &binding.attribute_name {
        None => {
            out.push_str("import ")?;
            out.push_str(module)?;
        }
        Some(name) => {
            out.push_str("from ")?;
            out.push_str(module)?;
            out.push_str(" import ")?;
            out.push_str(name.as_str())?;
        }
    }
    if let Some(alias) = &binding.alias_name {
        out.push_str(" as ")?;
        out.push_str(alias.as_str())?;
    }
    Ok(())
}

/// Puts the line of a binding after `out`.
pub(crate) fn push_line(binding: &Binding, path: &str, out: &mut String) -> Result<(), RunError>
    ensures ok { OnOk result (string_bytes out.new
        ≡ string_bytes out.old ++ line_text path.now (binding_value binding.now)) }
    ensures err { IfErr result (λ e. e ≡ RunError.Memory) }
{
    out.push_str(path)?;
    out.push(':')?;
    out.push_str(Buffer::new().format(binding.line))?;
    out.push_str(if binding.indented { " indented " } else { " " })?;
    push_statement(binding, out)?;
    out.push('\n')?;
    Ok(())
}
