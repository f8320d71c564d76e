//! Texts and imports as records of bytes.
ghost use Rattle.std.specs.Prelude.{◌≡◌, ◌++◌, OnOk, if◌then◌else◌, string_bytes};
ghost use Rattle.std.specs.Option.{option_map};
ghost use Rattle.py_imports.specs.BindingValue.{binding_value};
ghost use Rattle.isort_c.specs.Records.{text_record, option_record, place_record, value_record};

use py_imports::Binding;
use std::alloc::AllocError;

/// The byte that says whether it is so.
fn flag(is: bool) -> u8
    ensures { result ≡ (if is then 1 else 0) }
{
    if is { 1 } else { 0 }
}

/// Puts a text with its length after `out`.
#[tactic(auto, unfolding(crate::specs::Records::text_record))]
pub fn push_text(text: &str, out: &mut Vec<u8>) -> Result<(), AllocError>
    ensures { OnOk result (out.new.items ≡ out.old.items ++ text_record text.now) }
{
    out.extend_from_slice(&(text.len() as u64).to_le_bytes())?;
    out.extend_from_slice(text.as_bytes())?;
    Ok(())
}

/// Puts a byte after `out` that says whether there is a text, and then that text.
#[tactic(auto, unfolding(crate::specs::Records::option_record))]
fn push_option(text: &Option<String>, out: &mut Vec<u8>) -> Result<(), AllocError>
    ensures { OnOk result (out.new.items
        ≡ out.old.items ++ option_record (option_map string_bytes text.now)) }
{
    match text {
        None => {
            out.push(0)?;
        }
        Some(text) => {
            out.push(1)?;
            push_text(text.as_str(), out)?;
        }
    }
    Ok(())
}

/// Puts a line, and whether it is indented, after `out`.
#[tactic(auto, unfolding(crate::specs::Records::place_record))]
fn push_place(line: u64, indented: bool, out: &mut Vec<u8>) -> Result<(), AllocError>
    ensures { OnOk result (out.new.items ≡ out.old.items ++ place_record line indented) }
{
    out.extend_from_slice(&line.to_le_bytes())?;
    out.push(flag(indented))?;
    Ok(())
}

/// Puts the record of a binding after `out`.
pub fn push_binding(binding: &Binding, out: &mut Vec<u8>) -> Result<(), AllocError>
    ensures { OnOk result (out.new.items
        ≡ out.old.items ++ value_record (binding_value binding.now)) }
{
    push_place(binding.line, binding.indented, out)?;
    push_text(binding.module_name.as_str(), out)?;
    push_option(&binding.attribute_name, out)?;
    push_option(&binding.alias_name, out)?;
    Ok(())
}
