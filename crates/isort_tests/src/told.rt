//! What tests tell of imports and faults, as texts.
use isort_find::FindError;
use py_imports::{Binding, ImportError};
use py_lines::Fault;
use std::alloc::Global;
use test_harness::cases::was_refused;

/// Adds this. Where memory is refused, it is missing from what is told.
pub(crate) fn tell(what: &str, out: &mut String) {
    let _ = out.push_str(what);
}

/// The statement of an import. It is asked for again where a growth was refused.
fn statement_of(alloc: Global, binding: &Binding) -> Result<String, ImportError> {
    match binding.statement(alloc) {
        Err(_) if was_refused(alloc) => binding.statement(alloc),
        statement => statement,
    }
}

/// An import: its line, and its statement.
pub(crate) fn tell_binding(alloc: Global, binding: &Binding, out: &mut String) {
    if let Ok(statement) = statement_of(alloc, binding) {
        let line = binding.line;
        let indented = if binding.indented { "indented " } else { "" };
        let _ = writeln!(out, "{line} {indented}{statement}");
    }
}

/// A fault: what is printed of it, its byte, and its line.
fn tell_fault(fault: Fault, out: &mut String) {
    let Fault { kind, offset, line } = fault;
    let _ = writeln!(out, "{kind}, {offset}, {line}");
}

/// A fault, or that memory is refused.
pub(crate) fn tell_error(error: FindError, out: &mut String) {
    match error {
        FindError::Fault(fault) => tell_fault(fault, out),
        FindError::Memory => tell("out of memory\n", out),
    }
}
