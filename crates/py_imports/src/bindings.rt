//! What the import statements of a logical line bind.
ghost use Rattle.std.specs.Prelude.{◌≡◌, ◌<◌, ◌+◌, Some, false, [], ◌∷◌, ◌++◌, length, map, slice_get, codes, IfOk};
ghost use Rattle.std.specs.Prelude.{OnOk, IfErr, string_bytes};
ghost use Rattle.std.specs.List.{list_any};
ghost use Rattle.std.specs.Str.{bytes_eq};
ghost use Rattle.py_lines.specs.Lines.{line_in};
ghost use Rattle.py_lines.specs.declared.fault.FaultKind.TheVariants.{BadImport};
ghost use Rattle.py_lines.specs.declared.token.Token.{Token};
ghost use Rattle.py_imports.specs.Grammar.{begins_import};
ghost use Rattle.py_imports.specs.Statement.{TokenPlace};
ghost use Rattle.py_imports.specs.Binds.{terminal_in, Binds, Refuses};
ghost use Rattle.py_imports.specs.BindingValue.{binding_value, binding_at};
ghost use Rattle.py_imports.specs.Private.Items.{item_imported, AreLeft};
ghost use Rattle.py_imports.specs.Private.Bindings.{is_first_word, statement_fault, BindsOne, RefusesItems};
ghost use Rattle.py_imports.specs.Private.Bindings.{BindsMoreAt, RefusesAt, IsPlaceAt};

use crate::binding::{Binding, copy_of_text};
use crate::error::ImportError;
use crate::items::{BadStatement, ImportItem, ImportItems, form_of};
use crate::statement::{depth_past, divides, statement_end};
use py_lines::{Fault, FaultKind, Unit};
use std::alloc::{AllocError, Global};

/// Most modules have no more bytes than this, so their text is written without growing.
const USUAL_MODULE_LEN: usize = 24;

/// What the bindings of one statement have in common.
#[derive(Clone, Copy)]
struct Head {
    /// The line of the statement's first token, from 1.
    line: u64,
    /// Whether its logical line is indented.
    indented: bool,
}

/// Puts the binding of an item after `bindings`.
fn push_binding(
    alloc: Global,
    head: Head,
    item: ImportItem<'_>,
    bindings: &mut Vec<Binding>,
) -> Result<(), AllocError>
    ensures { OnOk result (map binding_value bindings.new.items
        ≡ map binding_value bindings.old.items
        ++ binding_at head.line head.indented (item_imported item.entry) ∷ []) }
{
    let mut module_name = String::with_capacity(alloc, USUAL_MODULE_LEN)?;
    item.module.push_onto(&mut module_name)?;
    bindings.push(Binding {
        line: head.line,
        indented: head.indented,
        module_name,
        attribute_name: copy_of_text(alloc, item.attribute)?,
        alias_name: copy_of_text(alloc, item.alias)?,
    })?;
    Ok(())
}

/// Puts the bindings of a statement's items after `bindings`; or answers the fault, where it isn't in the grammar.
fn bind_items(
    alloc: Global,
    mut items: ImportItems<'_>,
    head: Head,
    fault: Fault,
    bindings: &mut Vec<Binding>,
) -> Result<(), ImportError>
    ensures ok { OnOk result
        (BindsOne (AreLeft items.entry) head bindings.old.items bindings.new.items) }
    ensures err { IfErr result (λ e. RefusesItems (AreLeft items.entry) fault e) }
{
    'items: loop {
        match items.next() {
            Ok(Some(item)) => push_binding(alloc, head, item, bindings)?,
            Ok(None) => return Ok(()),
            Err(BadStatement) => return Err(ImportError::Fault(fault)),
        }
    }
}

/// The fault of a bad statement that starts at `place`.
fn fault_at(unit: &Unit<'_>, place: usize) -> Fault
    requires { place < length unit.now.tokens.now }
    ensures { (t : Token) → slice_get unit.now.tokens.now place ≡ Some t
        → result ≡ statement_fault unit.now.offset t }
{
    let token = unit.tokens[place];
    Fault {
        kind: FaultKind::BadImport,
        offset: unit.offset + token.start as u64,
        line: token.line,
    }
}

/// Puts what the statement that starts at `place` binds after `bindings`.
fn bind_statement(
    alloc: Global,
    unit: &Unit<'_>,
    place: usize,
    bindings: &mut Vec<Binding>,
) -> Result<(), ImportError>
    requires { place < length unit.now.tokens.now }
    ensures ok { OnOk result
        (BindsMoreAt (line_in unit.now) place bindings.old.items bindings.new.items) }
    ensures err { IfErr result (λ e. (p : TokenPlace) → IsPlaceAt unit.now.tokens.now place p
        → RefusesAt (line_in unit.now) p e) }
{
    let token = unit.tokens[place];
    let Some(form) = form_of(token.kind, unit.word(place)) else {
        return Ok(());
    };
    let end = statement_end(unit.tokens, place + 1);
    let items = ImportItems::new(unit, form, place + 1, end);
    let head = Head {
        line: token.line,
        indented: unit.indent > 0,
    };
    bind_items(alloc, items, head, fault_at(unit, place), bindings)
}

/// Whether a word has the length of `import` or `from`, and begins as one of them, which rules out most words.
#[inline(always)]
fn may_be_first_word(word: &[u8]) -> bool
    ensures import { result ≡ false → bytes_eq word.now (codes "import") ≡ false }
    ensures from { result ≡ false → bytes_eq word.now (codes "from") ≡ false }
{
    match word {
        [first, ..] => {
            let has_length = (word.len() == 4) | (word.len() == 6);
            has_length & ((*first == b'i') | (*first == b'f'))
        }
        [] => false,
    }
}

/// Whether the token at `place` may be spelled as the first word of an import statement.
#[inline(always)]
fn may_be_first_word_at(unit: &Unit<'_>, place: usize) -> bool
    requires { place < length unit.now.tokens.now }
    ensures { result ≡ false → (t : Token) → slice_get unit.now.tokens.now place ≡ Some t
        → is_first_word unit.now.text.now t ≡ false }
{
    let token = unit.tokens[place];
    may_be_first_word(&unit.text.as_bytes()[token.start..token.stop])
}

/// Whether a token of the logical line may be spelled so. In most lines none may. No branch depends on what the tokens are, as a processor
/// can't foresee it.
#[inline(always)]
fn may_have_first_word(unit: &Unit<'_>) -> bool
    ensures { result ≡ false
        → list_any (is_first_word unit.now.text.now) unit.now.tokens.now ≡ false }
{
    let mut may = false;
    'tokens: for place in 0..unit.tokens.len() {
        may |= may_be_first_word_at(unit, place);
    }
    may
}

/// Whether the token at `place` is spelled as the first word of an import statement.
#[inline(always)]
fn is_first_word(unit: &Unit<'_>, place: usize) -> bool
    requires { place < length unit.now.tokens.now }
    ensures { (t : Token) → slice_get unit.now.tokens.now place ≡ Some t
        → result ≡ is_first_word unit.now.text.now t }
{
    form_of(unit.tokens[place].kind, unit.word(place)).is_some()
}

/// Whether a token of the logical line is spelled as the first word of an import statement, `import` or `from`. Few lines
/// have one, and a line without binds nothing.
pub fn has_first_word(unit: &Unit<'_>) -> bool
    ensures word { result
        ≡ list_any (λ t. begins_import (terminal_in unit.now.text.now t ∷ [])) unit.now.tokens.now }
    ensures none { result ≡ false → Binds (line_in unit.now) [] }
{
    if !may_have_first_word(unit) {
        return false;
    }
    'tokens: for place in 0..unit.tokens.len() {
        if is_first_word(unit, place) {
            return true;
        }
    }
    false
}

/// What all import statements of a logical line bind, statement after statement. Few lines need it.
#[cold]
fn bind_statements(alloc: Global, unit: &Unit<'_>) -> Result<Vec<Binding>, ImportError>
    ensures ok { IfOk result (λ bindings.
        Binds (line_in unit.now) (map binding_value bindings.items)) }
    ensures err { IfErr result (λ e. Refuses (line_in unit.now) e) }
{
    let mut bindings = Vec::new(alloc);
    let mut depth: usize = 0;
    let mut starts = true;
    'tokens: for (place, token) in unit.tokens.iter().enumerate() {
        if token.kind.is_comment() {
            continue;
        }
        if starts {
            bind_statement(alloc, unit, place, &mut bindings)?;
        }
        starts = divides(depth, token.kind);
        depth = depth_past(depth, token.kind);
    }
    Ok(bindings)
}

/// What all import statements of a logical line bind, in the order written (Python Language Reference, 7.11).
///
/// A statement starts with the line's first token, and after each `;` and `:` outside brackets.
///
/// - `Fault`: F9, at the first token of the first import statement that isn't in the grammar.
/// - `Memory`: out of memory.
pub fn bindings_of(alloc: Global, unit: &Unit<'_>) -> Result<Vec<Binding>, ImportError>
    ensures ok { IfOk result (λ bindings.
        Binds (line_in unit.now) (map binding_value bindings.items)) }
    ensures err { IfErr result (λ e. Refuses (line_in unit.now) e) }
{
    if has_first_word(unit) {
        bind_statements(alloc, unit)
    } else {
        Ok(Vec::new(alloc))
    }
}
