//! Whether a logical line declares a function or class.
ghost use Rattle.std.specs.Prelude.{◌≡◌, slice_get};
ghost use Rattle.py_lines.specs.Lines.{line_in};
ghost use Rattle.py_imports.specs.Declaration.{is_word, is_at, begins_declaration, is_declaration};

use py_lines::{TokKind, Unit, UnitKind};

/// Whether the token at place `i`, if there is one, is this word.
fn is_word(unit: &Unit<'_>, i: usize, word: &str) -> bool
    ensures { result ≡ is_word unit.now.text.now word.now (slice_get unit.now.tokens.now i) }
{
    match unit.tokens.get(i) {
        Some(token) => matches!(token.kind, TokKind::Name) && unit.word(i) == word,
        None => false,
    }
}

/// Whether the first token is `@`.
fn begins_with_at_sign(unit: &Unit<'_>) -> bool
    ensures { result ≡ is_at (slice_get unit.now.tokens.now 0) }
{
    match unit.tokens.first() {
        Some(token) => token.kind.is_operator(b'@'),
        None => false,
    }
}

/// Whether the tokens begin with `def`, `class`, `@` or `async def`.
fn begins_declaration(unit: &Unit<'_>) -> bool
    ensures { result ≡ begins_declaration unit.now.text.now unit.now.tokens.now }
{
    is_word(unit, 0, "def")
        || is_word(unit, 0, "class")
        || begins_with_at_sign(unit)
        || (is_word(unit, 0, "async") && is_word(unit, 1, "def"))
}

/// Whether the logical line declares a function or class, or begins with a decorator of one (Python Language
/// Reference, 8.7 and 8.8): it is code without indentation whose first token is `def`, `class` or `@`, or `async`
/// with `def` after it.
pub fn is_declaration(unit: &Unit<'_>) -> bool
    ensures { result ≡ is_declaration (line_in unit.now) }
{
    unit.kind == UnitKind::Code && unit.indent == 0 && begins_declaration(unit)
}
