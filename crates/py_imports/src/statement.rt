//! Where the statements of a logical line start and end.

ghost use Rattle.std.specs.Prelude.{◌≡◌, ◌==◌, ◌&&◌, ◌≤◌, ◌<◌, ◌+◌, ◌-◌, ◌^◌, Some, true, length, take, drop, slice_get};
ghost use Rattle.py_lines.specs.declared.token.Token.{Token};
ghost use Rattle.py_imports.specs.Statement.{is_semicolon, is_divider, depth_past, significant};
ghost use Rattle.py_imports.specs.Private.Parsing.{IsStatementBetween};

use py_lines::{TokKind, Token};

/// Whether a token at this depth ends the statement before it.
fn ends_statement(depth: usize, kind: TokKind) -> bool
    ensures { result ≡ is_semicolon kind && (depth == 0) }
{
    kind.is_operator(b';') && depth == 0
}

/// Whether a statement may start after a token at this depth.
pub(crate) fn divides(depth: usize, kind: TokKind) -> bool
    ensures { result ≡ is_divider kind && (depth == 0) }
{
    (kind.is_operator(b';') || kind.is_operator(b':')) && depth == 0
}

/// How many brackets are open after a token.
pub(crate) fn depth_past(depth: usize, kind: TokKind) -> usize
    requires { depth + 1 < 2 ^ 64 }
    ensures { result ≡ depth_past depth kind }
{
    if kind.is_opening() {
        depth + 1
    } else if kind.is_closing() {
        depth.saturating_sub(1)
    } else {
        depth
    }
}

/// Where the statement that starts at `start` ends: at the next `;` outside brackets, or after all tokens.
pub(crate) fn statement_end(tokens: &[Token], start: usize) -> usize
    requires { start ≤ length tokens.now }
    ensures from { start ≤ result }
    ensures within { result ≤ length tokens.now }
    ensures tokens { IsStatementBetween tokens.now start result }
    ensures semicolon { (t : Token) → slice_get tokens.now result ≡ Some t
        → is_semicolon t.kind ≡ true }
{
    let mut depth: usize = 0;
    'tokens: for place in start..tokens.len() {
        let kind = tokens[place].kind;
        if ends_statement(depth, kind) {
            return place;
        }
        depth = depth_past(depth, kind);
    }
    tokens.len()
}
