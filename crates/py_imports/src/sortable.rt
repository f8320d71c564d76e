//! Whether a logical line can be sorted.
ghost use Rattle.std.specs.Prelude.{◌≡◌, ◌<◌, ◌+◌, ◌==◌, ◌||◌, not, false, Some, List, [], length, position, slice_get};
ghost use Rattle.std.specs.Prelude.{MatchBool, MatchOption};
ghost use Rattle.std.specs.List.{list_any, list_all};
ghost use Rattle.py_lines.specs.Lines.{line_in};
ghost use Rattle.py_lines.specs.declared.token.Token.{Token};
ghost use Rattle.py_imports.specs.Statement.{is_comment, significant, places_from, is_end};
ghost use Rattle.py_imports.specs.Shape.{mark_len, begins_so, is_parenthesis, stands_well, says_skip, IsSortable, HasShape};
ghost use Rattle.py_imports.specs.Binds.{Binds};
ghost use Rattle.py_imports.specs.BindingValue.{BindingValue};
ghost use Rattle.py_imports.specs.Private.Places.{IsFirstCode, BeginsAt, IsMovable, begins_line};

use crate::action_comment::{ActionComment, says};
use crate::items::{Form, ImportItems, form_of};
use crate::line_shape::Shape;
use crate::statement::statement_end;
use py_lines::{TokKind, Token, Unit, UnitKind};

/// The place of the first token that is no comment.
fn first_code(tokens: &[Token]) -> Option<usize>
    ensures { result ≡ position (λ t. not (is_comment t.kind)) tokens.now }
{
    tokens.iter().position(|token| !token.kind.is_comment())
}

/// The place and the first word of the import statement that code begins with, if it does.
#[tactic(auto, using(crate::proofs::ShapeLemmas::no_code))]
fn started_by_word(unit: &Unit<'_>) -> Option<(usize, Form)>
    ensures { MatchOption result (begins_so (line_in unit.now) ≡ false)
        (λ r. BeginsAt (line_in unit.now) r.0 r.1) }
{
    let UnitKind::Code = unit.kind else {
        return None;
    };
    let place = first_code(unit.tokens)?;
    let form = form_of(unit.tokens[place].kind, unit.word(place))?;
    Some((place, form))
}

/// How many bytes of a byte order mark the line begins with.
pub fn mark_len(unit: &Unit<'_>) -> usize
    ensures { result ≡ mark_len (line_in unit.now) }
{
    if unit.text.as_bytes().starts_with(b"\xef\xbb\xbf") {
        3
    } else {
        0
    }
}

/// Whether a `;` stands outside brackets.
fn is_divided(tokens: &[Token]) -> bool
    ensures { result ≡ list_any is_end (places_from [] (significant tokens.now)) }
{
    statement_end(tokens, 0) < tokens.len()
}

/// Whether a token of this kind stands well, if it is a comment: last, or directly after `(`.
fn stands_well(kind: TokKind, is_last: bool, after_opening: bool) -> bool
    ensures { result ≡ not (is_comment kind) || is_last || after_opening }
{
    !kind.is_comment() || is_last || after_opening
}

/// Whether each comment is the last token, or stands directly after `(`.
fn comments_stand_well(tokens: &[Token]) -> bool
    ensures { result ≡ list_all stands_well (places_from [] tokens.now) }
{
    let mut after_opening = false;
    'tokens: for (place, token) in tokens.iter().enumerate() {
        if !stands_well(token.kind, place + 1 == tokens.len(), after_opening) {
            return false;
        }
        after_opening = token.kind.is_operator(b'(');
    }
    true
}

/// Whether the token at `place` is a comment that says `skip`.
fn is_skip(unit: &Unit<'_>, place: usize) -> bool
    requires { place < length unit.now.tokens.now }
    ensures { (t : Token) → slice_get unit.now.tokens.now place ≡ Some t
        → result ≡ says_skip unit.now.text.now t }
{
    unit.tokens[place].kind.is_comment() && says(unit.word(place), ActionComment::Skip)
}

/// Whether a comment says `skip`. It goes by places, since a unit gives the text of the token at a place.
fn says_skip(unit: &Unit<'_>) -> bool
    ensures { result ≡ list_any (says_skip unit.now.text.now) unit.now.tokens.now }
{
    'tokens: for place in 0..unit.tokens.len() {
        if is_skip(unit, place) {
            return true;
        }
    }
    false
}

/// Whether the token at `place` stands directly after mark and indentation.
fn stands_first(unit: &Unit<'_>, place: usize) -> bool
    requires { place < length unit.now.tokens.now }
    ensures { (t : Token) → slice_get unit.now.tokens.now place ≡ Some t
        → result ≡ begins_line (line_in unit.now) t }
{
    let start = unit.tokens[place].start;
    let mark = mark_len(unit);
    mark <= start && start - mark == unit.indent
}

/// Whether the line can be moved whose import statement begins at `place`, if that is in the grammar.
fn is_movable(unit: &Unit<'_>, place: usize) -> bool
    requires { IsFirstCode unit.now.tokens.now place }
    ensures { MatchBool result (IsMovable (line_in unit.now)) (¬ (IsMovable (line_in unit.now))) }
{
    stands_first(unit, place)
        && !is_divided(unit.tokens)
        && comments_stand_well(unit.tokens)
        && !says_skip(unit)
}

/// Whether the line can be sorted whose import statement begins at `place`.
fn is_sortable(unit: &Unit<'_>, place: usize, form: Form) -> bool
    requires { BeginsAt (line_in unit.now) place form }
    ensures { MatchBool result (IsSortable (line_in unit.now)) (¬ (IsSortable (line_in unit.now))) }
{
    let items = ImportItems::new(unit, form, place + 1, unit.tokens.len());
    is_movable(unit, place) && items.is_in_grammar()
}

/// The shape of a logical line (Python Language Reference, 7.11; isort documentation, "Action Comments").
///
/// - `Sortable`: code that is one import statement in the grammar, with no `;` outside brackets. Its first token other
///   than comments stands directly after byte order mark and indentation. Each comment is the line's last token, or
///   the next one after a `(`, and none says `skip`.
/// - `Pinned`: other code whose first token other than comments is `import` or `from`.
/// - `Other`: any other line.
pub fn shape(unit: &Unit<'_>) -> Shape
    ensures { HasShape (line_in unit.now) result }
{
    match started_by_word(unit) {
        None => Shape::Other,
        Some((place, form)) if is_sortable(unit, place, form) => Shape::Sortable,
        Some(_) => Shape::Pinned,
    }
}

/// The shape of a logical line that binds a list, as [`shape`] answers it. The import statement of such a line is in the
/// grammar, so it isn't read again.
pub fn shape_of_binding(unit: &Unit<'_>) -> Shape
    requires { (values : List BindingValue) × Binds (line_in unit.now) values }
    ensures { HasShape (line_in unit.now) result }
{
    match started_by_word(unit) {
        None => Shape::Other,
        Some((place, _)) if is_movable(unit, place) => Shape::Sortable,
        Some(_) => Shape::Pinned,
    }
}
