//! What a logical line is to sorting.
ghost use Rattle.std.specs.Prelude.{◌≡◌, List};
ghost use Rattle.py_lines.specs.Lines.{line_in};
ghost use Rattle.py_lines.specs.declared.unit.UnitKind.TheVariants as unit_kind;
ghost use Rattle.py_imports.specs.Binds.{Binds};
ghost use Rattle.py_imports.specs.BindingValue.{BindingValue};
ghost use Rattle.py_imports.specs.Shape.{IsSortable};
ghost use Rattle.isort_sort.specs.Private.Actions.{AreActions};
ghost use Rattle.isort_sort.specs.Private.LineRole.{before_of, IsOfRole};
ghost use Rattle.isort_sort.specs.Row.{before_line, indentation_of};

use crate::actions::Actions;
use py_imports::{Shape, is_declaration, mark_len, shape_of_binding};
use py_lines::{Unit, UnitKind};

/// What a line asks of the blank lines between a block and itself.
#[derive(Clone, Copy)]
pub(crate) enum BlankLines {
    /// Two, before a declaration.
    Two,
    /// As many as there were, before a comment or an import that stays as it is.
    AsMany,
    /// One, before any other line.
    One,
}

/// What a logical line is to sorting.
#[derive(Clone, Copy)]
pub(crate) enum Role {
    /// A member of a block.
    Member,
    /// Comments alone, which may stand between members.
    Comments,
    /// No token. It may stand between members.
    Blank,
    /// None of these.
    Other(BlankLines),
}

/// The indentation of a line that can be sorted.
pub(crate) fn indentation<'s>(unit: &Unit<'s>) -> &'s str
    requires { IsSortable (line_in unit.now) }
    ensures { result.now ≡ indentation_of (line_in unit.now) }
{
    let start = mark_len(unit);
    &unit.text[start..start + unit.indent]
}

/// What a line of code asks of the blank lines between a block and itself, where it is no member.
fn blank_lines_before(unit: &Unit<'_>, shape: Shape) -> BlankLines
    requires { unit.now.kind ≡ unit_kind.Code }
    ensures { before_of result ≡ before_line (line_in unit.now) shape }
{
    if is_declaration(unit) {
        BlankLines::Two
    } else if shape == Shape::Pinned {
        BlankLines::AsMany
    } else {
        BlankLines::One
    }
}

/// What a line of code is to sorting; `off` says whether sorting is off before it.
fn role_of_code(unit: &Unit<'_>, off: bool) -> Role
    requires code { unit.now.kind ≡ unit_kind.Code }
    requires binds { (values : List BindingValue) × Binds (line_in unit.now) values }
    ensures { IsOfRole off (line_in unit.now) result }
{
    let shape = shape_of_binding(unit);
    if !off && shape == Shape::Sortable {
        Role::Member
    } else {
        Role::Other(blank_lines_before(unit, shape))
    }
}

/// What the line, which says these actions, is to sorting; `off` says whether sorting is off before it.
pub(crate) fn role_of(unit: &Unit<'_>, actions: Actions, off: bool) -> Role
    requires binds { (values : List BindingValue) × Binds (line_in unit.now) values }
    requires actions { AreActions (line_in unit.now) actions }
    ensures { IsOfRole off (line_in unit.now) result }
{
    match unit.kind {
        UnitKind::Blank => Role::Blank,
        UnitKind::Comment if !actions.parts_blocks() => Role::Comments,
        UnitKind::Comment => Role::Other(BlankLines::AsMany),
        UnitKind::Code => role_of_code(unit, off),
    }
}
