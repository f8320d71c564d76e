//! What a line says to isort.
ghost use Rattle.std.specs.Prelude.{◌≡◌, not, slice_get};
ghost use Rattle.std.specs.List.{position};
ghost use Rattle.py_lines.specs.Lines.{line_in};
ghost use Rattle.py_lines.specs.LogicalLine.{LogicalLine};
ghost use Rattle.py_imports.specs.Statement.{is_comment, significant};
ghost use Rattle.isort_sort.specs.Private.Actions.{asks_to_skip, no_actions, AreActions};
ghost use Rattle.isort_sort.specs.Private.Markers.{HoldsLineAt};
ghost use Rattle.isort_sort.specs.Private.LineRole.{turned};
ghost use Rattle.isort_sort.specs.Row.{is_comment_kind, is_string, parts_blocks, says_alone, string_skips};

use crate::comment::comments_say;
use crate::markers::Markers;
use py_imports::{ActionComment, says};
use py_lines::{TokKind, Token, Unit, UnitKind};

/// The place of the first token that is no comment.
pub(crate) fn first_code(tokens: &[Token]) -> Option<usize>
    ensures { result ≡ position (λ t. not (is_comment t.kind)) tokens.now }
{
    tokens.iter().position(|token| !token.kind.is_comment())
}

/// Whether a token is a string.
fn is_string(kind: TokKind) -> bool
    ensures { result ≡ is_string kind }
{
    matches!(kind, TokKind::Str)
}

/// Whether the line's first token that is no comment is a string that says `skip_file`.
fn string_skips(unit: &Unit<'_>) -> bool
    ensures { result ≡ string_skips (line_in unit.now)
        (slice_get (significant (line_in unit.now).tokens) 0) }
{
    match first_code(unit.tokens) {
        Some(place) => {
            is_string(unit.tokens[place].kind) && says(unit.word(place), ActionComment::SkipFile)
        }
        None => false,
    }
}

/// Whether a logical line holds comments alone.
fn is_comment_kind(kind: UnitKind) -> bool
    ensures { result ≡ is_comment_kind kind }
{
    matches!(kind, UnitKind::Comment)
}

/// Whether the line holds comments alone, one of which says the action.
fn says_alone(unit: &Unit<'_>, action: ActionComment) -> bool
    ensures { result ≡ says_alone action (line_in unit.now) }
{
    is_comment_kind(unit.kind) && comments_say(unit, action)
}

/// The actions that a line says (isort documentation, "Action Comments").
#[derive(Clone, Copy)]
pub(crate) struct Actions {
    /// Whether a comment says `skip_file`.
    skip_file: bool,
    /// Whether the first token that is no comment is a string that says `skip_file`.
    string_skips: bool,
    /// Whether the line holds comments alone, one of which says `off`.
    off: bool,
    /// Whether the line holds comments alone, one of which says `on`.
    on: bool,
    /// Whether the line holds comments alone, one of which says `split`.
    split: bool,
}

impl Actions {
    /// No action.
    fn none() -> Actions
        ensures { result ≡ no_actions }
    {
        Actions {
            skip_file: false,
            string_skips: false,
            off: false,
            on: false,
            split: false,
        }
    }

    /// The actions of a line, each looked for in its text.
    fn said_in(unit: &Unit<'_>) -> Actions
        ensures { AreActions (line_in unit.now) result }
    {
        Actions {
            skip_file: comments_say(unit, ActionComment::SkipFile),
            string_skips: string_skips(unit),
            off: says_alone(unit, ActionComment::Off),
            on: says_alone(unit, ActionComment::On),
            split: says_alone(unit, ActionComment::Split),
        }
    }

    /// The actions of a line of the text. Most lines hold no `isort:`, and say none.
    pub(crate) fn of(unit: &Unit<'_>, markers: &mut Markers<'_>) -> Actions
        requires { HoldsLineAt markers.old (line_in unit.now) }
        ensures actions { AreActions (line_in unit.now) result }
        ensures same { markers.new ≡ markers.old }
    {
        if markers.is_silent(unit) {
            Actions::none()
        } else {
            Actions::said_in(unit)
        }
    }

    /// Whether the line asks for its text to be left as it is; `begun` says whether code stands before it.
    pub(crate) fn asks_to_skip(self, begun: bool) -> bool
        ensures { (line : LogicalLine) → AreActions line self → result ≡ asks_to_skip begun line }
    {
        self.skip_file || (!begun && self.string_skips)
    }

    /// Whether sorting is off after the line, where it was off before it or not.
    pub(crate) fn is_off_after(self, off: bool) -> bool
        ensures { (line : LogicalLine) → AreActions line self → result ≡ turned off line }
    {
        self.off || (off && !self.on)
    }

    /// Whether the line parts blocks.
    pub(crate) fn parts_blocks(self) -> bool
        ensures { (line : LogicalLine) → AreActions line self → result ≡ parts_blocks line }
    {
        self.off || self.on || self.split
    }
}
