//! Whether a text asks to be left as it is.
ghost use Rattle.std.specs.Prelude.{◌≡◌, ◌||◌, []};
ghost use Rattle.py_lines.specs.Lines.{line_in};
ghost use Rattle.py_lines.specs.LogicalLine.{LogicalLine};
ghost use Rattle.isort_sort.specs.Private.Actions.{asks_to_skip, AreActions};
ghost use Rattle.isort_sort.specs.Private.Reading.{IsSkipSoFar, ReadsSkip};

use crate::actions::{Actions, first_code};
use py_lines::Unit;

/// Whether a text asks to be left as it is (isort documentation, "Action Comments"), as far as its lines were read.
#[derive(Clone, Copy)]
pub(crate) struct SkipReader {
    /// Whether a comment says `skip_file`, or the string that the text begins with.
    pub(crate) skips: bool,
    /// Whether there was a token other than a comment.
    pub(crate) begun: bool,
}

impl SkipReader {
    /// A reader of no lines.
    pub(crate) fn new() -> SkipReader
        ensures { IsSkipSoFar [] result }
    {
        SkipReader {
            skips: false,
            begun: false,
        }
    }

    /// Reads one more line, which says these actions.
    pub(crate) fn push(&mut self, unit: &Unit<'_>, actions: Actions)
        requires { AreActions (line_in unit.now) actions }
        ensures { ReadsSkip (line_in unit.now) self.old self.new }
    {
        *self = SkipReader {
            skips: self.skips_with(actions),
            begun: self.begun || first_code(unit.tokens).is_some(),
        };
    }

    /// Whether the text asks for it by what was read, or by a line that says these actions.
    fn skips_with(&self, actions: Actions) -> bool
        ensures { (line : LogicalLine) → AreActions line actions
            → result ≡ self.now.skips || asks_to_skip self.now.begun line }
    {
        self.skips || actions.asks_to_skip(self.begun)
    }
}
