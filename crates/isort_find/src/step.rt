//! What the next logical line is to a finder.
ghost use Rattle.std.specs.Prelude.{◌≡◌, [], false, IsTrue};
ghost use Rattle.py_lines.specs.Lines.{line_in};
ghost use Rattle.py_imports.specs.Binds.{Binds};
ghost use Rattle.isort_find.specs.Found.{ends_top};
ghost use Rattle.isort_find.specs.Private.LineSteps.{Judges, StepsTo};

use crate::options::FindOptions;
use py_imports::{Binding, ImportError, bindings_of, has_first_word, is_declaration};
use py_lines::{Fault, LexError, Lines, Unit};
use std::alloc::Global;

/// What a finder learns from the next logical line.
#[derive(Drop)]
pub enum Step {
    /// The line counts, and binds this.
    Bindings(Vec<Binding>),
    /// The line counts, and binds nothing, as most lines.
    Plain,
    /// Nothing more counts: the line ends the top, or the text ends.
    End,
    /// The line counts and has this fault, or the rest of the text has it.
    Fault(Fault),
    /// The line was read, but memory ran out for its bindings.
    LineLost,
    /// Memory ran out for the line, which comes next.
    NoMemory,
}

/// Whether the logical line ends the top.
#[inline(always)]
fn ends_top(unit: &Unit<'_>, options: FindOptions) -> bool
    ensures { result ≡ ends_top options (line_in unit.now) }
{
    options.top_only && is_declaration(unit)
}

/// Whether the logical line counts and has no word that an import statement begins with. Most lines are so.
pub fn is_plain(unit: &Unit<'_>, options: FindOptions) -> bool
    ensures none { IsTrue result → Binds (line_in unit.now) [] }
    ensures counts { IsTrue result → ends_top options (line_in unit.now) ≡ false }
{
    !has_first_word(unit) && !ends_top(unit, options)
}

/// What the logical line is to a finder. It is never called plain.
pub fn judge(alloc: Global, unit: &Unit<'_>, options: FindOptions) -> Step
    ensures { Judges options (line_in unit.now) result }
{
    if ends_top(unit, options) {
        return Step::End;
    }
    match bindings_of(alloc, unit) {
        Ok(bindings) => Step::Bindings(bindings),
        Err(ImportError::Fault(fault)) => Step::Fault(fault),
        Err(ImportError::Memory) => Step::LineLost,
    }
}

/// Reads the next logical line.
pub fn next_step(alloc: Global, lines: &mut Lines<'_>, options: FindOptions) -> Step
    ensures step { StepsTo options lines.old result lines.new }
    ensures text { lines.new.text ≡ lines.old.text }
{
    match lines.next_unit() {
        Ok(None) => Step::End,
        Ok(Some(unit)) => {
            if is_plain(&unit, options) {
                return Step::Plain;
            }
            judge(alloc, &unit, options)
        }
        Err(LexError::Fault(fault)) => Step::Fault(fault),
        Err(LexError::Memory) => Step::NoMemory,
    }
}
