//! The layout of a block.
ghost use Rattle.std.specs.Prelude.{◌≡◌, MatchOption, OnOk, map, max, string_bytes};
ghost use Rattle.isort_settings.specs.Values.{values};
ghost use Rattle.isort_sort.specs.Private.Group.{group_value};
ghost use Rattle.isort_sort.specs.Layout.{gap_by_kind, gap_by_comment};
ghost use Rattle.isort_sort.specs.Private.Packing.{HasSection};
ghost use Rattle.isort_sort.specs.Private.Values.{statement_value};

use crate::group::Group;
use crate::statement::{FromItem, Statement};
use crate::texts::push_times;
use crate::width::width;
use crate::wrap_mode::WrapMode;
use crate::wrapping::{Wrap, bracket_width, push_alias, push_head, push_items, push_remark};
use isort_settings::Settings;
use std::alloc::AllocError;
use std::slice;

/// How many blank lines stand between two statements, by their sections and forms.
fn gap_by_kind(settings: &Settings, before: &Group, group: &Group) -> u32
    requires first { HasSection (values settings.now) before.now }
    requires second { HasSection (values settings.now) group.now }
    ensures { result ≡ gap_by_kind (values settings.now) (statement_value before.now.statement)
        (statement_value group.now.statement) }
{
    if before.section != group.section {
        settings.lines_between_sections
    } else if !settings.force_sort_within_sections
        && !before.statement.is_from()
        && group.statement.is_from()
    {
        settings.lines_between_types
    } else {
        0
    }
}

/// How many blank lines stand between two statements, the second with the comments above it.
fn gap(settings: &Settings, before: &Group, group: &Group) -> u32
    requires first { HasSection (values settings.now) before.now }
    requires second { HasSection (values settings.now) group.now }
    ensures { result ≡ max
        (gap_by_kind (values settings.now) (statement_value before.now.statement)
        (statement_value group.now.statement))
        (gap_by_comment (values settings.now) (map string_bytes group.now.above.items)) }
{
    let by_comment = settings.ensure_newline_before_comments && !group.above.is_empty();
    gap_by_kind(settings, before, group).max(u32::from(by_comment))
}

/// What a statement of names writes.
#[derive(Clone, Copy)]
struct Names<'a> {
    /// The module.
    path: &'a str,
    /// The names, in order.
    items: &'a [FromItem],
    /// What its joined comments say.
    comments: &'a [String],
}

/// How the statements of a block are laid out.
#[derive(Clone, Copy)]
pub(crate) struct Layout<'a> {
    /// The settings.
    pub(crate) settings: &'a Settings,
    /// The block's indentation.
    pub(crate) indentation: &'a str,
    /// What ends every line.
    pub(crate) end: &'static str,
}

impl Layout<'_> {
    ghost use Rattle.std.specs.Option.{option_map};
    ghost use Rattle.isort_sort.specs.Private.LayoutTexts.{
      above_text,
      closing_text,
      further_text,
      gap_text,
      group_text,
      hanging_in_brackets_text,
      hanging_text,
      in_brackets_text,
      line_end_text,
      names_text,
      next_text,
      one_line_text,
      opening_text,
      plain_text,
      values_by,
      wrapped_text,
    };
    ghost use Rattle.isort_sort.specs.Private.Packing.{line_room, wraps};
    ghost use Rattle.isort_sort.specs.Private.Values.{item_value};
    ghost use Rattle.isort_sort.specs.Private.Writes.{Writes};
    ghost use Rattle.isort_sort.specs.Statement.{straight, star};
    ghost use Rattle.isort_sort.specs.Wrapping.{trailing_comma};

    /// How many characters the names on a line of a wrapped statement may have, where they are several.
    fn line_room(&self, path: &str) -> usize
        ensures { result ≡ line_room (values_by self.now) self.now.indentation.now path.now }
    {
        let room = (self.settings.line_length as usize).saturating_sub(width(
            self.indentation.as_bytes(),
        ));
        match WrapMode::of(self.settings) {
            WrapMode::Grid => room
                .saturating_sub(bracket_width(path))
                .saturating_sub(",".len()),
            WrapMode::HangingIndent => room.saturating_sub("    ".len() + ", \\".len()),
            WrapMode::Vertical | WrapMode::VerticalHangingIndent => 0,
        }
    }

    /// Puts the comma after the last name of a wrapped statement after `out`, where the settings ask for it.
    fn push_trailing_comma(&self, out: &mut String) -> Result<(), AllocError>
        ensures { OnOk result (Writes out.old out.new (trailing_comma (values_by self.now))) }
    {
        if self.settings.include_trailing_comma {
            out.push_str(",")?;
        }
        Ok(())
    }

    /// Puts the beginning of a `from` statement after `out`, and `opening`, which its names or its joined comment follow.
    fn push_opening(&self, out: &mut String, path: &str, opening: &str) -> Result<(), AllocError>
        ensures { OnOk result
            (Writes out.old out.new (opening_text self.now path.now opening.now)) }
    {
        out.push_str(self.indentation)?;
        push_head(out, path)?;
        out.push_str(opening)
    }

    /// Puts the joined comment after `out`, where there is one, and the line end.
    fn push_line_end(&self, out: &mut String, comments: &[String]) -> Result<(), AllocError>
        ensures { OnOk result
            (Writes out.old out.new (line_end_text self.now (map string_bytes comments.now))) }
    {
        push_remark(out, comments)?;
        out.push_str(self.end)
    }

    /// Puts a statement in brackets from its first line on after `out`: the modes 0 (grid) and 1 (vertical).
    fn push_in_brackets(&self, out: &mut String, names: Names<'_>) -> Result<(), AllocError>
        ensures { OnOk result (Writes out.old out.new (in_brackets_text self.now names.entry)) }
    {
        let wrap = Wrap {
            room: self.line_room(names.path),
            between: ",",
            end: self.end,
            indentation: self.indentation,
            spaces: bracket_width(names.path),
        };
        self.push_opening(out, names.path, "(")?;
        wrap.push_items(out, names.items)?;
        self.push_trailing_comma(out)?;
        out.push_str(")")?;
        self.push_line_end(out, names.comments)
    }

    /// Puts the names of a wrapped statement after `out`, on lines that are indented further by four spaces.
    fn push_further(
        &self,
        out: &mut String,
        room: usize,
        between: &'static str,
        items: &[FromItem],
    ) -> Result<(), AllocError>
        ensures { OnOk result (Writes out.old out.new
            (further_text self.now room between.now (map item_value items.now))) }
    {
        let wrap = Wrap {
            room,
            between,
            end: self.end,
            indentation: self.indentation,
            spaces: 4,
        };
        out.push_str(self.indentation)?;
        out.push_str("    ")?;
        wrap.push_items(out, items)
    }

    /// Puts a statement after `out` whose names follow a backslash: the mode 2 (hanging indent).
    fn push_hanging(&self, out: &mut String, names: Names<'_>) -> Result<(), AllocError>
        ensures { OnOk result (Writes out.old out.new (hanging_text self.now names.entry)) }
    {
        self.push_opening(out, names.path, "\\")?;
        out.push_str(self.end)?;
        self.push_further(out, self.line_room(names.path), ", \\", names.items)?;
        self.push_line_end(out, names.comments)
    }

    /// Puts the end of a statement after `out` whose closing bracket stands on a line of its own.
    fn push_closing(&self, out: &mut String) -> Result<(), AllocError>
        ensures { OnOk result (Writes out.old out.new (closing_text self.now)) }
    {
        self.push_trailing_comma(out)?;
        out.push_str(self.end)?;
        out.push_str(self.indentation)?;
        out.push_str(")")?;
        out.push_str(self.end)
    }

    /// Puts a statement after `out` whose names stand on lines between the brackets: the mode 3 (vertical hanging
    /// indent).
    fn push_hanging_in_brackets(&self, out: &mut String, names: Names<'_>) -> Result<(), AllocError>
        ensures { OnOk result
            (Writes out.old out.new (hanging_in_brackets_text self.now names.entry)) }
    {
        self.push_opening(out, names.path, "(")?;
        self.push_line_end(out, names.comments)?;
        self.push_further(out, self.line_room(names.path), ",", names.items)?;
        self.push_closing(out)
    }

    /// Puts the lines of a wrapped statement after `out`.
    fn push_wrapped(&self, out: &mut String, names: Names<'_>) -> Result<(), AllocError>
        ensures { OnOk result (Writes out.old out.new (wrapped_text self.now names.entry)) }
    {
        match WrapMode::of(self.settings) {
            WrapMode::Grid | WrapMode::Vertical => self.push_in_brackets(out, names),
            WrapMode::HangingIndent => self.push_hanging(out, names),
            WrapMode::VerticalHangingIndent => self.push_hanging_in_brackets(out, names),
        }
    }

    /// Puts names from a module after `out`, on one line without its line end.
    fn push_one_line(&self, out: &mut String, names: Names<'_>) -> Result<(), AllocError>
        ensures { OnOk result (Writes out.old out.new (one_line_text self.now names.entry)) }
    {
        out.push_str(self.indentation)?;
        push_head(out, names.path)?;
        push_items(out, names.items)?;
        push_remark(out, names.comments)
    }

    /// Whether a statement of names is wrapped, which would be this on one line.
    fn wraps(&self, line: &[u8], items: &[FromItem]) -> bool
        ensures { result ≡ wraps (values_by self.now) line.now (map item_value items.now) }
    {
        let is_whole = match WrapMode::of(self.settings) {
            WrapMode::Grid | WrapMode::Vertical => items.len() == 1,
            WrapMode::HangingIndent | WrapMode::VerticalHangingIndent => false,
        };
        let least = self.settings.force_grid_wrap as usize;
        let is_forced = least > 0 && least <= items.len();
        !is_whole && (is_forced || width(line) > self.settings.line_length as usize)
    }

    /// Puts the lines of names from a module after `out`.
    ///
    /// The one line is written first, and taken back where the statement has to be wrapped.
    fn push_names(&self, out: &mut String, names: Names<'_>) -> Result<(), AllocError>
        ensures { OnOk result (Writes out.old out.new (names_text self.now names.entry)) }
    {
        let start = out.len();
        self.push_one_line(out, names)?;
        if !self.wraps(&out.as_bytes()[start..], names.items) {
            return out.push_str(self.end);
        }
        out.truncate(start);
        self.push_wrapped(out, names)
    }

    /// Puts `import MODULE` after `out`.
    fn push_straight(
        &self,
        out: &mut String,
        path: &str,
        alias: &Option<String>,
        comments: &[String],
    ) -> Result<(), AllocError>
        ensures { OnOk result (Writes out.old out.new (plain_text self.now
            (straight path.now (option_map string_bytes alias.now))
            (map string_bytes comments.now))) }
    {
        out.push_str(self.indentation)?;
        out.push_str("import ")?;
        out.push_str(path)?;
        push_alias(out, alias)?;
        self.push_line_end(out, comments)
    }

    /// Puts `from MODULE import *` after `out`.
    fn push_star(&self, out: &mut String, path: &str, comments: &[String]) -> Result<(), AllocError>
        ensures { OnOk result (Writes out.old out.new
            (plain_text self.now (star path.now) (map string_bytes comments.now))) }
    {
        self.push_opening(out, path, "*")?;
        self.push_line_end(out, comments)
    }

    /// Puts the comments above a statement after `out`, each on a line.
    fn push_above(&self, out: &mut String, above: &[String]) -> Result<(), AllocError>
        ensures { OnOk result
            (Writes out.old out.new (above_text self.now (map string_bytes above.now))) }
    {
        for comment in above {
            out.push_str(self.indentation)?;
            out.push_str(comment.as_str())?;
            out.push_str(self.end)?;
        }
        Ok(())
    }

    /// Puts a statement after `out`, with the comments above it.
    fn push_group(&self, out: &mut String, group: &Group) -> Result<(), AllocError>
        ensures { OnOk result
            (Writes out.old out.new (group_text self.now (group_value group.now))) }
    {
        self.push_above(out, &group.above)?;
        match &group.statement {
            Statement::Straight { module, alias } => {
                self.push_straight(out, module, alias, &group.comments)
            }
            Statement::Star { module } => self.push_star(out, module, &group.comments),
            Statement::Names { module } => {
                let names = Names {
                    path: module,
                    items: &group.items,
                    comments: &group.comments,
                };
                self.push_names(out, names)
            }
            Statement::Single { module, item } => {
                let names = Names {
                    path: module,
                    items: slice::from_ref(item),
                    comments: &group.comments,
                };
                self.push_names(out, names)
            }
        }
    }

    /// Puts the blank lines before a statement after `out`; none where there is no statement before it.
    fn push_gap(
        &self,
        out: &mut String,
        before: &Option<Group>,
        group: &Group,
    ) -> Result<(), AllocError>
        requires before { MatchOption before.now (Unit {0}) (HasSection (values_by self.now)) }
        requires section { HasSection (values_by self.now) group.now }
        ensures { OnOk result (Writes out.old out.new
            (gap_text self.now (option_map group_value before.now) (group_value group.now))) }
    {
        match before {
            Some(before) => push_times(out, self.end, gap(self.settings, before, group) as usize),
            None => Ok(()),
        }
    }

    /// Puts the next statement after `out`, with the blank lines before it and the comments above it.
    pub(crate) fn push_next(
        &self,
        out: &mut String,
        before: &Option<Group>,
        group: &Group,
    ) -> Result<(), AllocError>
        requires before { MatchOption before.now (Unit {0}) (HasSection (values_by self.now)) }
        requires section { HasSection (values_by self.now) group.now }
        ensures { OnOk result (Writes out.old out.new
            (next_text self.now (option_map group_value before.now) (group_value group.now))) }
    {
        self.push_gap(out, before, group)?;
        self.push_group(out, group)
    }
}
