//! The layout of a block that was found, statement by statement.
ghost use Rattle.std.specs.Prelude.{◌≡◌, ◌<◌, ◌++◌, ℕ, List, [], ◌∷◌, Some, map, option_map, string_bytes, if◌then◌else◌};
ghost use Rattle.std.specs.Prelude.{IfOk, OnOk, MatchBool, MatchOption};
ghost use Rattle.isort_settings.specs.Values.{values};
ghost use Rattle.isort_sort.specs.Private.Arranged.{pieces_left, text_left, text_of_groups, IsArranged, IsReady};
ghost use Rattle.isort_sort.specs.Private.Compared.{Takes};
ghost use Rattle.isort_sort.specs.Private.Found.{blanks_of, found_value};
ghost use Rattle.isort_sort.specs.Private.Group.{group_value};
ghost use Rattle.isort_sort.specs.Private.LineEnd.{end_bytes};
ghost use Rattle.isort_sort.specs.Private.Packing.{HasSection};
ghost use Rattle.isort_sort.specs.Private.Writes.{Writes};

use crate::comparison::Comparison;
use crate::finder::FoundBlock;
use crate::group::{Group, group_members};
use crate::layout::Layout;
use crate::line_end::LineEnd;
use crate::row::BlankLines;
use crate::texts::push_times;
use isort_settings::Settings;
use std::alloc::{AllocError, Global};
use std::mem;
use std::vec::IntoIter;

/// How many blank lines are written after a block: none where its last line has no line end, else as many as the settings or
/// the line after it ask for (isort documentation, "lines_after_imports").
fn blank_lines(settings: &Settings, block: &FoundBlock) -> usize
    ensures { result ≡ (if block.now.ended then blanks_of (values settings.now)
        (found_value block.now) else 0) }
{
    if !block.ended {
        return 0;
    }
    let Some(next) = block.next else {
        return block.blanks;
    };
    if !block.indentation.is_empty() {
        return block.blanks;
    }
    if settings.lines_after_imports >= 0 {
        return settings.lines_after_imports as usize;
    }
    match next {
        BlankLines::Two => 2,
        BlankLines::AsMany => block.blanks,
        BlankLines::One => 1,
    }
}

/// The layout of a block, with the blank lines after it, of which the text is made statement by statement.
#[derive(Drop)]
pub(crate) struct Arrangement<'t> {
    /// The settings.
    settings: &'t Settings,
    /// The line end that is written.
    end: LineEnd,
    /// The block's indentation.
    indentation: String,
    /// Whether the last statement has a line end.
    ended: bool,
    /// The statement whose text was made last, if there is one.
    before: Option<Group>,
    /// The statements that are left.
    groups: IntoIter<Group>,
    /// How many blank lines are left.
    blanks: usize,
}

/// The layout of a block, with the blank lines after it, of which no text is made yet.
pub(crate) fn arrange<'t>(
    alloc: Global,
    settings: &'t Settings,
    end: LineEnd,
    block: FoundBlock,
) -> Result<Arrangement<'t>, AllocError>
    ensures arranged { IfOk result (λ arrangement.
        IsArranged (values settings.now) (end_bytes end) (found_value block)
        (text_left arrangement)) }
    ensures ready { IfOk result (λ arrangement. IsReady arrangement) }
{
    let blanks = blank_lines(settings, &block);
    let groups = group_members(alloc, settings, block.members)?;
    Ok(Arrangement {
        settings,
        end,
        indentation: block.indentation,
        ended: block.ended,
        before: None,
        groups: groups.into_iter(),
        blanks,
    })
}

impl Arrangement<'_> {
    /// Puts the text of a statement after `out`, which the statements that are left follow, with the blank lines before it and the
    /// comments above it. The block's last line has its line end only where it had one.
    fn push_statement(&self, out: &mut String, group: &Group) -> Result<(), AllocError>
        requires before { MatchOption self.now.before (Unit {0})
            (HasSection (values self.now.settings.now)) }
        requires section { HasSection (values self.now.settings.now) group.now }
        ensures { OnOk result ((piece : List ℕ) × Writes out.old out.new piece
            × (text_of_groups self.now (option_map group_value self.now.before)
            (group_value group.now ∷ map group_value self.now.groups.rest.items)
            ≡ piece ++ text_of_groups self.now (Some (group_value group.now))
            (map group_value self.now.groups.rest.items))) }
    {
        let end = self.end.as_str();
        let layout = Layout {
            settings: self.settings,
            indentation: self.indentation.as_str(),
            end,
        };
        layout.push_next(out, &self.before, group)?;
        if !self.ended && self.groups.len() == 0 {
            out.truncate(out.len().saturating_sub(end.len()));
        }
        Ok(())
    }

    /// Puts the text of the next statement after `out`, with the blank lines before it and the comments above it; after the
    /// last one, the blank lines after the block. Answers whether there was anything left.
    fn push_next(&mut self, out: &mut String) -> Result<bool, AllocError>
        requires { IsReady self.old }
        ensures ready { OnOk result (IsReady self.new) }
        ensures piece { OnOk result ((piece : List ℕ) × Writes out.old out.new piece
            × (text_left self.old ≡ piece ++ text_left self.new)) }
        ensures more { IfOk result (λ more. MatchBool more
            (pieces_left self.new < pieces_left self.old) (text_left self.old ≡ [])) }
    {
        let Some(group) = self.groups.next() else {
            let blanks = mem::replace(&mut self.blanks, 0);
            push_times(out, self.end.as_str(), blanks)?;
            return Ok(blanks > 0);
        };
        let pushed = self.push_statement(out, &group);
        // Moved in before an error is answered, so that no path has to drop it.
        self.before = Some(group);
        pushed?;
        Ok(true)
    }

    /// The text of what is left of the layout.
    pub(crate) fn take_text(mut self, alloc: Global) -> Result<String, AllocError>
        requires { IsReady self }
        ensures { IfOk result (λ text. string_bytes text ≡ text_left self.entry) }
    {
        let mut text = String::new(alloc);
        'pieces: while self.push_next(&mut text)? {}
        Ok(text)
    }

    /// Compares what is left of the layout with a text. It is made statement by statement in `buffer`, and no more of it than up
    /// to the first statement that differs.
    pub(crate) fn compare(
        &mut self,
        buffer: &mut String,
        compared: &mut Comparison<'_>,
    ) -> Result<(), AllocError>
        requires { IsReady self.old }
        ensures { OnOk result (Takes compared.old (text_left self.old) compared.new) }
    {
        buffer.clear();
        'pieces: while self.push_next(buffer)? {
            compared.take(buffer.as_bytes());
            if !compared.agrees() {
                return Ok(());
            }
            buffer.clear();
        }
        Ok(())
    }
}
