//! The lines of a statement.
ghost use Rattle.std.specs.Prelude.{◌≡◌, ◌-◌, ◌+◌, ◌≤◌, OnOk, map, string_bytes};
ghost use Rattle.std.specs.List.{join_by};
ghost use Rattle.std.specs.Option.{SomeIff, option_map};
ghost use Rattle.py_imports.specs.Spelled.{alias_text};
ghost use Rattle.isort_sort.specs.Width as width;
ghost use Rattle.isort_sort.specs.Private.Values.{item_value};
ghost use Rattle.isort_sort.specs.Wrapping.{item_text, items_text, head, remark};
ghost use Rattle.isort_sort.specs.Private.Packing.{packed};
ghost use Rattle.isort_sort.specs.Private.Writes.{Writes};

use crate::statement::FromItem;
use crate::texts::push_times;
use crate::width::width;
use std::alloc::AllocError;

/// Puts ` as ALIAS` after `out`, where there is an alias.
pub(crate) fn push_alias(out: &mut String, alias: &Option<String>) -> Result<(), AllocError>
    ensures { OnOk result
        (Writes out.old out.new (alias_text (option_map string_bytes alias.now))) }
{
    if let Some(alias) = alias {
        out.push_str(" as ")?;
        out.push_str(alias.as_str())?;
    }
    Ok(())
}

/// Puts an item after `out`.
fn push_item(out: &mut String, item: &FromItem) -> Result<(), AllocError>
    ensures { OnOk result (Writes out.old out.new (item_text (item_value item.now))) }
{
    out.push_str(item.name.as_str())?;
    push_alias(out, &item.alias)
}

/// Puts items after `out`, on one line.
pub(crate) fn push_items(out: &mut String, items: &[FromItem]) -> Result<(), AllocError>
    ensures { OnOk result (Writes out.old out.new (items_text (map item_value items.now))) }
{
    let mut before = "";
    for item in items {
        out.push_str(before)?;
        push_item(out, item)?;
        before = ", ";
    }
    Ok(())
}

/// Puts the joined comment after `out`, where there is one.
pub(crate) fn push_remark(out: &mut String, comments: &[String]) -> Result<(), AllocError>
    ensures { OnOk result (Writes out.old out.new (remark (map string_bytes comments.now))) }
{
    let mut before = "  # ";
    for comment in comments {
        out.push_str(before)?;
        out.push_str(comment.as_str())?;
        before = "; ";
    }
    Ok(())
}

/// Puts `from MODULE import ` after `out`.
pub(crate) fn push_head(out: &mut String, path: &str) -> Result<(), AllocError>
    ensures { OnOk result (Writes out.old out.new (head path.now)) }
{
    out.push_str("from ")?;
    out.push_str(path)?;
    out.push_str(" import ")
}

/// How many characters `from MODULE import (` has: where the names stand on the next lines, after the indentation.
pub(crate) fn bracket_width(path: &str) -> usize
    ensures { result ≡ width.width (head path.now) + 1 }
{
    "from ".len() + width(path.as_bytes()) + " import (".len()
}

/// What is left of so many characters after an item, if it isn't longer.
fn room_after(room: usize, item: &FromItem) -> Option<usize>
    ensures { SomeIff result (width.width (item_text (item_value item.now)) ≤ room)
        (room - width.width (item_text (item_value item.now))) }
{
    let room = room.checked_sub(width(item.name.as_bytes()))?;
    match &item.alias {
        None => Some(room),
        Some(alias) => room
            .checked_sub(" as ".len())?
            .checked_sub(width(alias.as_bytes())),
    }
}

/// What is left of so many characters after `, ` and an item, if they aren't longer.
fn room_after_next(room: usize, item: &FromItem) -> Option<usize>
    ensures { SomeIff result (2 + width.width (item_text (item_value item.now)) ≤ room)
        (room - (2 + width.width (item_text (item_value item.now)))) }
{
    room_after(room.checked_sub(", ".len())?, item)
}

/// How the lines of a wrapped statement follow one another.
#[derive(Clone, Copy)]
pub(crate) struct Wrap<'a> {
    /// How many characters the items of a line may have, where they are several.
    pub(crate) room: usize,
    /// What ends each line of items except the last, before the line end.
    pub(crate) between: &'static str,
    /// The line end.
    pub(crate) end: &'static str,
    /// The block's indentation, with which each line begins.
    pub(crate) indentation: &'a str,
    /// How many spaces follow the indentation on the next line.
    pub(crate) spaces: usize,
}

impl Wrap<'_> {
    ghost use Rattle.isort_sort.specs.Private.Packing.{next_line};

    /// Puts the end of a line of items after `out`, and the beginning of the next line.
    fn push_break(&self, out: &mut String) -> Result<(), AllocError>
        ensures { OnOk result (Writes out.old out.new (next_line self.now)) }
    {
        out.push_str(self.between)?;
        out.push_str(self.end)?;
        out.push_str(self.indentation)?;
        push_times(out, " ", self.spaces)
    }

    /// Puts items after `out`, as many on each line as fit.
    pub(crate) fn push_items(&self, out: &mut String, items: &[FromItem]) -> Result<(), AllocError>
        ensures { OnOk result (Writes out.old out.new (join_by items_text (next_line self.now)
            (packed self.now.room (map item_value items.now)))) }
    {
        let Some((first, others)) = items.split_first() else {
            return Ok(());
        };
        push_item(out, first)?;
        let mut left = room_after(self.room, first).unwrap_or(0);
        for item in others {
            match room_after_next(left, item) {
                Some(room) => {
                    out.push_str(", ")?;
                    left = room;
                }
                None => {
                    self.push_break(out)?;
                    left = room_after(self.room, item).unwrap_or(0);
                }
            }
            push_item(out, item)?;
        }
        Ok(())
    }
}
