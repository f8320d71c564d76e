//! The comments of a logical line.
ghost use Rattle.std.specs.Prelude.{◌≡◌, IfOk, map, string_bytes};
ghost use Rattle.std.specs.List.{list_any};
ghost use Rattle.py_lines.specs.Lines.{line_in};
ghost use Rattle.py_imports.specs.ActionComment.{says};
ghost use Rattle.isort_sort.specs.Line.{comment_texts, own_comments, stripped, without_hash};

use crate::texts::push_copy;
use py_imports::{ActionComment, says};
use py_lines::Unit;
use std::alloc::{AllocError, Global};

/// The space that may stand between the tokens of a line (Python Language Reference, 2.1.9).
const SPACE: [char; 3] = [' ', '\t', '\x0c'];

/// What a comment says: its text without `#`, and without the space round that.
fn content(comment: &str) -> &str
    ensures { result.now ≡ stripped (without_hash comment.now) }
{
    let text = comment.strip_prefix('#').unwrap_or(comment);
    text.trim_start_matches(SPACE).trim_end_matches(SPACE)
}

/// Whether a comment of the line says the action.
pub(crate) fn comments_say(unit: &Unit<'_>, action: ActionComment) -> bool
    ensures { result ≡ list_any (says action) (comment_texts (line_in unit.now)) }
{
    'tokens: for (place, token) in unit.tokens.iter().enumerate() {
        if token.kind.is_comment() && says(unit.word(place), action) {
            return true;
        }
    }
    false
}

/// The line's comments as they are written, with `#`.
pub(crate) fn comment_texts(alloc: Global, unit: &Unit<'_>) -> Result<Vec<String>, AllocError>
    ensures { IfOk result
        (λ comments. map string_bytes comments.items ≡ comment_texts (line_in unit.now)) }
{
    let mut comments = Vec::new(alloc);
    'tokens: for (place, token) in unit.tokens.iter().enumerate() {
        if token.kind.is_comment() {
            push_copy(alloc, &mut comments, unit.word(place))?;
        }
    }
    Ok(comments)
}

/// The line's own comments: what each says, without the empty ones.
pub(crate) fn own_comments(alloc: Global, unit: &Unit<'_>) -> Result<Vec<String>, AllocError>
    ensures { IfOk result
        (λ comments. map string_bytes comments.items ≡ own_comments (line_in unit.now)) }
{
    let mut comments = Vec::new(alloc);
    let texts = comment_texts(alloc, unit)?;
    for comment in &texts {
        let content = content(comment.as_str());
        if !content.is_empty() {
            push_copy(alloc, &mut comments, content)?;
        }
    }
    Ok(comments)
}
