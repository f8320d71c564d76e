//! Sorting a text, in memory or to a writer.
ghost use Rattle.std.specs.Prelude.{◌≡◌, ◌≢◌, IfOk, IfErr, map};
ghost use Rattle.isort_settings.specs.Values.{values};
ghost use Rattle.isort_sort.specs.Answers.{AreBlocksOf, Checks, IsRefused, ReadsBack, Sorts, StaysSorted, TellsOutcome};
ghost use Rattle.isort_sort.specs.Private.Found.{span_of, found_value};
ghost use Rattle.isort_sort.specs.Metered.{inner_of, last_of, IsGivenUp};
ghost use Rattle.isort_sort.specs.Written.{LeavesUnwritten, WritesSorted};

use crate::answer::{Block, Outcome, SortError, Sorted};
use crate::comparison::Comparison;
use crate::finder::FoundBlock;
use crate::laws::sorted_texts_stay;
use crate::metered::{Last, Metered};
use crate::parts::Parts;
use crate::read::{FoundText, find_blocks};
use crate::sorted_text::SortedText;
use crate::write::write_whole;
use isort_settings::Settings;
use isort_settings::laws::{modules_are_totally_ordered, names_are_totally_ordered};
use std::alloc::{AllocError, Global};
use std::io::Write;

/// The spans of the blocks, in order, and how many members each has.
fn spans(alloc: Global, found: &[FoundBlock]) -> Result<Vec<Block>, AllocError>
    ensures { IfOk result (λ blocks. blocks.items ≡ map (λ b. span_of (found_value b)) found.now) }
{
    let mut blocks = Vec::new(alloc);
    'found: for block in found {
        blocks.push(Block {
            start: block.start as u64,
            stop: block.stop as u64,
            members: block.members.len(),
        })?;
    }
    Ok(blocks)
}

/// The blocks of a text, in order; none where the text asks to be left as it is.
///
/// The errors are the fault of a text that isn't accepted, and `Memory`.
pub fn blocks(alloc: Global, text: &[u8]) -> Result<Vec<Block>, SortError>
    ensures ok { IfOk result (λ blocks. AreBlocksOf text.now blocks.items) }
    ensures err { IfErr result (λ e. IsRefused text.now e) }
{
    match find_blocks(alloc, text)? {
        FoundText::Blocks(found) => Ok(spans(alloc, &found)?),
        FoundText::Skipped => Ok(Vec::new(alloc)),
    }
}

/// The sorted text: each block replaced by its layout, and no other byte. Sorted again under the same settings, it is `Same`.
/// Read as any text is, it has the blocks of the text back, in order, each with the statements that were laid out.
///
/// The errors are the fault of a text that isn't accepted, also where it asks to be left as it is, and `Memory`.
pub fn sort_code(alloc: Global, text: &[u8], settings: &Settings) -> Result<Sorted, SortError>
    ensures sorts { Sorts text.now (values settings.now) result }
    ensures stays { IfOk result (λ sorted. StaysSorted (values settings.now) sorted) }
    ensures read_back { IfOk result (λ sorted. ReadsBack text.now (values settings.now) sorted) }
{
    sorted_texts_stay();
    let FoundText::Blocks(found) = find_blocks(alloc, text)? else {
        return Ok(Sorted::Skipped);
    };
    let sorted = SortedText::new(alloc, text, settings, found)?;
    Ok(if sorted.is(text) {
        Sorted::Same
    } else {
        Sorted::Changed(sorted.joined(alloc)?)
    })
}

/// What sorting the text comes to, without the sorted text. It makes the text of one statement at a time, and stops at the
/// first that isn't there.
///
/// The errors are those of `sort_code`.
pub fn sort_outcome(alloc: Global, text: &[u8], settings: &Settings) -> Result<Outcome, SortError>
    ensures { TellsOutcome text.now (values settings.now) result }
{
    modules_are_totally_ordered();
    names_are_totally_ordered();
    let FoundText::Blocks(found) = find_blocks(alloc, text)? else {
        return Ok(Outcome::Skipped);
    };
    let mut parts = Parts::new(text, settings, found);
    let mut compared = Comparison::of(text);
    let mut buffer = String::new(alloc);
    'parts: while let Some(part) = parts.next(alloc)? {
        part.compare(&mut buffer, &mut compared)?;
        if !compared.agrees() {
            return Ok(Outcome::Changed);
        }
    }
    Ok(if compared.ends_with(parts.rest()) {
        Outcome::Same
    } else {
        Outcome::Changed
    })
}

/// Whether the text is its own sorted text, as a text is that asks to be left as it is.
///
/// The errors are those of `sort_code`.
pub fn check_code(alloc: Global, text: &[u8], settings: &Settings) -> Result<bool, SortError>
    ensures { Checks text.now (values settings.now) result }
{
    match sort_outcome(alloc, text, settings)? {
        Outcome::Same | Outcome::Skipped => Ok(true),
        Outcome::Changed => Ok(false),
    }
}

/// Writes the sorted text to `writer`, also where it is the text itself: its unchanged parts as they stand in the text,
/// and the layouts of its blocks. No second text is made.
///
/// `Same` and `Skipped` say that it is the text: the text is sorted, or asks to be left as it is. Sorted again under the
/// same settings, what was written stays as it is. Read as any text is, it has the blocks of the text back.
///
/// - `Fault`: the text has this fault; nothing was written.
/// - `Memory`: memory ran out; nothing was written.
/// - `Write`: a write failed, took no byte, or was interrupted 1000 times in a row; a prefix of the sorted text was
///   written.
///
/// After each answer except `Write` the last call of `writer` is fine.
pub fn sort_to<W: Write>(
    alloc: Global,
    text: &[u8],
    settings: &Settings,
    writer: &mut Metered<W>,
) -> Result<Outcome, SortError>
    requires { last_of writer.old ≡ Last.Fine }
    ensures ok { IfOk result (λ outcome. WritesSorted text.now (values settings.now) outcome
        (W.contents (inner_of writer.old)) (W.contents (inner_of writer.new))) }
    ensures err { IfErr result (λ e. LeavesUnwritten text.now (values settings.now) e
        (W.contents (inner_of writer.old)) (W.contents (inner_of writer.new))) }
    ensures stopped { result ≡ Err SortError.Write → IsGivenUp (last_of writer.new) }
    ensures fine { result ≢ Err SortError.Write → last_of writer.new ≡ Last.Fine }
{
    sorted_texts_stay();
    let sorted = match find_blocks(alloc, text)? {
        FoundText::Blocks(found) => SortedText::new(alloc, text, settings, found)?,
        FoundText::Skipped => {
            write_whole(writer, text)?;
            return Ok(Outcome::Skipped);
        }
    };
    if sorted.is(text) {
        write_whole(writer, text)?;
        return Ok(Outcome::Same);
    }
    sorted.write_to(writer)?;
    Ok(Outcome::Changed)
}
