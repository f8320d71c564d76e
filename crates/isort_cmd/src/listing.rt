//! Listing the imports of a text that is read in chunks.
ghost use Rattle.std.specs.Prelude.{◌≡◌, ◌+◌, ◌≤◌, ◌^◌, ℕ, false, List, [], length, IfOk, OnOk, IfErr};
ghost use Rattle.py_lines.specs.declared.fault.Fault.{Fault};
ghost use Rattle.isort_find.specs.Pieces.{fed_by, has_ready, options_for};
ghost use Rattle.isort_sort.specs.Metered.{inner_of, last_of};
ghost use Rattle.isort_cmd.specs.RunError.{IsUnread, EndsReading, EndsWriting};
ghost use Rattle.isort_cmd.specs.Private.Steps.{HasListedSettled, LooksAtHeld};
ghost use Rattle.isort_cmd.specs.Private.Stages.{listing_state, Identified, TellsWritten};
ghost use Rattle.isort_cmd.specs.Private.Stages.{ListsNext, ListsReady, ListsChunk, ListsChunks, ListsEnd};
ghost use Rattle.isort_cmd.specs.Written.{ListsInput, LeavesInput, ListsUnread, ListsFaulty};

use crate::error::RunError;
use crate::flush::flush_whole;
use crate::line::push_line;
use crate::read::read_chunk;
use isort_find::laws::{given_begin_the_found, one_found, settled_found_is_final};
use isort_find::{FindOptions, PieceFinder};
use isort_sort::{Last, Metered, write_whole};
use std::alloc::Global;
use std::io::{Read, Write};

/// How many bytes a listing asks a read for, which answers with fewer where no more have come.
pub const LIST_CHUNK: usize = 32768;

/// Looks at the byte that may be held after the last logical line: it may decide a fault.
fn look_at_held(finder: &mut PieceFinder) -> Result<(), RunError>
    requires fits { fed_by finder.old ≤ 2 ^ 62 }
    requires open_yet { finder.old.scanning.ended ≡ false }
    ensures { LooksAtHeld finder.old result finder.new }
{
    one_found();
    given_begin_the_found();
    settled_found_is_final();
    finder.feed(&[])?;
    if finder.has_ready() {
        return Err(RunError::Memory);
    }
    Ok(())
}

/// A listing of the imports of one text.
#[derive(Drop)]
struct Listing<'a> {
    /// What the text is fed to.
    finder: PieceFinder,
    /// What each line begins with.
    path: &'a str,
    /// The line that is written: its memory is used again for the next one.
    line: String,
}

impl Listing<'_> {
    /// Writes the line of the next import that is ready: whether there is one.
    fn list_next<W: Write>(&mut self, writer: &mut Metered<W>) -> Result<bool, RunError>
        requires { last_of writer.old ≡ Last.Fine }
        ensures lists { ListsNext (listing_state W.contents self.old writer.old) result
            (listing_state W.contents self.new writer.new) }
        ensures some { IfOk result (λ some. TellsWritten some
            (W.contents (inner_of writer.old)) (W.contents (inner_of writer.new))) }
    {
        given_begin_the_found();
        let Some(binding) = self.finder.next_ready()? else {
            return Ok(false);
        };
        self.line.clear();
        let made = push_line(&binding, self.path, &mut self.line);
        drop(binding);
        made?;
        write_whole(writer, self.line.as_bytes())?;
        Ok(true)
    }

    /// Writes the lines of all imports that are ready: whether there are any.
    fn list_ready<W: Write>(&mut self, writer: &mut Metered<W>) -> Result<bool, RunError>
        requires { last_of writer.old ≡ Last.Fine }
        ensures lists { ListsReady (listing_state W.contents self.old writer.old) result
            (listing_state W.contents self.new writer.new) }
        ensures some { IfOk result (λ some. TellsWritten some
            (W.contents (inner_of writer.old)) (W.contents (inner_of writer.new))) }
    {
        let mut some = false;
        'imports: while self.finder.has_ready() && self.list_next(writer)? {
            some = true;
        }
        Ok(some)
    }

    /// Feeds a chunk whole, and lists what gets ready. Lines that were written are flushed before more is read.
    fn list_chunk<W: Write>(
        &mut self,
        chunk: &[u8],
        writer: &mut Metered<W>,
    ) -> Result<(), RunError>
        requires fine { last_of writer.old ≡ Last.Fine }
        requires fits { fed_by self.old.finder + length chunk.now ≤ 2 ^ 62 }
        requires open_yet { self.old.finder.scanning.ended ≡ false }
        requires none_ready { has_ready self.old.finder ≡ false }
        ensures { ListsChunk (listing_state W.contents self.old writer.old) chunk.now result
            (listing_state W.contents self.new writer.new) }
    {
        one_found();
        given_begin_the_found();
        settled_found_is_final();
        let mut listed = false;
        let mut rest = chunk;
        'lines: while !rest.is_empty() {
            let taken = self.finder.feed(rest)?;
            rest = &rest[taken..];
            if self.list_ready(writer)? {
                listed = true;
            }
        }
        look_at_held(&mut self.finder)?;
        if listed {
            flush_whole(writer)?;
        }
        Ok(())
    }

    /// Reads to the end, and lists the imports in the logical lines that the bytes settle.
    fn list_chunks<R: Read, W: Write>(
        &mut self,
        reader: &mut Metered<R>,
        writer: &mut Metered<W>,
        max: u64,
        buffer: &mut [u8; LIST_CHUNK],
    ) -> Result<(), RunError>
        requires reader_fine { last_of reader.old ≡ Last.Fine }
        requires writer_fine { last_of writer.old ≡ Last.Fine }
        requires small { max ≤ 2 ^ 62 }
        requires fresh { HasListedSettled self.old.path.now [] (options_for self.old.finder)
            self.old.finder (W.contents (inner_of writer.old)) (W.contents (inner_of writer.old)) }
        ensures lists { ListsChunks (listing_state W.contents self.old writer.old) max
            (R.remaining (inner_of reader.old)) result
            (R.remaining (inner_of reader.new)) (listing_state W.contents self.new writer.new) }
        ensures reader { EndsReading result (last_of reader.new) }
    {
        'chunks: loop {
            let count = read_chunk(reader, buffer)?;
            if count == 0 {
                return Ok(());
            }
            let room = max - self.finder.fed();
            let fitting = room.min(count as u64) as usize;
            self.list_chunk(&buffer[..fitting], writer)?;
            if fitting < count {
                return Err(RunError::TooLong);
            }
        }
    }

    /// Ends the text, and lists the imports of its last logical line.
    fn list_end<W: Write>(&mut self, writer: &mut Metered<W>) -> Result<(), RunError>
        requires fine { last_of writer.old ≡ Last.Fine }
        requires open_yet { self.old.finder.scanning.ended ≡ false }
        requires none_ready { has_ready self.old.finder ≡ false }
        ensures { ListsEnd (listing_state W.contents self.old writer.old) result
            (listing_state W.contents self.new writer.new) }
    {
        given_begin_the_found();
        self.finder.finish()?;
        self.list_ready(writer)?;
        // Only the answer that nothing is ready says that all was listed.
        self.list_next(writer)?;
        Ok(())
    }

    /// Lists the imports of the whole text of a reader.
    fn list<R: Read, W: Write>(
        &mut self,
        reader: &mut Metered<R>,
        writer: &mut Metered<W>,
        max: u64,
        buffer: &mut [u8; LIST_CHUNK],
    ) -> Result<(), RunError>
        requires reader_fine { last_of reader.old ≡ Last.Fine }
        requires writer_fine { last_of writer.old ≡ Last.Fine }
        requires small { max ≤ 2 ^ 62 }
        requires fresh { HasListedSettled self.old.path.now [] (options_for self.old.finder)
            self.old.finder (W.contents (inner_of writer.old)) (W.contents (inner_of writer.old)) }
        ensures { Identified self.old.path.now (options_for self.old.finder) max result
            (R.remaining (inner_of reader.old)) (R.remaining (inner_of reader.new))
            (W.contents (inner_of writer.old)) (W.contents (inner_of writer.new))
            (last_of reader.new) (last_of writer.new) }
    {
        settled_found_is_final();
        self.list_chunks(reader, writer, max, buffer)?;
        self.list_end(writer)
    }
}

/// Lists the imports of a Python text: reads `reader` to its end in chunks, and writes to `writer` one line for each
/// import that is found, as soon as its logical line is whole: `path:line `, `indented ` where that line is, the
/// statement, and a line feed. Lines count from 1. Before it reads on it flushes what it has written. It keeps the text
/// of one logical line, and of what was read at most 32768 bytes more. It reads into `buffer`, whatever stands there: one
/// serves for many texts.
///
/// `options` says which imports are found: with a key in `unique` the first under each key, and with `top_only` those
/// before the first function or class, after which no fault counts. `max` is how many bytes the text may have.
///
/// - `Read`: a read failed.
/// - `TooLong`: more than `max` bytes came. The first `max` were looked at.
/// - `NeverEnds`: a read was interrupted 1000 times in a row.
/// - `Fault`: the text has this fault; the lines of all imports found before it were written. It comes as soon as the bytes
///   read decide it, and goes before the three errors above, for which no fault is decided and the lines were written of
///   the imports in the logical lines that the bytes settle.
/// - `Write`: a write or flush failed, a write took no byte, or one was interrupted 1000 times in a row; a prefix of the
///   lines was written.
/// - `Memory`: memory ran out; a prefix of the lines was written.
///
/// After each answer except `Read` and `NeverEnds` the last call of `reader` is fine, and after each except `Write` that
/// of `writer`: the next text can be listed to it.
pub fn identify<R: Read, W: Write>(
    alloc: Global,
    reader: &mut Metered<R>,
    writer: &mut Metered<W>,
    path: &str,
    options: FindOptions,
    max: u64,
    buffer: &mut [u8; LIST_CHUNK],
) -> Result<(), RunError>
    requires reader_fine { last_of reader.old ≡ Last.Fine }
    requires writer_fine { last_of writer.old ≡ Last.Fine }
    requires small { max ≤ 2 ^ 62 }

    // Where the reader and the writer tell their bytes.
    ensures ok { OnOk result (ListsInput path.now options max
        (R.remaining (inner_of reader.old)) (R.remaining (inner_of reader.new))
        (W.contents (inner_of writer.old)) (W.contents (inner_of writer.new))) }
    ensures err { IfErr result (λ e. LeavesInput path.now options max e
        (R.remaining (inner_of reader.old))
        (W.contents (inner_of writer.old)) (W.contents (inner_of writer.new))) }

    // At any reader and writer.
    ensures unread { IfErr result (λ e. IsUnread e → ListsUnread path.now options max
        (R.remaining (inner_of reader.old)) (R.remaining (inner_of reader.new))
        (W.contents (inner_of writer.old)) (W.contents (inner_of writer.new))) }
    ensures fault { IfErr result (λ e. (f : Fault) → e ≡ RunError.Fault f
        → ListsFaulty path.now options max f
        (R.remaining (inner_of reader.old)) (R.remaining (inner_of reader.new))
        (W.contents (inner_of writer.old)) (W.contents (inner_of writer.new))) }
    ensures reader { EndsReading result (last_of reader.new) }
    ensures writer { EndsWriting result (last_of writer.new) }
{
    one_found();
    let mut listing = Listing {
        finder: PieceFinder::new(alloc, options)?,
        path,
        line: String::new(alloc),
    };
    listing.list(reader, writer, max, buffer)
}
