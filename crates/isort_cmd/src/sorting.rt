//! Sorting a text that is read to its end.
ghost use Rattle.std.specs.Prelude.{◌≡◌, ◌≤◌, ◌^◌, IfOk, IfErr, IfSome};
ghost use Rattle.std.specs.Io.KnownBytes.{Keeps};
ghost use Rattle.isort_settings.specs.Values.{values};
ghost use Rattle.isort_sort.specs.Metered.{inner_of, last_of};
ghost use Rattle.isort_cmd.specs.Reading.{TellsLength};
ghost use Rattle.isort_cmd.specs.RunError.{EndsReading, EndsWriting};
ghost use Rattle.isort_cmd.specs.Sorting.{IsUnwritten, LeavesUnsorted, SortsInput};

use crate::error::RunError;
use crate::read::read_text;
use isort_settings::Settings;
use isort_sort::{Last, Metered, Outcome, sort_to};
use std::alloc::Global;
use std::io::{Read, Write};

/// Sorts the imports of a Python text: reads `reader` to its end, and then writes the sorted text to `writer`, also
/// where it is the text itself.
///
/// `Same` and `Skipped` say that it is: the text is sorted, or asks to be left as it is. Sorted again under the same
/// settings, what was written stays as it is. `max` is how many bytes the text may have.
///
/// - `Read`: a read failed; nothing was written.
/// - `TooLong`: more than `max` bytes came; nothing was written.
/// - `NeverEnds`: a read was interrupted 1000 times in a row; nothing was written.
/// - `Fault`: the text has this fault; nothing was written.
/// - `Write`: a write failed, took no byte, or was interrupted 1000 times in a row; a prefix of the sorted text was
///   written.
/// - `Memory`: memory ran out; nothing was written.
///
/// After each answer except `Read` and `NeverEnds` the last call of `reader` is fine, and after each except `Write` that
/// of `writer`: the next text can be sorted to it.
pub fn sort_run<R: Read, W: Write>(
    alloc: Global,
    reader: &mut Metered<R>,
    writer: &mut Metered<W>,
    settings: &Settings,
    max: u64,
) -> Result<Outcome, RunError>
    requires reader_fine { last_of reader.old ≡ Last.Fine }
    requires writer_fine { last_of writer.old ≡ Last.Fine }
    requires small { max ≤ 2 ^ 62 }

    // Where the reader and the writer tell their bytes.
    ensures ok { IfOk result (λ outcome. SortsInput (values settings.now) max outcome
        (R.remaining (inner_of reader.old)) (R.remaining (inner_of reader.new))
        (W.contents (inner_of writer.old)) (W.contents (inner_of writer.new))) }
    ensures err { IfErr result (λ e. IfSome (R.remaining (inner_of reader.old))
        (λ text. LeavesUnsorted text (values settings.now) e
        (W.contents (inner_of writer.old)) (W.contents (inner_of writer.new)))) }
    ensures length { IfErr result (λ e. TellsLength max e (R.remaining (inner_of reader.old))) }

    // At any reader and writer.
    ensures unwritten { IfErr result (λ e. IsUnwritten e → Keeps (W.contents (inner_of writer.old))
        (W.contents (inner_of writer.new))) }
    ensures reader { EndsReading result (last_of reader.new) }
    ensures writer { EndsWriting result (last_of writer.new) }
{
    let text = read_text(alloc, reader, max)?;
    Ok(sort_to(alloc, text.as_slice(), settings, writer)?)
}
