//! Checking whether a text is sorted.
ghost use Rattle.std.specs.Prelude.{◌≡◌, ◌≢◌, ◌≤◌, ◌^◌, IfOk, IfErr, IfSome};
ghost use Rattle.isort_settings.specs.Values.{values};
ghost use Rattle.isort_sort.specs.Metered.{inner_of, last_of};
ghost use Rattle.isort_cmd.specs.Reading.{TellsLength};
ghost use Rattle.isort_cmd.specs.RunError.{EndsReading};
ghost use Rattle.isort_cmd.specs.Sorting.{ChecksInput, TellsFault};

use crate::error::RunError;
use crate::read::read_text;
use isort_settings::Settings;
use isort_sort::{Last, Metered, check_code};
use std::alloc::Global;
use std::io::Read;

/// Whether a Python text is sorted: reads `reader` to its end, and compares what was read with its sorted text. A text
/// that asks to be left as it is counts as sorted. `max` is how many bytes the text may have.
///
/// - `Read`: a read failed.
/// - `TooLong`: more than `max` bytes came.
/// - `NeverEnds`: a read was interrupted 1000 times in a row.
/// - `Fault`: the text has this fault.
/// - `Memory`: memory ran out.
///
/// After each answer except `Read` and `NeverEnds` the last call of `reader` is fine.
pub fn check_run<R: Read>(
    alloc: Global,
    reader: &mut Metered<R>,
    settings: &Settings,
    max: u64,
) -> Result<bool, RunError>
    requires fine { last_of reader.old ≡ Last.Fine }
    requires small { max ≤ 2 ^ 62 }

    // Where the reader tells its bytes.
    ensures ok { IfOk result (λ same. ChecksInput (values settings.now) max same
        (R.remaining (inner_of reader.old)) (R.remaining (inner_of reader.new))) }
    ensures fault { IfErr result (λ e. IfSome (R.remaining (inner_of reader.old))
        (λ text. TellsFault text e)) }
    ensures length { IfErr result (λ e. TellsLength max e (R.remaining (inner_of reader.old))) }

    // At any reader.
    ensures never_written { result ≢ Err RunError.Write }
    ensures reader { EndsReading result (last_of reader.new) }
{
    let text = read_text(alloc, reader, max)?;
    Ok(check_code(alloc, text.as_slice(), settings)?)
}
