//! Reading, chunk by chunk and to the end.
ghost use Rattle.std.specs.Prelude.{◌≡◌, ◌≤◌, ◌^◌, IfOk, OnOk, IfErr};
ghost use Rattle.std.specs.Io.{ReadsAtMost};
ghost use Rattle.std.specs.Io.KnownBytes.{ReadConsumes};
ghost use Rattle.isort_sort.specs.Metered.{inner_of, last_of};
ghost use Rattle.isort_cmd.specs.Reading.{IsReadWhole, TellsLength};
ghost use Rattle.isort_cmd.specs.RunError.{EndsReading, IsInputError};
ghost use Rattle.isort_cmd.specs.Private.Steps.{IsReadError};

use crate::error::RunError;
use isort_sort::{Last, MAX_INTERRUPTIONS, Metered};
use std::alloc::Global;
use std::io::Read;

/// How many bytes are asked for at once where a text is read whole.
const READ_CHUNK: usize = 16384;

/// One read, tried again where it was interrupted fewer than 1000 times in a row.
pub(crate) fn read_chunk<R: Read>(
    reader: &mut Metered<R>,
    chunk: &mut [u8],
) -> Result<usize, RunError>
    requires { last_of reader.old ≡ Last.Fine }
    ensures bound { ReadsAtMost result chunk.new }
    ensures bytes { ReadConsumes (R.remaining (inner_of reader.old))
        (R.remaining (inner_of reader.new)) result chunk.new }
    ensures fine { OnOk result (last_of reader.new ≡ Last.Fine) }
    ensures err { IfErr result (λ e. IsReadError e (last_of reader.new)) }
{
    'tries: loop {
        if let Ok(count) = reader.read(chunk) {
            return Ok(count);
        }
        match reader.last() {
            Last::Interrupted(count) if count < MAX_INTERRUPTIONS => {}
            Last::Interrupted(_) => return Err(RunError::NeverEnds),
            _ => return Err(RunError::Read),
        }
    }
}

/// All bytes of the reader, of which there may be `max`.
///
/// - `Read`: a read failed.
/// - `TooLong`: more than `max` bytes came.
/// - `NeverEnds`: a read was interrupted 1000 times in a row.
/// - `Memory`: memory ran out.
///
/// After each answer except `Read` and `NeverEnds` the last call of `reader` is fine.
pub fn read_text<R: Read>(
    alloc: Global,
    reader: &mut Metered<R>,
    max: u64,
) -> Result<Vec<u8>, RunError>
    requires fine { last_of reader.old ≡ Last.Fine }
    requires small { max ≤ 2 ^ 62 }
    ensures ok { IfOk result (λ text. IsReadWhole max text.items
        (R.remaining (inner_of reader.old)) (R.remaining (inner_of reader.new))) }
    ensures errors { IfErr result IsInputError }
    ensures length { IfErr result (λ e. TellsLength max e (R.remaining (inner_of reader.old))) }
    ensures reader { EndsReading result (last_of reader.new) }
{
    let mut text = Vec::new(alloc);
    let mut chunk = [0u8; READ_CHUNK];
    'chunks: loop {
        let count = read_chunk(reader, &mut chunk)?;
        if count == 0 {
            return Ok(text);
        }
        text.extend_from_slice(&chunk[..count])?;
        if text.len() as u64 > max {
            return Err(RunError::TooLong);
        }
    }
}
