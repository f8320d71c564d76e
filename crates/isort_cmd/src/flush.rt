//! Flushing, tried again after interruptions.
ghost use Rattle.std.specs.Prelude.{◌≡◌, OnOk, OnErr, IfErr};
ghost use Rattle.std.specs.Io.KnownBytes.{Keeps};
ghost use Rattle.isort_sort.specs.Metered.{inner_of, last_of, IsGivenUp};

use crate::error::RunError;
use isort_sort::{Last, MAX_INTERRUPTIONS, Metered};
use std::io::Write;

/// Flushes, tried again where it was interrupted fewer than 1000 times in a row.
pub(crate) fn flush_whole<W: Write>(writer: &mut Metered<W>) -> Result<(), RunError>
    requires fine { last_of writer.old ≡ Last.Fine }
    ensures kept { Keeps (W.contents (inner_of writer.old)) (W.contents (inner_of writer.new)) }
    ensures fine { OnOk result (last_of writer.new ≡ Last.Fine) }
    ensures err { IfErr result (λ e. e ≡ RunError.Write) }
    ensures stopped { OnErr result (IsGivenUp (last_of writer.new)) }
{
    'tries: loop {
        if writer.flush().is_ok() {
            return Ok(());
        }
        match writer.last() {
            Last::Interrupted(count) if count < MAX_INTERRUPTIONS => {}
            _ => return Err(RunError::Write),
        }
    }
}
