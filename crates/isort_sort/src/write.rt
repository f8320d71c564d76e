//! Writing, tried again after interruptions.
ghost use Rattle.std.specs.Prelude.{◌≡◌, ◌<◌, ◌≤◌, IfOk, OnOk, OnErr, IfErr, length, take};
ghost use Rattle.std.specs.Io.KnownBytes.{Appends, Keeps};
ghost use Rattle.isort_sort.specs.Metered.{inner_of, last_of, IsGivenUp};
ghost use Rattle.isort_sort.specs.Written.{AppendsPrefix};

use crate::answer::SortError;
use crate::metered::{Last, MAX_INTERRUPTIONS, Metered};
use std::io::Write;

/// One write of some bytes, tried again where it was interrupted fewer than 1000 times in a row.
fn write_some<W: Write>(writer: &mut Metered<W>, bytes: &[u8]) -> Result<usize, SortError>
    requires fine { last_of writer.old ≡ Last.Fine }
    requires some { 0 < length bytes.now }
    ensures bound { IfOk result (λ count. count ≤ length bytes.now) }
    ensures some { IfOk result (λ count. 0 < count) }
    ensures bytes { IfOk result
        (λ count. Appends (W.contents (inner_of writer.old)) (W.contents (inner_of writer.new))
        (take count bytes.now)) }
    ensures kept { OnErr result
        (Keeps (W.contents (inner_of writer.old)) (W.contents (inner_of writer.new))) }
    ensures fine { OnOk result (last_of writer.new ≡ Last.Fine) }
    ensures err { IfErr result (λ e. e ≡ SortError.Write) }
    ensures stopped { OnErr result (IsGivenUp (last_of writer.new)) }
{
    'tries: loop {
        match writer.write(bytes) {
            Ok(0) => return Err(SortError::Write),
            Ok(count) => return Ok(count),
            Err(_) => {}
        }
        match writer.last() {
            Last::Interrupted(count) if count < MAX_INTERRUPTIONS => {}
            _ => return Err(SortError::Write),
        }
    }
}

/// Writes the bytes whole, or a prefix of them where a write fails.
///
/// The error is `Write`: a write failed, took no byte, or was interrupted 1000 times in a row.
pub fn write_whole<W: Write>(writer: &mut Metered<W>, bytes: &[u8]) -> Result<(), SortError>
    requires { last_of writer.old ≡ Last.Fine }
    ensures ok { OnOk result
        (Appends (W.contents (inner_of writer.old)) (W.contents (inner_of writer.new)) bytes.now) }
    ensures fine { OnOk result (last_of writer.new ≡ Last.Fine) }
    ensures prefix { OnErr result
        (AppendsPrefix (W.contents (inner_of writer.old))
        (W.contents (inner_of writer.new)) bytes.now) }
    ensures err { IfErr result (λ e. e ≡ SortError.Write) }
    ensures stopped { OnErr result (IsGivenUp (last_of writer.new)) }
{
    let mut rest = bytes;
    while !rest.is_empty() {
        let count = write_some(writer, rest)?;
        rest = &rest[count..];
    }
    Ok(())
}
