//! A reader or writer that notes how its last call ended.
ghost use Rattle.std.specs.Prelude.{◌≡◌};
ghost use Rattle.std.specs.Io.{ReadsAtMost, WritesAtMost};
ghost use Rattle.std.specs.Io.KnownBytes.{Keeps, ReadConsumes, WriteAppends};
ghost use Rattle.isort_sort.specs.Metered.{inner_of, last_of, end_of, end_of_read, end_of_write, end_of_flush};

use std::io;
use std::io::{ErrorKind, Read, Write};

/// How many interruptions in a row make a run give up.
pub const MAX_INTERRUPTIONS: u16 = 1000;

/// How the last read, write or flush ended.
#[derive(Clone, Copy, Debug, PartialEq, Eq)]
pub enum Last {
    /// In none of the other ways.
    Fine,
    /// In an error other than an interruption.
    Failed,
    /// In a write that took no byte of some.
    Empty,
    /// In an interruption: how many in a row, up to 1000.
    Interrupted(u16),
}

/// A reader or writer, and how its last `read`, `write` or `flush` ended.
///
/// Contracts say what is noted of each answer, and which bytes came or went where the reader or writer tells them. That
/// each call is made once, whole, and its answer given as it is, they can't say: tests show it.
#[derive(Drop)]
pub struct Metered<T> {
    /// The reader or writer.
    inner: T,
    /// How its last call ended.
    last: Last,
}

impl<T> Metered<T> {
    /// Over this reader or writer, of which no call is known yet.
    pub fn new(inner: T) -> Metered<T>
        ensures inner { inner_of result ≡ inner }
        ensures last { last_of result ≡ Last.Fine }
    {
        Metered {
            inner,
            last: Last::Fine,
        }
    }

    /// The reader or writer itself.
    pub fn into_inner(self) -> T
        ensures { result ≡ inner_of self }
    {
        self.inner
    }

    /// How the last `read`, `write` or `flush` ended.
    pub fn last(&self) -> Last
        ensures { result ≡ last_of self.now }
    {
        self.last
    }

    /// Notes how a call ended: in this way where it didn't fail, in `Failed`, or in one more interruption.
    fn note<A>(&mut self, answer: &io::Result<A>, if_ok: Last)
        ensures inner { inner_of self.new ≡ inner_of self.old }
        ensures last { last_of self.new ≡ end_of (last_of self.old) if_ok answer.now }
    {
        self.last = match answer {
            Ok(_) => if_ok,
            Err(e) => match (e.kind(), self.last()) {
                (ErrorKind::Interrupted, Last::Interrupted(count)) => {
                    Last::Interrupted(count.saturating_add(1).min(MAX_INTERRUPTIONS))
                }
                (ErrorKind::Interrupted, _) => Last::Interrupted(1),
                _ => Last::Failed,
            },
        };
    }
}

impl<R: Read> Read for Metered<R> {
    ghost remaining = { λ m. R.remaining (inner_of m) };

    /// Reads, and notes how that ended: in `Fine`, in `Failed`, or in one more interruption.
    fn read(&mut self, buf: &mut [u8]) -> io::Result<usize>
        ensures bound { ReadsAtMost result buf.new }
        ensures bytes { ReadConsumes (R.remaining (inner_of self.old))
            (R.remaining (inner_of self.new)) result buf.new }
        ensures last { last_of self.new ≡ end_of_read (last_of self.old) result }
    {
        let answer = self.inner.read(buf);
        self.note(&answer, Last::Fine);
        answer
    }
}

impl<W: Write> Write for Metered<W> {
    ghost contents = { λ m. W.contents (inner_of m) };

    /// Writes, and notes how that ended: in `Fine`, in `Empty` where no byte of some was taken, in `Failed`, or in one
    /// more interruption.
    fn write(&mut self, buf: &[u8]) -> io::Result<usize>
        ensures bound { WritesAtMost result buf.now }
        ensures bytes { WriteAppends (W.contents (inner_of self.old))
            (W.contents (inner_of self.new)) result buf.now }
        ensures last { last_of self.new ≡ end_of_write (last_of self.old) buf.now result }
    {
        let answer = self.inner.write(buf);
        let if_ok = match &answer {
            Ok(0) if !buf.is_empty() => Last::Empty,
            _ => Last::Fine,
        };
        self.note(&answer, if_ok);
        answer
    }

    /// Flushes, and notes how that ended: in `Fine`, in `Failed`, or in one more interruption.
    fn flush(&mut self) -> io::Result<()>
        ensures bytes { Keeps (W.contents (inner_of self.old)) (W.contents (inner_of self.new)) }
        ensures last { last_of self.new ≡ end_of_flush (last_of self.old) result }
    {
        let answer = self.inner.flush();
        self.note(&answer, Last::Fine);
        answer
    }
}
