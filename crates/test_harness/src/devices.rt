//! A reader and writer that is interrupted, fails at some call, or is full.
ghost use Rattle.std.specs.Prelude.{◌≡◌};
ghost use Rattle.isort_sort.specs.Metered.{last_of};

use isort_sort::{Last, Metered};
use std::alloc::Global;
use std::io;
use std::io::{ErrorKind, Read, Write};

/// What goes wrong with a device.
#[derive(Clone, Copy)]
pub enum Trouble {
    /// Nothing.
    None,
    /// It is interrupted so often before each call.
    Waits(u16),
    /// After so many calls that go well, each ends in this error.
    After(u32, ErrorKind),
    /// Its first call ends in this error.
    First(ErrorKind),
    /// Each read after the last byte ends in this error.
    End(ErrorKind),
    /// Each write after so many bytes fails.
    Full(usize),
    /// It can't be flushed.
    Flush,
}

/// A reader of `left`, and a writer into `taken`, of at most `most` bytes a call.
#[derive(Drop)]
pub struct Device<'t> {
    left: &'t [u8],
    pub taken: Vec<u8>,
    most: usize,
    trouble: Trouble,
    /// How often it was interrupted since a call went well.
    waited: u16,
    /// How many calls were made.
    pub calls: u32,
}

impl<'t> Device<'t> {
    /// A metered device of which nothing was read, and to which nothing was written.
    pub fn new(alloc: Global, left: &'t [u8], most: usize, trouble: Trouble) -> Metered<Device<'t>>
        ensures { last_of result ≡ Last.Fine }
    {
        Metered::new(Device {
            left,
            taken: Vec::new(alloc),
            most,
            trouble,
            waited: 0,
            calls: 0,
        })
    }

    /// Whether a call came after those that go well.
    pub fn has_failed(&self) -> bool {
        match self.trouble {
            Trouble::After(sound, _) => sound < self.calls,
            _ => false,
        }
    }

    /// How many bytes it takes yet.
    fn room(&self) -> usize {
        match self.trouble {
            Trouble::Full(room) => room.saturating_sub(self.taken.len()),
            _ => usize::MAX,
        }
    }

    /// Is interrupted so often before a call.
    fn wait(&mut self, times: u16) -> io::Result<()> {
        if self.waited < times {
            self.waited += 1;
            return Err(io::Error::from(ErrorKind::Interrupted));
        }
        self.waited = 0;
        Ok(())
    }

    /// Counts a call, which fails where it has to.
    fn pass(&mut self) -> io::Result<()> {
        self.calls = self.calls.saturating_add(1);
        match self.trouble {
            Trouble::Waits(times) => self.wait(times),
            Trouble::After(sound, kind) if sound < self.calls => Err(io::Error::from(kind)),
            Trouble::First(kind) if self.calls == 1 => Err(io::Error::from(kind)),
            _ => Ok(()),
        }
    }
}

impl Read for Device<'_> {
    fn read(&mut self, buf: &mut [u8]) -> io::Result<usize> {
        self.pass()?;
        let count = buf.len().min(self.most);
        match self.trouble {
            Trouble::End(kind) if self.left.is_empty() => Err(io::Error::from(kind)),
            _ => self.left.read(&mut buf[..count]),
        }
    }
}

impl Write for Device<'_> {
    fn write(&mut self, buf: &[u8]) -> io::Result<usize> {
        self.pass()?;
        let count = buf.len().min(self.most).min(self.room());
        if count == 0 {
            return Err(io::Error::from(ErrorKind::Other));
        }
        self.taken.extend_from_slice(&buf[..count])?;
        Ok(count)
    }

    fn flush(&mut self) -> io::Result<()> {
        match self.trouble {
            Trouble::Flush => Err(io::Error::from(ErrorKind::Other)),
            _ => self.pass(),
        }
    }
}
