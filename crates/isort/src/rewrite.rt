//! Rewriting a file such that its text is never lost.
//!
//! The new text goes to a new file beside the old one, which is renamed over the old one when it is whole. Where that
//! can't be, the text is written in place, and a write that fails is taken back.
use crate::MAX_BYTES;
use isort_cmd::{Metered, RunError, read_text};
use std::fs::{self, File, Metadata};
use std::io::{self, ErrorKind, Seek, Write};
use std::os::unix::fs::{FileExt, MetadataExt, OpenOptionsExt, fchown};
use std::path::{Path, PathBuf};
use std::process;

/// How many names are tried for the new file.
const MAX_NAMES: u32 = 16;

/// The permissions of the new file until it has those of the old one: nobody else may read it.
const OWNER_ONLY: u32 = 0o600;

/// Gives the file at `path` a new text. `seen` is what the system said of the file before its old text was read: if it says
/// something else now, or the file has another text, another program has changed it, and it stays as it is.
///
/// After an error the file has its old text, unless that could not be written back.
pub(crate) fn rewrite(
    rt: &HostRuntime,
    path: &str,
    seen: &Metadata,
    old: &[u8],
    new: &[u8],
) -> io::Result<()> {
    let change = Change::begin(rt, path, seen, old, new)?;
    match change.replace(rt, path) {
        Err(error) if is_no_place(error.kind()) => change.write_in_place(rt),
        done => done,
    }
}

/// Whether the error says that a file can't be replaced here, though perhaps written.
fn is_no_place(kind: ErrorKind) -> bool {
    matches!(
        kind,
        ErrorKind::AlreadyExists
            | ErrorKind::CrossesDevices
            | ErrorKind::InvalidFilename
            | ErrorKind::PermissionDenied
            | ErrorKind::ReadOnlyFilesystem
            | ErrorKind::ResourceBusy
            | ErrorKind::Unsupported
    )
}

/// Whether both are of one file, whose text nobody wrote in between.
fn has_same_text(now: &Metadata, then: &Metadata) -> bool {
    now.dev() == then.dev()
        && now.ino() == then.ino()
        && now.len() == then.len()
        && now.mtime() == then.mtime()
        && now.mtime_nsec() == then.mtime_nsec()
}

/// The error of a file that another program changed.
fn changed() -> io::Error {
    io::Error::new(ErrorKind::Other, "the file was changed after it was read")
}

/// A file that gets a new text.
#[derive(Drop)]
struct Change<'a> {
    /// The file, open for reading and writing.
    file: File,
    /// What the system said of it when it was opened.
    opened: Metadata,
    /// The text that it had when it was sorted.
    old: &'a [u8],
    /// The text that it gets.
    new: &'a [u8],
}

impl<'a> Change<'a> {
    /// Opens the file for writing. One that may not be written is refused here, although its folder might let it be
    /// replaced.
    fn begin(
        rt: &HostRuntime,
        path: &str,
        seen: &Metadata,
        old: &'a [u8],
        new: &'a [u8],
    ) -> io::Result<Change<'a>> {
        let file = File::options().read(true).write(true).open(rt, path)?;
        // To open a file for writing may touch it: an overlay of file systems makes its own copy of it then.
        let opened = file.metadata()?;
        if !has_same_text(&opened, seen) {
            return Err(changed());
        }
        Ok(Change {
            file,
            opened,
            old,
            new,
        })
    }

    /// That nothing of the file was changed since it was opened: `now` is what the system says of it now.
    fn expect_unchanged(&self, now: &Metadata) -> io::Result<()> {
        let is_untouched = now.ctime() == self.opened.ctime()
            && now.ctime_nsec() == self.opened.ctime_nsec();
        if is_untouched && has_same_text(now, &self.opened) {
            Ok(())
        } else {
            Err(changed())
        }
    }

    /// That the file still has the text that was sorted. One that can't be read again is refused, too.
    fn expect_old_text(&self, rt: &HostRuntime) -> io::Result<()> {
        let mut file = &self.file;
        file.rewind()?;
        match read_text(rt.alloc(), &mut Metered::new(file), MAX_BYTES) {
            Ok(held) if held.as_slice() == self.old => Ok(()),
            Err(RunError::Memory) => Err(io::Error::from(ErrorKind::OutOfMemory)),
            _ => Err(changed()),
        }
    }

    /// Writes the text to a new file and renames that over the old one. After an error the new file is gone.
    fn replace(&self, rt: &HostRuntime, path: &str) -> io::Result<()> {
        if self.opened.nlink() != 1 {
            return Err(io::Error::from(ErrorKind::Unsupported));
        }
        let target = target(rt, path)?;
        let (beside, file) = create_beside(rt, target.as_path())?;
        let mut done = self.fill(&file);
        if done.is_ok() {
            done = self.put_over(rt, beside.as_path(), target.as_path());
        }
        if done.is_err() {
            let _left = fs::remove_file(rt, beside.as_path());
        }
        done
    }

    /// Gives the new file the owner, the text and the permissions, in this order: a new owner may take permissions away.
    fn fill(&self, mut file: &File) -> io::Result<()> {
        keep_owner(file, &self.opened)?;
        file.write_all(self.new)?;
        file.set_permissions(self.opened.permissions())?;
        file.sync_data()
    }

    /// Renames the new file over the old one, if that is still the one that was sorted.
    fn put_over(&self, rt: &HostRuntime, beside: Path<'_>, target: Path<'_>) -> io::Result<()> {
        self.expect_old_text(rt)?;
        self.expect_unchanged(&fs::metadata(rt, target)?)?;
        fs::rename(rt, beside, target)
    }

    /// Writes the text into the file. The file is locked until it is closed, so that only one isort writes into it: another
    /// one is refused the lock, or finds a new text under it.
    ///
    /// The file is never cut before it holds the new text: what goes beyond its old end comes first, then the rest, and then
    /// its length. If anything fails, the old text is written back.
    fn write_in_place(&self, rt: &HostRuntime) -> io::Result<()> {
        self.file.try_lock()?;
        self.expect_old_text(rt)?;
        self.expect_unchanged(&self.file.metadata()?)?;
        if let Err(error) = self.lengthen() {
            self.file.set_len(self.old.len() as u64)?;
            return Err(error);
        }
        if let Err(error) = self.write_over() {
            self.put_back()?;
            return Err(error);
        }
        Ok(())
    }

    /// Makes the file longer, and writes what goes beyond its old length.
    fn lengthen(&self) -> io::Result<()> {
        match self.new.get(self.old.len()..) {
            Some(rest) if !rest.is_empty() => {
                // Where the process may write no file of this length, it is ended here, and the file has its old text.
                self.file.set_len(self.new.len() as u64)?;
                self.file.write_all_at(rest, self.old.len() as u64)?;
                self.file.sync_data()
            }
            _ => Ok(()),
        }
    }

    /// Writes what goes over the old text, and cuts the file at the end of the new one.
    fn write_over(&self) -> io::Result<()> {
        let over = self.old.len().min(self.new.len());
        self.file.write_all_at(&self.new[..over], 0)?;
        if over < self.old.len() {
            self.file.set_len(over as u64)?;
        }
        self.file.sync_data()
    }

    /// Writes the old text back, and cuts the file at its end.
    fn put_back(&self) -> io::Result<()> {
        self.file.write_all_at(self.old, 0)?;
        self.file.set_len(self.old.len() as u64)
    }
}

/// The file that the path stands for: a link stays, and its target is replaced. The name of a target that can't be told
/// is `Unsupported`.
fn target(rt: &HostRuntime, path: &str) -> io::Result<PathBuf> {
    if !fs::symlink_metadata(rt, path)?.is_symlink() {
        return Ok(PathBuf::from_str(rt.alloc(), path)?);
    }
    match fs::canonicalize(rt, path) {
        Err(error) if error.kind() != ErrorKind::OutOfMemory => {
            Err(io::Error::from(ErrorKind::Unsupported))
        }
        named => named,
    }
}

/// A new file in the folder of the target, and its path. Its name says whose it is, and doesn't end as one of Python
/// does, so that what a kill leaves is never taken for a source file.
fn create_beside(rt: &HostRuntime, target: Path<'_>) -> io::Result<(PathBuf, File)> {
    let Some(name) = target.file_name() else {
        return Err(io::Error::from(ErrorKind::Unsupported));
    };
    let id = process::id(rt.process());
    for number in 0..MAX_NAMES {
        let name = format!(in rt.alloc(); ".{name}.isort-{id}-{number}.tmp")?;
        let beside = target.with_file_name(rt.alloc(), name.as_str())?;
        match create(rt, beside.as_path()) {
            Ok(file) => return Ok((beside, file)),
            Err(error) if error.kind() == ErrorKind::AlreadyExists => {}
            Err(error) => return Err(error),
        }
    }
    Err(io::Error::from(ErrorKind::AlreadyExists))
}

/// Creates a file that was not there.
fn create(rt: &HostRuntime, path: Path<'_>) -> io::Result<File> {
    let mut options = File::options();
    options.write(true).create_new(true).mode(OWNER_ONLY);
    options.open(rt, path)
}

/// Gives the new file the owner and group of the old one. If that is refused, the file can't be replaced.
fn keep_owner(file: &File, opened: &Metadata) -> io::Result<()> {
    let now = file.metadata()?;
    if now.uid() == opened.uid() && now.gid() == opened.gid() {
        return Ok(());
    }
    match fchown(file, Some(opened.uid()), Some(opened.gid())) {
        Ok(()) => Ok(()),
        Err(_) => Err(io::Error::from(ErrorKind::Unsupported)),
    }
}
