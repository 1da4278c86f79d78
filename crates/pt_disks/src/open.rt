//! Plain files, opened under a lock or without one.

ghost use Rattle.std.specs.Prelude.{◌≡◌, IfErr, Some};
ghost use Rattle.pt_disks.specs.declared.open.Access.TheVariants.{Write};
ghost use Rattle.pt_disks.specs.declared.open.OpenError.TheVariants.{Locked, NoFile};
ghost use Rattle.pt_disks.specs.Sentences.{open_error_sentence};

use std::error::Error;
use std::fmt;
use std::fs::{File, Files, OpenFile, OpenOptions, TryLockError};

/// What a file is opened for.
///
/// The lock is that of flock(2), of the whole file and exclusive. It lasts until the file is closed. Every other open of the
/// file that asks for it is refused, also one by the same program.
#[derive(Clone, Copy, Debug, PartialEq, Eq)]
pub enum Access {
    /// Reading. No lock is taken, and none is in the way.
    Read,
    /// Reading and writing, under the lock.
    Write,
    /// Reading and writing without a lock, for a caller who holds it already.
    WriteUnlocked,
}

/// Why a file wasn't opened.
#[derive(Clone, Copy, Debug, PartialEq, Eq)]
pub enum OpenError {
    /// It can't be opened so, or isn't a plain file, or its file system has no locks.
    NoFile,
    /// Its lock is held elsewhere.
    Locked,
}

impl fmt::Display for OpenError {
    ghost output = { λ error. Some (open_error_sentence error) };

    fn fmt<W: fmt::Write>(&self, f: &mut fmt::Formatter<W>) -> fmt::Result {
        f.write_str(match self {
            OpenError::NoFile => "the file can't be opened, or isn't a plain one",
            OpenError::Locked => "the file is locked by another program",
        })
    }
}

impl Error for OpenError {}

/// Opens a plain file. `Locked` is answered for `Access::Write` alone.
pub fn open_plain<R: Files<File = File>>(
    rt: &R,
    path: &str,
    access: Access,
) -> Result<File, OpenError>
    ensures locked { IfErr result (λ e. e ≡ Locked → access ≡ Write) }
{
    match rt.metadata(path) {
        Ok(found) if found.is_file() => {}
        _ => return Err(OpenError::NoFile),
    }
    let mut how = OpenOptions::new();
    how.read(true).write(access != Access::Read);
    match rt.open_file(&how, path) {
        Ok(file) if access == Access::Write => locked(file),
        Ok(file) => Ok(file),
        Err(_) => Err(OpenError::NoFile),
    }
}

/// Opens what can be read, be it a plain file, a pipe or a terminal.
pub fn open_readable<R: Files<File = File>>(rt: &R, path: &str) -> Result<File, OpenError>
    ensures { IfErr result (λ e. e ≡ NoFile) }
{
    let mut how = OpenOptions::new();
    how.read(true);
    match rt.open_file(&how, path) {
        Ok(file) => Ok(file),
        Err(_) => Err(OpenError::NoFile),
    }
}

/// The file, once its lock is taken. There is no waiting for it.
pub(crate) fn locked(file: File) -> Result<File, OpenError> {
    match file.try_lock() {
        Ok(()) => Ok(file),
        Err(TryLockError::WouldBlock) => Err(OpenError::Locked),
        Err(TryLockError::Error(_)) => Err(OpenError::NoFile),
    }
}
