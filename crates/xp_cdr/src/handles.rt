//! Handles of a file of call detail records.

use crate::opening::OpenFault;
use std::fs::{File, Files, Metadata, TryLockError};
use std::io::ErrorKind;
use std::os::unix::fs::MetadataExt;
use std::{fs, io};

/// Opens the file at this path, or makes it, and locks it.
pub(crate) fn open_locked<R: Files<File = File>>(rt: &R, path: &str) -> Result<File, OpenFault> {
    let file = File::options()
        .read(true)
        .append(true)
        .create(true)
        .open(rt, path)
        .map_err(OpenFault::Open)?;
    lock(&file)?;
    Ok(file)
}

/// Opens the locked file anew, and cuts it back to this length. It is refused where the file is shorter.
pub(crate) fn reopened<R: Files<File = File>>(
    rt: &R,
    path: &str,
    locked: &File,
    length: u64,
) -> io::Result<File> {
    let file = another_handle(rt, path, locked)?;
    cut_to(&file, length)?;
    Ok(file)
}

/// Cuts a file back to this length, on the disk too. It is refused where the file is shorter.
fn cut_to(file: &File, length: u64) -> io::Result<()> {
    if file.metadata()?.len() < length {
        return Err(io::Error::from(ErrorKind::InvalidData));
    }
    file.set_len(length)?;
    file.sync_all()
}

/// Opens the locked file anew at this path. Where it does not lie there, it is a copy of the locked handle.
fn another_handle<R: Files<File = File>>(rt: &R, path: &str, locked: &File) -> io::Result<File> {
    match File::options().read(true).append(true).open(rt, path) {
        Ok(file) => {
            if are_of_one(&file, locked)? {
                Ok(file)
            } else {
                locked.try_clone()
            }
        }
        Err(error) if error.kind() == ErrorKind::NotFound => locked.try_clone(),
        Err(error) => Err(error),
    }
}

/// Whether the file of this handle lies at this path.
pub(crate) fn lies_at<R: Files<File = File>>(rt: &R, path: &str, file: &File) -> io::Result<bool> {
    match fs::metadata(rt, path) {
        Ok(there) => Ok(is_same(&there, &file.metadata()?)),
        Err(error) if error.kind() == ErrorKind::NotFound => Ok(false),
        Err(error) => Err(error),
    }
}

/// Whether both handles are of one file.
fn are_of_one(one: &File, two: &File) -> io::Result<bool> {
    Ok(is_same(&one.metadata()?, &two.metadata()?))
}

/// Whether both are of one file.
fn is_same(one: &Metadata, two: &Metadata) -> bool {
    one.dev() == two.dev() && one.ino() == two.ino()
}

/// Locks the file, for as long as it is open.
fn lock(file: &File) -> Result<(), OpenFault> {
    match file.try_lock() {
        Ok(()) => Ok(()),
        Err(TryLockError::WouldBlock) => Err(OpenFault::InUse),
        Err(TryLockError::Error(error)) => Err(OpenFault::Lock(error)),
    }
}
