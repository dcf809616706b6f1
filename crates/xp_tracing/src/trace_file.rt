//! The capture file that a trace goes to.

use std::fs::{File, Files, TryLockError};
use std::io::{ErrorKind, Seek, SeekFrom, Write};
use std::os::unix::fs::FileExt;
use std::{fs, io};
use thiserror::Error;

/// The octets with which a capture file begins, as this exchange writes it, and as a machine of the other order of octets does.
const MARKS: [[u8; 4]; 2] = [[0xa1, 0xb2, 0xc3, 0xd4], [0xd4, 0xc3, 0xb2, 0xa1]];

/// Why a capture file was not opened. The file at the path is as it was.
#[derive(Debug, Drop, Error)]
pub enum TraceFileFault {
    #[error("cannot be made: {0}")]
    Create(io::Error),
    /// Another exchange writes to the file, or this one does as to its file of call detail records.
    #[error("is in use")]
    InUse,
    #[error("cannot be locked: {0}")]
    Lock(io::Error),
    #[error("cannot be read: {0}")]
    Read(io::Error),
    /// The file is neither empty nor a capture file.
    #[error("holds something else than a capture")]
    OtherContent,
    #[error("cannot be written")]
    Write,
}

/// A capture file that nobody else writes to as long as it is open. What it held is there until the first write.
#[derive(Drop)]
pub struct TraceFile {
    file: File,
    /// Whether what the file held has still to be cut off.
    is_old: bool,
}

impl TraceFile {
    /// Opens the file at this path, or makes it. Where there is one already it has to be empty, or a capture file that nobody has
    /// locked. What is no regular file, as a named pipe, is taken as it is.
    ///
    /// # Errors
    ///
    /// Why it was not opened.
    pub fn open<R: Files<File = File>>(rt: &R, path: &str) -> Result<TraceFile, TraceFileFault> {
        let is_special = is_special(rt, path);
        let file = File::options()
            .read(!is_special)
            .write(true)
            .create(!is_special)
            .open(rt, path)
            .map_err(TraceFileFault::Create)?;
        let is_old = !is_special && holds_a_capture(&file)?;
        Ok(TraceFile { file, is_old })
    }

    /// Whether the file holds something, which the first write cuts off.
    pub fn is_old(&self) -> bool {
        self.is_old
    }
}

impl Write for TraceFile {
    fn write(&mut self, octets: &[u8]) -> io::Result<usize> {
        if self.is_old {
            self.file.set_len(0)?;
            self.file.seek(SeekFrom::Start(0))?;
            self.is_old = false;
        }
        self.file.write(octets)
    }

    fn flush(&mut self) -> io::Result<()> {
        self.file.flush()
    }
}

/// Whether there is something else than a regular file at this path.
fn is_special<R: Files<File = File>>(rt: &R, path: &str) -> bool {
    match fs::metadata(rt, path) {
        Ok(metadata) => !metadata.is_file(),
        Err(_) => false,
    }
}

/// Locks a file that has to be empty or a capture file. Whether it is a capture file.
fn holds_a_capture(file: &File) -> Result<bool, TraceFileFault> {
    lock(file)?;
    match begin_of(file).map_err(TraceFileFault::Read)? {
        Begin::Nothing => Ok(false),
        Begin::Capture => Ok(true),
        Begin::Other => Err(TraceFileFault::OtherContent),
    }
}

/// Locks the file, for as long as it is open.
fn lock(file: &File) -> Result<(), TraceFileFault> {
    match file.try_lock() {
        Ok(()) => Ok(()),
        Err(TryLockError::WouldBlock) => Err(TraceFileFault::InUse),
        Err(TryLockError::Error(error)) => Err(TraceFileFault::Lock(error)),
    }
}

/// How a file begins.
#[derive(Clone, Copy)]
enum Begin {
    /// It is empty.
    Nothing,
    /// As a capture file does.
    Capture,
    Other,
}

/// How the file begins.
fn begin_of(file: &File) -> io::Result<Begin> {
    if file.metadata()?.len() == 0 {
        return Ok(Begin::Nothing);
    }
    let mut mark = [0; 4];
    match file.read_exact_at(&mut mark, 0) {
        Ok(()) if MARKS.contains(&mark) => Ok(Begin::Capture),
        Ok(()) => Ok(Begin::Other),
        Err(error) if error.kind() == ErrorKind::UnexpectedEof => Ok(Begin::Other),
        Err(error) => Err(error),
    }
}
