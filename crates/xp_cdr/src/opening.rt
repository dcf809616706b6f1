//! How a file of call detail records was found when it was opened, or why it was not opened.

use std::alloc::AllocError;
use std::io;
use thiserror::Error;

/// Why a file of call detail records was not opened.
#[derive(Debug, Drop, Error)]
pub enum OpenFault {
    #[error("cannot be opened: {0}")]
    Open(io::Error),
    /// Of files that are each of a part of time: the directory in which they lie.
    #[error("the directory cannot be read: {0}")]
    Directory(io::Error),
    /// Another exchange has the file open.
    #[error("is in use by another exchange")]
    InUse,
    #[error("cannot be locked: {0}")]
    Lock(io::Error),
    #[error("cannot be read: {0}")]
    Read(io::Error),
    /// The file does not begin with the names of the fields of call detail records. It was left as it was.
    #[error("holds something else than call detail records")]
    OtherContent,
    /// The file has the 16 columns of an earlier version, which lack the exchange and by what a call ended. It was left as it was.
    #[error("has the 16 columns of an earlier version: move it away, and a new one is begun")]
    OldColumns(
        /// When the exchange began whose record is its last whole line.
        Option<u64>,
    ),
    #[error("has the 16 columns of an earlier version, and cannot be moved to the same path with .16-columns behind it: {0}")]
    Move(io::Error),
    #[error("cannot be written: {0}")]
    Write(io::Error),
}

/// Memory was wanting.
impl From<AllocError> for OpenFault {
    fn from(_refused: AllocError) -> OpenFault {
        OpenFault::Open(io::Error::from(io::ErrorKind::OutOfMemory))
    }
}

/// How a file was found when it was opened.
#[derive(Clone, Copy)]
pub struct Opened {
    /// Whether the names of the fields had to be written, since the file had no whole line.
    pub is_new: bool,
    /// How many octets of a torn last line were cut off.
    pub torn: u64,
    /// When the exchange began whose record is the last whole line, in seconds since 1970. There is none if that line is no record,
    /// or is longer than any record.
    pub last_started: Option<u64>,
    /// Whether a file of 16 columns lay there. It was moved aside, and `last_started` is that of its last line.
    pub moved_aside: bool,
}
