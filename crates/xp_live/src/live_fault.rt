//! Why live calls can't be kept in a file.

use std::io;
use thiserror::Error;

/// Why the live file of an exchange was not opened, or why calls of the run before got no record from it. It is as it was.
#[derive(Debug, Drop, Error)]
pub enum LiveFault {
    #[error("cannot be opened: {0}")]
    Open(io::Error),
    /// There is something else than a regular file at the path.
    #[error("is no regular file")]
    Special,
    /// Another exchange has the file.
    #[error("is in use by another exchange")]
    InUse,
    #[error("cannot be locked: {0}")]
    Lock(io::Error),
    #[error("cannot be read: {0}")]
    Read(io::Error),
    /// The file is neither empty nor a whole live file.
    #[error("holds something else than live calls: look at it, and move it away")]
    OtherContent,
    #[error("the file of call detail records cannot be read: {0}")]
    Records(io::Error),
    #[error("partial records cannot be written: {0}")]
    Write(io::Error),
}
