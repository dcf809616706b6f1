//! Why call detail records were not put on the disk.

use crate::opening::OpenFault;
use std::io;
use thiserror::Error;

/// Why call detail records were not put on the disk.
#[derive(Debug, Drop, Error)]
pub enum FlushFault {
    /// The open file cannot be written, or not be brought to the disk.
    #[error("{0}")]
    Write(io::Error),
    /// The file of a later part cannot be begun.
    #[error("a new file can't be begun: {0}")]
    Begin(OpenFault),
}
