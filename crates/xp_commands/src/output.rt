//! Standard output, and whether somebody still reads it.

use crate::failure::CommandFailure;
use std::alloc::{AllocError, AllocGlobal, Global};
use std::io;
use std::io::{BufWriter, ErrorKind, Write};
use xp_exchange::ReplayFault;
use xp_tasks::TaskFailure;

/// What standard output is called where it fails.
pub(crate) const STANDARD_OUTPUT: &str = "standard output";

/// A writer that knows why its last write failed.
#[derive(Drop)]
pub(crate) struct WatchedWriter<W> {
    writer: W,
    fault: Option<ErrorKind>,
}

impl<W: Write + Drop> WatchedWriter<W> {
    /// Watches over a writer, and writes to it through a buffer.
    pub(crate) fn buffered(
        alloc: Global,
        writer: W,
    ) -> Result<BufWriter<WatchedWriter<W>>, AllocError> {
        let watched = WatchedWriter {
            writer,
            fault: None,
        };
        BufWriter::new(alloc, watched).map_err(|_| AllocError)
    }

    /// The failure of a command whose task failed so, where it wrote on what has this name: with why the writer failed, or that nobody
    /// reads it any more.
    pub(crate) fn explained(
        &self,
        alloc: Global,
        failure: TaskFailure,
        name: &str,
    ) -> CommandFailure {
        match (failure, self.fault) {
            (TaskFailure::Output | TaskFailure::Replay(ReplayFault::Write), Some(fault)) => {
                unwritten(alloc, failure, name, fault)
            }
            _ => CommandFailure::Task(failure),
        }
    }
}

impl<W: Write> Write for WatchedWriter<W> {
    ghost contents = { λ watched. W.contents watched.writer };

    fn write(&mut self, octets: &[u8]) -> io::Result<usize> {
        match self.writer.write(octets) {
            Ok(count) => Ok(count),
            Err(error) => {
                self.fault = Some(error.kind());
                Err(error)
            }
        }
    }

    fn flush(&mut self) -> io::Result<()> {
        self.writer.flush()
    }
}

/// Prints a text on standard output.
pub fn print_text<R: AllocGlobal + Print>(rt: &R, text: &str) -> Result<(), CommandFailure> {
    match rt.print(text) {
        Ok(()) => Ok(()),
        Err(error) => Err(unwritten(
            rt.alloc(),
            TaskFailure::Output,
            STANDARD_OUTPUT,
            error.kind(),
        )),
    }
}

/// The failure of a command of which what has this name took nothing, for this reason.
fn unwritten(alloc: Global, failure: TaskFailure, name: &str, fault: ErrorKind) -> CommandFailure {
    match fault {
        ErrorKind::BrokenPipe => CommandFailure::Unread,
        _ => with_reason(failure, format!(in alloc; "{name}: {fault}")),
    }
}

/// The failure of a command whose task failed so, with this reason if there was memory for its text.
pub(crate) fn with_reason(
    failure: TaskFailure,
    reason: Result<String, AllocError>,
) -> CommandFailure {
    match reason {
        Ok(reason) if !reason.is_empty() => CommandFailure::Explained(failure, reason),
        _ => CommandFailure::Task(failure),
    }
}
