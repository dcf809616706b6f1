//! The trace of lines: what they receive and send is written to a capture file, on a thread of its own.
#![tactic(auto)]

mod trace_file;
mod trace_thread;
mod tracing;

pub use trace_file::{TraceFile, TraceFileFault};
pub use trace_thread::TraceThread;
pub use tracing::{TraceFault, TraceWriter, write_pieces};
