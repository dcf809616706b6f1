//! Keeping the charging records of a run: in a file of call detail records, or printed, on a thread of its own.
#![tactic(auto)]

mod call_keeper;
mod details;
mod doubt;
mod keep_fault;
mod keeping;
mod left;
mod operator_log;
mod output;
mod printing;
mod queued;
mod record_queue;
mod record_thread;
mod signal;
mod starting;
mod telling;
mod writing;

pub use call_keeper::CallKeeper;
pub use details::DetailKeeper;
pub use doubt::write_doubted;
pub use keep_fault::KeepFault;
pub use keeping::RecordKeeper;
pub use operator_log::OperatorLog;
pub use output::{PatientOutput, StandardOutput};
pub use printing::RecordPrinter;
pub use queued::QueuedKeeper;
pub use starting::{start_details, start_printer};
