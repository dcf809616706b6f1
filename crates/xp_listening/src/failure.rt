//! Why lines were not served to the end.

ghost use Rattle.std.specs.Prelude.{◌≡◌, ◌<◌};
ghost use Rattle.xp_listening.specs.Failures.{failure_to_keep, name_at, status_of};
ghost use Rattle.xp_listening.specs.declared.failure.ServeFailure.TheVariants.{Memory as OutOfMemory, Port as OfPort};
ghost use Rattle.xp_subs.specs.Tables.{line_count};

use std::alloc::AllocError;
use thiserror::Error;
use xp_file::Name;
use xp_keeping::KeepFault;
use xp_subs::{LineNo, Subs};

/// Why lines were not served to the end.
#[derive(Debug, Drop, PartialEq, Error)]
pub enum ServeFailure {
    /// The host of the subscription file is no address.
    #[error("xp: host")]
    Host,
    /// A source of the line with this name is no IP address.
    #[error("xp: from {0}")]
    From(Name),
    /// The router of the line with this name has no IP address.
    #[error("xp: router {0}")]
    Router(Name),
    /// The port of the line with this name can't be listened on, or no connection can come to it any more.
    #[error("xp: port {0}")]
    Port(Name),
    /// The port that routers connect to can't be listened on.
    #[error("xp: xot_port")]
    XotPort,
    /// The history is full.
    #[error("xp: journal full")]
    Journal,
    /// The thread of a line could not be started, or the Down of a line that was to stop was not accepted for want of memory.
    #[error("xp: memory")]
    Thread,
    #[error("xp: memory")]
    Memory,
    /// Standard output cannot be written on.
    #[error("xp: output")]
    Output,
    /// The file of call detail records can't be written on, or the thread that does was given up. The records in doubt are written on
    /// standard output.
    #[error("xp: cdr")]
    Details,
}

impl ServeFailure {
    /// The exit status: 4 for want of room, 5 for input and output.
    pub fn status(&self) -> u8
        ensures { result ≡ status_of self.now }
    {
        match self {
            ServeFailure::Journal | ServeFailure::Thread | ServeFailure::Memory => 4,
            ServeFailure::Host
            | ServeFailure::From(_)
            | ServeFailure::Router(_)
            | ServeFailure::Port(_)
            | ServeFailure::XotPort
            | ServeFailure::Output
            | ServeFailure::Details => 5,
        }
    }

    /// That the port of a line failed.
    pub fn port(subs: &Subs, line: LineNo) -> ServeFailure
        requires { line < line_count subs.now }
        ensures { result ≡ OfPort (name_at subs.now line) }
    {
        ServeFailure::Port(subs.line(line).name.copy())
    }
}

impl From<AllocError> for ServeFailure {
    ghost from_gives = { λ _ failure. failure ≡ OutOfMemory };

    fn from(_refused: AllocError) -> ServeFailure {
        ServeFailure::Memory
    }
}

impl From<KeepFault> for ServeFailure {
    ghost from_gives = { λ fault failure. failure ≡ failure_to_keep fault };

    fn from(fault: KeepFault) -> ServeFailure {
        match fault {
            KeepFault::Memory => ServeFailure::Memory,
            KeepFault::Output => ServeFailure::Output,
            KeepFault::Details => ServeFailure::Details,
        }
    }
}
