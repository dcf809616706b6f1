use std::alloc::AllocError;
use thiserror::Error;
use xp_commands::CommandFailure;
use xp_listening::ServeFailure;
use xp_tasks::TaskFailure;

/// Why a subscription file that is read again gives no subscriptions that may come into force.
#[derive(Debug, Drop, Error)]
pub(crate) enum NotRead {
    /// It cannot be read, or has a fault, which this tells as `xp check` does.
    #[error("{0}")]
    File(CommandFailure),
    /// Its lines have no places, or it differs from those in force in what cannot change while the exchange serves, which this tells.
    #[error("xp: reload: {0}")]
    NeedsStop(String),
    /// A port that they need cannot be had, or an address of theirs is none, which this tells as serving does.
    #[error("{0}")]
    Unprepared(ServeFailure),
}

impl From<CommandFailure> for NotRead {
    fn from(failure: CommandFailure) -> NotRead {
        NotRead::File(failure)
    }
}

impl From<ServeFailure> for NotRead {
    fn from(failure: ServeFailure) -> NotRead {
        NotRead::Unprepared(failure)
    }
}

impl From<AllocError> for NotRead {
    fn from(_refused: AllocError) -> NotRead {
        NotRead::File(CommandFailure::Task(TaskFailure::Memory))
    }
}
