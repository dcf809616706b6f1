//! Why a task failed.

ghost use Rattle.std.specs.Prelude.{◌≡◌};
ghost use Rattle.xp_tasks.specs.Failures.{status_of};
ghost use Rattle.xp_tasks.specs.steps.Failures.{of_file};
ghost use Rattle.xp_tasks.specs.declared.failure.TaskFailure.TheVariants.{Memory as OutOfMemory, Replay as NotReplayed};

use std::alloc::AllocError;
use thiserror::Error;
use xp_exchange::ReplayFault;
use xp_subs::SubscriptionFault;

/// Why a task failed.
#[derive(Clone, Copy, Debug, Error)]
pub enum TaskFailure {
    /// The subscription file cannot be read, or is not UTF-8.
    #[error("xp: file")]
    File,
    /// The subscription file has a fault.
    #[error("xp: subscriptions: {0}")]
    Subscriptions(SubscriptionFault),
    /// The replay ended before the script did.
    #[error("xp: {0}")]
    Replay(ReplayFault),
    #[error("xp: memory")]
    Memory,
    /// Standard output cannot be written.
    #[error("xp: output")]
    Output,
}

impl TaskFailure {
    /// The exit status: 2 for a script, 3 for the subscription file, 4 if memory or the journal is full, 5 for input and output.
    pub fn status(&self) -> u8
        ensures { result ≡ status_of self.now }
    {
        match self {
            TaskFailure::Replay(
                ReplayFault::Script(_) | ReplayFault::Lay(_, _) | ReplayFault::Reload(_, _, _),
            ) => 2,
            TaskFailure::File | TaskFailure::Subscriptions(_) => 3,
            TaskFailure::Memory | TaskFailure::Replay(ReplayFault::Journal | ReplayFault::Memory) =>
                4,
            TaskFailure::Output | TaskFailure::Replay(ReplayFault::Read | ReplayFault::Write) => 5,
        }
    }
}

impl From<AllocError> for TaskFailure {
    ghost from_gives = { λ _ failure. failure ≡ OutOfMemory };

    fn from(_refused: AllocError) -> TaskFailure {
        TaskFailure::Memory
    }
}

impl From<ReplayFault> for TaskFailure {
    ghost from_gives = { λ fault failure. failure ≡ NotReplayed fault };

    fn from(fault: ReplayFault) -> TaskFailure {
        TaskFailure::Replay(fault)
    }
}

impl From<SubscriptionFault> for TaskFailure {
    ghost from_gives = { λ fault failure. failure ≡ of_file fault };

    fn from(fault: SubscriptionFault) -> TaskFailure {
        match fault {
            SubscriptionFault::Memory => TaskFailure::Memory,
            refused => TaskFailure::Subscriptions(refused),
        }
    }
}
