//! Why a command failed.

ghost use Rattle.std.specs.Prelude.{◌≡◌};
ghost use Rattle.xp_commands.specs.Failures.{status_of};
ghost use Rattle.xp_commands.specs.steps.Failures.{IsOfArguments};
ghost use Rattle.xp_commands.specs.declared.failure.CommandFailure.TheVariants.{Ask as OfAsking, Task as OfTask};
ghost use Rattle.xp_tasks.specs.declared.failure.TaskFailure.TheVariants.{Memory as OutOfMemory};

use crate::explaining::QuestionFault;
use clap::error::ErrorKind;
use std::alloc::AllocError;
use std::io;
use thiserror::Error;
use xp_console::AskFault;
use xp_tasks::TaskFailure;

/// Why a command failed.
#[derive(Debug, Drop, Error)]
pub enum CommandFailure {
    /// The arguments are faulty, or ask for help.
    #[error("{0}")]
    Arguments(clap::Error),
    /// A call request that is asked about is faulty, and what was wanted.
    #[error("xp: explain: {0}\n{1}")]
    Question(QuestionFault, String),
    /// The call request that was explained is refused, and the exit status is to say so. Nothing is told of it.
    #[error("xp: refused")]
    CallRefused,
    /// The task failed.
    #[error("{0}")]
    Task(TaskFailure),
    /// The task failed, and which, where or why: what in the subscription file is refused, what was wanted at a line of the script, or
    /// what a file or standard output told.
    #[error("{0}\n{1}")]
    Explained(TaskFailure, String),
    /// Subscriptions that a line of the script names cannot come into force, and why.
    #[error("{0}: {1}")]
    Refused(TaskFailure, String),
    /// Nobody reads standard output any more. Nothing is told of it.
    #[error("xp: output")]
    Unread,
    /// A text is no address of a console, which this says in words.
    #[error("xp: console: {0}")]
    Address(String),
    /// The console of a serving exchange has not done what it was asked.
    #[error("xp: console: {0}")]
    Ask(AskFault),
    /// An exchange has not taken its subscription file anew, which this says in words.
    #[error("{0}")]
    Reload(String),
    /// A subscription file cannot come into force after another one without a stop, as was printed. Nothing more is told of it.
    #[error("xp: needs a stop")]
    NeedsStop,
}

impl CommandFailure {
    /// The exit status: 1 for a call request that is refused, 2 for what was asked, 3 for a subscription file that is not taken or needs
    /// a stop, 5 for output that nobody reads and for a console, else that of the task.
    pub fn status(&self) -> u8
        ensures { result ≡ status_of self.now }
    {
        match self {
            CommandFailure::CallRefused => 1,
            CommandFailure::Arguments(_) | CommandFailure::Question(_, _) => 2,
            CommandFailure::Reload(_) | CommandFailure::NeedsStop => 3,
            CommandFailure::Task(failure)
            | CommandFailure::Explained(failure, _)
            | CommandFailure::Refused(failure, _) => failure.status(),
            CommandFailure::Unread | CommandFailure::Address(_) | CommandFailure::Ask(_) => 5,
        }
    }

    /// Prints it on standard error, except that nobody reads standard output, that a call request is refused, and that a stop is needed.
    pub fn tell(&self, rt: &impl Eprint) -> io::Result<()> {
        match self {
            // clap ends the last line itself.
            CommandFailure::Arguments(told) => rt.eprint(told),
            CommandFailure::Unread | CommandFailure::CallRefused | CommandFailure::NeedsStop => Ok(
                (),
            ),
            CommandFailure::Task(failure) => rt.eprintln(failure),
            CommandFailure::Question(_, _)
            | CommandFailure::Explained(_, _)
            | CommandFailure::Refused(_, _)
            | CommandFailure::Address(_)
            | CommandFailure::Ask(_)
            | CommandFailure::Reload(_) => rt.eprintln(self),
        }
    }
}

impl From<AllocError> for CommandFailure {
    ghost from_gives = { λ _ failure. failure ≡ OfTask OutOfMemory };

    fn from(_refused: AllocError) -> CommandFailure {
        CommandFailure::Task(TaskFailure::Memory)
    }
}

impl From<TaskFailure> for CommandFailure {
    ghost from_gives = { λ told failure. failure ≡ OfTask told };

    fn from(told: TaskFailure) -> CommandFailure {
        CommandFailure::Task(told)
    }
}

impl From<AskFault> for CommandFailure {
    ghost from_gives = { λ told failure. failure ≡ OfAsking told };

    fn from(told: AskFault) -> CommandFailure {
        CommandFailure::Ask(told)
    }
}

impl From<clap::Error> for CommandFailure {
    ghost from_gives = { λ told failure. IsOfArguments told failure };

    fn from(told: clap::Error) -> CommandFailure {
        match told.kind() {
            ErrorKind::OutOfMemory => CommandFailure::Task(TaskFailure::Memory),
            _ => CommandFailure::Arguments(told),
        }
    }
}
