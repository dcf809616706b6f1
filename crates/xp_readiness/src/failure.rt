//! Why the program failed.

ghost use Rattle.std.specs.Prelude.{◌≡◌};
ghost use Rattle.xp_readiness.specs.Failures.{status_of};
ghost use Rattle.xp_readiness.specs.declared.failure.Failure.TheVariants.{Cdr as OfDetails, Command as OfCommand, Console as OfConsole, Live as OfLive, Serve as OfServing};
ghost use Rattle.xp_commands.specs.declared.failure.CommandFailure.TheVariants.{Task as OfTask};
ghost use Rattle.xp_tasks.specs.declared.failure.TaskFailure.TheVariants.{Memory as OutOfMemory};

use std::alloc::AllocError;
use std::io;
use thiserror::Error;
use xp_cdr::OpenFault;
use xp_commands::CommandFailure;
use xp_console::ConsoleFault;
use xp_listening::ServeFailure;
use xp_live::LiveFault;
use xp_tasks::TaskFailure;
use xp_tracing::TraceFileFault;

/// Why the program failed.
#[derive(Debug, Drop, Error)]
pub enum Failure {
    /// A command failed that serves nothing, or what serving has in common with it.
    #[error("{0}")]
    Command(CommandFailure),
    /// The file of call detail records was not opened.
    #[error("xp: cdr: {0}")]
    Cdr(OpenFault),
    /// The file of live calls was not opened, or calls of the run before got no record from it.
    #[error("xp: live: {0}")]
    Live(LiveFault),
    /// The file of the trace can't be opened.
    #[error("xp: trace: {0}")]
    Trace(TraceFileFault),
    /// No line has this name, of those that were to be traced.
    #[error("xp: trace-lines {0}\nno line of the subscription file has this name")]
    TraceLines(String),
    /// The console can't be served.
    #[error("xp: console: {0}")]
    Console(ConsoleFault),
    /// Serving ended before its time.
    #[error("{0}")]
    Serve(ServeFailure),
    /// The lines can't be served, and which, where and why.
    #[error("{0}\n{1}")]
    Explained(ServeFailure, String),
}

impl Failure {
    /// The exit status: 5 for the file of call detail records, for that of live calls, for a trace and for a console, else that of the
    /// command or of serving.
    pub fn status(&self) -> u8
        ensures { result ≡ status_of self.now }
    {
        match self {
            Failure::Command(failure) => failure.status(),
            Failure::Cdr(_)
            | Failure::Live(_)
            | Failure::Trace(_)
            | Failure::TraceLines(_)
            | Failure::Console(_) => 5,
            Failure::Serve(failure) | Failure::Explained(failure, _) => failure.status(),
        }
    }

    /// Prints it on standard error, as far as the command tells it.
    pub fn tell(&self, rt: &impl Eprint) -> io::Result<()> {
        match self {
            Failure::Command(failure) => failure.tell(rt),
            _ => rt.eprintln(self),
        }
    }
}

impl From<AllocError> for Failure {
    ghost from_gives = { λ _ failure. failure ≡ OfCommand (OfTask OutOfMemory) };

    fn from(_refused: AllocError) -> Failure {
        Failure::Command(CommandFailure::Task(TaskFailure::Memory))
    }
}

impl From<TaskFailure> for Failure {
    ghost from_gives = { λ told failure. failure ≡ OfCommand (OfTask told) };

    fn from(told: TaskFailure) -> Failure {
        Failure::Command(CommandFailure::Task(told))
    }
}

impl From<CommandFailure> for Failure {
    ghost from_gives = { λ told failure. failure ≡ OfCommand told };

    fn from(told: CommandFailure) -> Failure {
        Failure::Command(told)
    }
}

impl From<ServeFailure> for Failure {
    ghost from_gives = { λ told failure. failure ≡ OfServing told };

    fn from(told: ServeFailure) -> Failure {
        Failure::Serve(told)
    }
}

impl From<ConsoleFault> for Failure {
    ghost from_gives = { λ told failure. failure ≡ OfConsole told };

    fn from(told: ConsoleFault) -> Failure {
        Failure::Console(told)
    }
}

impl From<OpenFault> for Failure {
    ghost from_gives = { λ told failure. failure ≡ OfDetails told };

    fn from(told: OpenFault) -> Failure {
        Failure::Cdr(told)
    }
}

impl From<LiveFault> for Failure {
    ghost from_gives = { λ told failure. failure ≡ OfLive told };

    fn from(told: LiveFault) -> Failure {
        Failure::Live(told)
    }
}
