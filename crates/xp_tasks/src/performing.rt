//! What the program does, over the text of a subscription file, a reader and a writer.

ghost use Rattle.std.specs.Prelude.{◌≡◌, ℕ, List, ◌++◌, IfErr, IfSome, OnOk, Result, codes, string_bytes};
ghost use Rattle.std.specs.IoError.{error_kind};
ghost use Rattle.std.specs.Io.KnownBytes.{Appends, Keeps};
ghost use Rattle.std.specs.Result.{result_map_both};
ghost use Rattle.xp_tasks.specs.Failures.{Tells};
ghost use Rattle.xp_tasks.specs.SetUp.{SetsUp, set_up_text};
ghost use Rattle.xp_tasks.specs.declared.failure.TaskFailure.TheVariants.{Output};
ghost use Rattle.xp_tasks.specs.declared.task.Task.TheVariants.{Check, Replay};
ghost use Rattle.xp_exchange.specs.WholeScript.{ReplaysAlone};
ghost use Rattle.xp_exchange.specs.declared.fault.ReplayFault.{ReplayFault as Fault};

use crate::failure::TaskFailure;
use crate::set_up::SetUp;
use crate::task::Task;
use std::alloc::{Allocator, Global};
use std::io;
use std::io::{ErrorKind, Read, Write};
use xp_exchange::replay;
use xp_script::NamedTables;
use xp_subs::Subs;

/// The subscriptions that the text of a file sets up.
///
/// # Errors
///
/// `File` if the file could not be read as text; `Subscriptions` with the first fault of the text; `Memory` if an allocation
/// failed.
pub fn subscriptions(alloc: Global, text: &io::Result<String>) -> Result<Subs, TaskFailure>
    ensures { SetsUp (result_map_both string_bytes error_kind text.now) result }
{
    match text {
        Ok(text) => Ok(Subs::read(alloc, text)?),
        Err(error) if error.kind() == ErrorKind::OutOfMemory => Err(TaskFailure::Memory),
        Err(_) => Err(TaskFailure::File),
    }
}

/// Performs a task with these subscriptions. Lines of a script may bring the named ones into force. What was written is
/// flushed, also after a fault.
///
/// # Errors
///
/// `Replay` with the reason why the replay ended early; `Output` if the writer fails.
pub fn perform<A: Allocator + Copy, R: Read + Drop, W: Write>(
    alloc: A,
    task: Task,
    subs: Subs,
    named: &[NamedTables<'_>],
    reader: R,
    writer: &mut W,
) -> Result<(), TaskFailure>
    ensures checked { task ≡ Check → OnOk result (Appends (W.contents writer.old) (W.contents writer.new) (set_up_text subs ++ codes "\n")) }
    ensures refused { task ≡ Check → IfErr result (λ failure. failure ≡ Output) }
    ensures replayed { task ≡ Replay → IfSome (R.remaining reader) (λ script. (text : List ℕ) × Appends (W.contents writer.old) (W.contents writer.new) text × (ended : Result (Unit {0}) Fault) × ReplaysAlone A subs named.now script ended text × Tells ended result) }
{
    match task {
        Task::Check => check(&subs, writer),
        Task::Replay => replay_script(alloc, subs, named, reader, writer),
    }
}

/// Writes the counts of stations, lines and groups, as one line.
fn check<W: Write>(subs: &Subs, writer: &mut W) -> Result<(), TaskFailure>
    ensures written { OnOk result (Appends (W.contents writer.old) (W.contents writer.new) (set_up_text subs.now ++ codes "\n")) }
    ensures refused { IfErr result (λ failure. failure ≡ Output) }
{
    writeln!(writer, "{}", SetUp { subs }).map_err(|_| TaskFailure::Output)?;
    hand_on(writer)
}

/// Replays a script, and writes the packets that the exchange puts out and its records.
fn replay_script<A: Allocator + Copy, R: Read + Drop, W: Write>(
    alloc: A,
    subs: Subs,
    named: &[NamedTables<'_>],
    reader: R,
    writer: &mut W,
) -> Result<(), TaskFailure>
    ensures { IfSome (R.remaining reader) (λ script. (text : List ℕ) × Appends (W.contents writer.old) (W.contents writer.new) text × (ended : Result (Unit {0}) Fault) × ReplaysAlone A subs named.now script ended text × Tells ended result) }
{
    let ended = replay(alloc, subs, named, reader, writer);
    hand_on(writer)?;
    Ok(ended?)
}

/// Flushes the writer.
fn hand_on<W: Write>(writer: &mut W) -> Result<(), TaskFailure>
    ensures same { Keeps (W.contents writer.old) (W.contents writer.new) }
    ensures refused { IfErr result (λ failure. failure ≡ Output) }
{
    writer.flush().map_err(|_| TaskFailure::Output)
}
