//! Telling what changes as a subscription file comes into force after another one.

use crate::failure::CommandFailure;
use crate::output::{print_text, with_reason};
use crate::subscribing::{named_file, subscriptions_of};
use std::alloc::{AllocGlobal, Global};
use std::fs;
use std::fs::{File, Files};
use xp_changes::{ToldChanges, tell_changes};
use xp_subs::Subs;
use xp_tasks::TaskFailure;

/// What changes as these subscriptions come into force after those of the file that a word names.
///
/// # Errors
///
/// `Arguments` where the word names standard input; those of [`subscriptions_of`], of which the file is told; and want of memory.
pub fn changes_after<R: AllocGlobal + Files<File = File>>(
    rt: &R,
    word: &str,
    new: Subs,
) -> Result<ToldChanges, CommandFailure> {
    let alloc = rt.alloc();
    let name = named_file(alloc, word, "OLD is no standard input")?;
    let old = old_subscriptions(rt, name)?;
    Ok(tell_changes(alloc, &old, new)?)
}

/// Prints what changes.
///
/// # Errors
///
/// `NeedsStop` where the exchange has to be stopped for it.
pub fn print_changes<R: AllocGlobal + Print>(
    rt: &R,
    told: &ToldChanges,
) -> Result<(), CommandFailure> {
    print_text(rt, &told.text)?;
    if told.needs_stop {
        Err(CommandFailure::NeedsStop)
    } else {
        Ok(())
    }
}

/// The subscriptions of the file of this name.
fn old_subscriptions<R: AllocGlobal + Files<File = File>>(
    rt: &R,
    name: &str,
) -> Result<Subs, CommandFailure> {
    let text = fs::read_to_string(rt, name);
    match subscriptions_of(rt, name, &text) {
        Ok(subs) => Ok(subs),
        Err(failure) => Err(of_file(rt.alloc(), name, failure)),
    }
}

/// This failure, which tells where it is that a file is refused.
fn of_file(alloc: Global, name: &str, failure: CommandFailure) -> CommandFailure {
    match failure {
        CommandFailure::Explained(TaskFailure::Subscriptions(fault), reason) => with_reason(
            TaskFailure::Subscriptions(fault),
            format!(in alloc; "{name}: {reason}"),
        ),
        failure => failure,
    }
}
