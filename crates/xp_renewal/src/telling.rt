//! What an operator is told of a reload. No contract says what is told.

use crate::not_read::NotRead;
use std::alloc::Global;
use std::fmt::Display;
use xp_changes::{changes, frame_text};
use xp_core::ReloadFault;
use xp_reload::frame_change;
use xp_sink::NotInForce;
use xp_subs::{LineNo, Subs};

/// What is told where the next subscriptions are in force, such as `reloaded: 3 stations changed`.
///
/// # Errors
///
/// For what the exchange has to be stopped first, and want of memory.
pub(crate) fn changes_told(alloc: Global, in_force: &Subs, next: &Subs) -> Result<String, NotRead> {
    if let Some(change) = frame_change(in_force, next) {
        let what = frame_text(alloc, in_force, change)?;
        return Err(NotRead::NeedsStop(what));
    }
    let changes = changes(alloc, in_force, next)?;
    Ok(format!(in alloc; "reloaded: {changes}")?)
}

/// Why subscriptions are not in force, with the name of the line for which they are not.
pub(crate) fn reason_told(alloc: Global, in_force: &Subs, why: NotInForce) -> String {
    match why {
        NotInForce::Refused(ReloadFault::InCall(line)) => {
            line_told(alloc, in_force, line, "in a call")
        }
        NotInForce::Refused(ReloadFault::InService(line)) => {
            line_told(alloc, in_force, line, "in service")
        }
        _ => text_of(alloc, &format_args!("xp: reload: {why}")),
    }
}

/// What is told of a line that is in this state.
fn line_told(alloc: Global, in_force: &Subs, line: LineNo, state: &str) -> String {
    let name = if usize::from(line) < in_force.counts().lines {
        in_force.name_of(line)
    } else {
        ""
    };
    text_of(alloc, &format_args!("xp: reload: line {name}: {state}"))
}

/// What is told as text. It is empty where there is no memory for it.
pub(crate) fn text_of<D: Display>(alloc: Global, told: &D) -> String {
    match format!(in alloc; "{told}") {
        Ok(text) => text,
        Err(_) => String::new(alloc),
    }
}
