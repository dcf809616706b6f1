//! Why subscriptions that a line of a script names cannot come into force.

use std::alloc::{AllocError, Global};
use xp_core::ReloadFault;
use xp_reload::FrameChange;
use xp_script::NamedTables;
use xp_subs::{LayFault, LineNo, Subs};

/// Why the subscriptions of this name cannot come into force after these, as one line without its end: `tables day: line a1: in a call`.
///
/// No contract says what the text tells.
///
/// # Errors
///
/// An allocation failed.
pub fn refused_tables(
    alloc: Global,
    force: &Subs,
    named: &NamedTables<'_>,
    fault: ReloadFault,
) -> Result<String, AllocError> {
    let name = named.name();
    let (line, what) = match fault {
        ReloadFault::JournalFull => (None, "journal full"),
        ReloadFault::InCall(line) => (Some(line), "in a call"),
        ReloadFault::InService(line) => (Some(line), "in service"),
        ReloadFault::Frame(FrameChange::Modulus(line)) => (Some(line), "another modulus"),
        ReloadFault::Frame(change) => (None, changed(change)),
    };
    match line {
        Some(line) => {
            let line = name_of(force, line);
            format!(in alloc; "tables {name}: line {line}: {what}")
        }
        None => format!(in alloc; "tables {name}: {what}"),
    }
}

/// Why the lines of the subscriptions of this name have no places, as one line without its end: `tables day: no spare place for line c1`.
///
/// No contract says what the text tells.
///
/// # Errors
///
/// An allocation failed, or memory was wanting for the places.
pub fn refused_lines(alloc: Global, name: &str, fault: &LayFault) -> Result<String, AllocError> {
    match fault {
        LayFault::Modulus(line) => {
            let line = line.as_str();
            format!(in alloc; "tables {name}: line {line}: another modulus")
        }
        LayFault::Place(line) => {
            let line = line.as_str();
            format!(in alloc; "tables {name}: no spare place for line {line}")
        }
        LayFault::Memory => Err(AllocError),
    }
}

/// What differs between the subscriptions, in words.
fn changed(change: FrameChange) -> &'static str {
    match change {
        FrameChange::LineCount => "another number of lines",
        FrameChange::Modulus(_) => "another modulus",
        FrameChange::SegmentLimit => "another segment_limit",
        FrameChange::Journal => "another journal",
        FrameChange::Host => "another host",
        FrameChange::XotPort => "another xot_port",
        FrameChange::Name => "another name of the exchange",
    }
}

/// The name of the line of this number, if there is one.
fn name_of(subs: &Subs, line: LineNo) -> &str {
    if usize::from(line) < subs.counts().lines {
        subs.name_of(line)
    } else {
        ""
    }
}
