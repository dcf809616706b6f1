//! What is shown of live calls.

use crate::lines::{NamedLine, party_of};
use std::alloc::{AllocError, Global};
use xp_console::{LiveCall, Party};
use xp_core::CallView;
use xp_subs::LineNo;
use xp_view::ExchangeView;

/// The live calls, each once, in the order of their callers' lines.
pub(crate) fn live_calls(
    alloc: Global,
    lines: &[NamedLine],
    view: &ExchangeView,
    now: u64,
) -> Result<Vec<LiveCall>, AllocError> {
    let mut calls = Vec::new(alloc);
    for (line, seen) in view.lines.iter().enumerate() {
        if let Some(call) = &seen.call {
            // A call is seen at both of its lines.
            if usize::from(call.caller) == line {
                calls.push(live_call(alloc, lines, call, now)?)?;
            }
        }
    }
    Ok(calls)
}

/// What is shown of a live call.
fn live_call(
    alloc: Global,
    lines: &[NamedLine],
    call: &CallView,
    now: u64,
) -> Result<LiveCall, AllocError> {
    Ok(LiveCall {
        number: call.number,
        caller: party(alloc, lines, call.caller)?,
        called: party(alloc, lines, call.called)?,
        requested: call.requested,
        connected: call.connected,
        segments_from_caller: u64::from(call.from_caller),
        segments_from_called: u64::from(call.from_called),
        seconds: seconds_since(call.connected, now),
    })
}

/// For how many seconds a call has been connected.
fn seconds_since(connected: Option<u64>, now: u64) -> u64 {
    match connected {
        Some(connected) => now.saturating_sub(connected),
        None => 0,
    }
}

/// A line as a party to a call.
pub(crate) fn party(alloc: Global, lines: &[NamedLine], line: LineNo) -> Result<Party, AllocError> {
    match lines.get(usize::from(line)) {
        Some(line) => party_of(alloc, &line.name, &line.address),
        None => Ok(Party {
            line: String::new(alloc),
            address: String::new(alloc),
        }),
    }
}
