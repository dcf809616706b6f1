//! The calls that are connected, as they would have ended if the exchange died now.

ghost use Rattle.std.specs.Prelude.{◌≡◌, ◌++◌, ◌<◌, IfOk, OnOk, option_to_list, true};
ghost use Rattle.xp_live.specs.LiveCalls.{is_live as is_live_call, live_call as live_call_of, live_calls as live_calls_in, partial_call as cut_off, partial_record as cut_off_record};
ghost use Rattle.xp_subs.specs.Tables.{line_count};

use std::alloc::{AllocError, Global};
use xp_causes::clearing_cause::OUT_OF_ORDER;
use xp_causes::diagnostic::NO_ADDITIONAL_INFORMATION;
use xp_cdr::{EndedBy, EndedCall};
use xp_charge::Record;
use xp_core::CallView;
use xp_subs::Subs;
use xp_view::{ExchangeView, LineWithCall};

/// The calls that are connected, each once, in the order of their callers' lines, as they would have ended at this moment, in seconds
/// since 1970, if the exchange died then. Their lines are named by these subscriptions. A call that names a line which they do not
/// have is left out: the exchange has none such.
///
/// # Errors
///
/// `AllocError` if an allocation fails.
pub fn live_calls(
    alloc: Global,
    subs: &Subs,
    view: &ExchangeView,
    moment: u64,
) -> Result<Vec<EndedCall>, AllocError>
    ensures { IfOk result (λ calls. calls.items ≡ live_calls_in subs.now moment view.now.lines.items) }
{
    let mut calls = Vec::new(alloc);
    for line in 0..view.lines.len() {
        let found = live_call(subs, moment, line, &view.lines[line]);
        push_if_some(&mut calls, found)?;
    }
    Ok(calls)
}

/// Appends a call, if there is one.
fn push_if_some(calls: &mut Vec<EndedCall>, call: Option<EndedCall>) -> Result<(), AllocError>
    ensures { OnOk result (calls.new.items ≡ calls.old.items ++ option_to_list call) }
{
    match call {
        Some(call) => Ok(calls.push(call)?),
        None => Ok(()),
    }
}

/// The call that a line is in, if it is connected and this is its caller's line.
fn live_call(subs: &Subs, moment: u64, line: usize, seen: &LineWithCall) -> Option<EndedCall>
    ensures { option_to_list result ≡ live_call_of subs.now moment line seen.now.call }
{
    let Some(call) = &seen.call else {
        return None;
    };
    if is_live(subs.counts().lines, line, call) {
        Some(partial_call(subs, moment, call))
    } else {
        None
    }
}

/// Whether a call is connected, this line is its caller's, and both of its lines are among so many. A call is seen at both of its
/// lines.
fn is_live(lines: usize, line: usize, call: &CallView) -> bool
    ensures live { result ≡ is_live_call lines line call.now }
    ensures lines { result ≡ true → (call.now.caller < lines) × (call.now.called < lines) }
{
    let (caller, called) = (usize::from(call.caller), usize::from(call.called));
    call.connected.is_some() && caller == line && caller < lines && called < lines
}

/// A call that the end of its exchange cut off at this moment, told by these subscriptions.
fn partial_call(subs: &Subs, moment: u64, call: &CallView) -> EndedCall
    requires caller { call.now.caller < line_count subs.now }
    requires called { call.now.called < line_count subs.now }
    ensures { result ≡ cut_off subs.now moment call.now }
{
    EndedCall::of(subs, &partial_record(moment, call), EndedBy::Partial)
}

/// The charging record of a call that the end of its exchange cut off at this moment.
fn partial_record(moment: u64, call: &CallView) -> Record
    ensures { result ≡ cut_off_record moment call.now }
{
    Record {
        number: call.number,
        caller: call.caller,
        called: Some(call.called),
        dialled: call.dialled.copy(),
        payer: call.payer,
        from_caller: call.from_caller,
        from_called: call.from_called,
        cause: OUT_OF_ORDER,
        diagnostic: NO_ADDITIONAL_INFORMATION,
        requested: call.requested,
        connected: call.connected,
        ended: moment,
    }
}
