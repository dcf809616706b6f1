//! One moment of the exchange as text, for a terminal.

use crate::age::{Age, DAY};
use crate::status::{EndedCall, ExchangeStatus, LineStatus, LiveCall, Party, Totals};
use crate::words::state_text;
use std::alloc::{AllocError, Global};
use std::fmt::Write;

/// How many ended calls are told.
const MOST_ENDED: usize = 10;

/// Writes what the exchange shows of one moment, as tables: the lines, the live calls, the calls that ended last, the totals.
pub(crate) fn push_tables(
    alloc: Global,
    text: &mut String,
    status: &ExchangeStatus,
) -> Result<(), AllocError> {
    let served = Age(status.moment.saturating_sub(status.started));
    writeln!(text, "serving for {served}")?;
    push_lines(alloc, text, status)?;
    push_calls(alloc, text, &status.calls)?;
    push_ended(alloc, text, &status.recent)?;
    push_totals(text, &status.totals)
}

fn push_lines(alloc: Global, text: &mut String, status: &ExchangeStatus) -> Result<(), AllocError> {
    text.push_str(
        "\nline             address         state                       for     call peer\n",
    )?;
    for line in &status.lines {
        push_line(alloc, text, status.moment, line)?;
    }
    Ok(())
}

/// The row of a line. Behind its peer stand its station, where the line has an address of its own, and what is told of its router.
fn push_line(
    alloc: Global,
    text: &mut String,
    moment: u64,
    line: &LineStatus,
) -> Result<(), AllocError> {
    push_line_columns(alloc, text, moment, line)?;
    match line.peer {
        Some(peer) => write!(text, "{peer}")?,
        None => text.push_str("-")?,
    }
    if line.station.as_str() != line.address.as_str() {
        write!(text, ", station {}", line.station.as_str())?;
    }
    match line.router_unreachable_since {
        Some(since) => push_unreachable(alloc, text, moment, since),
        None => text.push_str("\n"),
    }
}

fn push_line_columns(
    alloc: Global,
    text: &mut String,
    moment: u64,
    line: &LineStatus,
) -> Result<(), AllocError> {
    let name = line.name.as_str();
    let address = line.address.as_str();
    let state = state_text(line.state);
    write!(text, "{name:<16} {address:<15} {state:<20} ")?;
    push_age(alloc, text, moment.saturating_sub(line.since))?;
    match line.call {
        Some(call) => write!(text, " {call:>8} "),
        None => text.push_str("        - "),
    }
}

/// For how many seconds something has been so, at the right of its column.
fn push_age(alloc: Global, text: &mut String, seconds: u64) -> Result<(), AllocError> {
    let age = Age(seconds).to_string(alloc)?;
    write!(text, "{:>10}", age.as_str())
}

/// Since when a router has been unreachable, as the time of day (UTC), or for how long, where that is a day or more.
fn push_unreachable(
    alloc: Global,
    text: &mut String,
    moment: u64,
    since: u64,
) -> Result<(), AllocError> {
    let age = moment.saturating_sub(since);
    if age < DAY {
        let time = Age(since % DAY).to_string(alloc)?;
        writeln!(text, ", router unreachable since {:0>8}", time.as_str())
    } else {
        writeln!(text, ", router unreachable for {}", Age(age))
    }
}

fn push_calls(alloc: Global, text: &mut String, calls: &[LiveCall]) -> Result<(), AllocError> {
    text.push_str(
        "\n   call caller           called                  for  from caller  from called\n",
    )?;
    for call in calls {
        push_call(alloc, text, call)?;
    }
    Ok(())
}

fn push_call(alloc: Global, text: &mut String, call: &LiveCall) -> Result<(), AllocError> {
    let called = call.called.line.as_str();
    push_parties(text, call.number, &call.caller, called)?;
    match call.connected {
        Some(_) => push_age(alloc, text, call.seconds)?,
        None => text.push_str("   ringing")?,
    }
    push_segments(text, call.segments_from_caller, call.segments_from_called)?;
    text.push_str("\n")
}

/// The columns that say between which lines a call is.
fn push_parties(
    text: &mut String,
    number: u64,
    caller: &Party,
    called: &str,
) -> Result<(), AllocError> {
    let caller = caller.line.as_str();
    write!(text, "{number:>7} {caller:<16} {called:<16} ")
}

fn push_segments(text: &mut String, caller: u64, called: u64) -> Result<(), AllocError> {
    write!(text, " {caller:>12} {called:>12}")
}

/// The calls that ended last, the latest first.
fn push_ended(alloc: Global, text: &mut String, calls: &[EndedCall]) -> Result<(), AllocError> {
    text.push_str(
        "\n  ended caller           called                  for  from caller  from called cause\n",
    )?;
    for later in 0..calls.len().min(MOST_ENDED) {
        push_ended_call(alloc, text, &calls[calls.len() - 1 - later])?;
    }
    Ok(())
}

fn push_ended_call(alloc: Global, text: &mut String, call: &EndedCall) -> Result<(), AllocError> {
    push_parties(text, call.number, &call.caller, line_of(&call.called))?;
    push_age(alloc, text, call.seconds)?;
    push_segments(text, call.segments_from_caller, call.segments_from_called)?;
    writeln!(text, " {:02x} {}", call.cause, call.diagnostic)
}

fn line_of(party: &Option<Party>) -> &str {
    match party {
        Some(party) => party.line.as_str(),
        None => "-",
    }
}

/// The totals, each behind its words.
fn push_totals(text: &mut String, totals: &Totals) -> Result<(), AllocError> {
    let counts = [
        ("\ncalls ", totals.calls),
        (", refused ", refused_count(totals)),
        (", events ", totals.events),
        (", stalls ", totals.stalls),
        (", records waiting ", totals.records_waiting),
        ("\nfailed connections to routers ", totals.router_failures),
        (
            "\nsegments of ended calls from callers ",
            totals.segments_from_callers,
        ),
        (", from called ", totals.segments_from_called),
        ("\noctets received ", totals.octets_received),
        (", sent ", totals.octets_sent),
    ];
    for (words, count) in &counts {
        write!(text, "{words}{count}")?;
    }
    text.push_str("\n")
}

fn refused_count(totals: &Totals) -> u64 {
    let mut sum = 0u64;
    for count in &totals.refused.by_cause() {
        sum = sum.saturating_add(count.1);
    }
    sum
}
