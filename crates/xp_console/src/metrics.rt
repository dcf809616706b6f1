//! The counts in Prometheus' text format.

ghost use Rattle.std.specs.Prelude.{◌≡◌, ◌++◌, decimal, flat_map, OnOk, string_bytes};
ghost use Rattle.xp_console.specs.Metrics.{calls_text, count_in, directions_text, events_text, failures_text, head_text, is_same_state, labelled_text, lines_text, metrics_text, octets_text, records_text, reloads_text, results_text, spare_text, cause_sample, causes_text, refused_text, sample_text, segments_text, single_text, state_sample};

use crate::refused::RefusedCalls;
use crate::station_metrics::push_stations;
use crate::status::{ExchangeStatus, LineState, LineStatus, ReloadCounts, Totals};
use crate::words::{cause_text, state_text};
use itoa::Buffer;
use std::alloc::AllocError;

const GAUGE: &str = "gauge";

pub(crate) const COUNTER: &str = "counter";

const LINES: &str = "gonukire_lines";

const REFUSED: &str = "gonukire_refused_total";

const ROUTER_REFUSALS: &str = "gonukire_router_refusals_total";

const SEGMENTS: &str = "gonukire_segments_total";

const OCTETS: &str = "gonukire_link_octets_total";

const RELOADS: &str = "gonukire_reloads_total";

const STATES: [LineState; 6] = [
    LineState::OutOfService,
    LineState::Ready,
    LineState::DteWaiting,
    LineState::DceWaiting,
    LineState::DataTransfer,
    LineState::DceClearIndication,
];

/// Writes what the exchange counts, in Prometheus' text format 0.0.4.
#[tactic(auto, unfolding(crate::specs::Metrics::metrics_text))]
pub(crate) fn push_metrics(text: &mut String, status: &ExchangeStatus) -> Result<(), AllocError>
    ensures { OnOk result (string_bytes text.new ≡ string_bytes text.old ++ metrics_text status.now) }
{
    push_lines(text, &status.lines)?;
    push_spare(text, status.spare_lines)?;
    push_calls(text, status)?;
    push_refused(text, &status.totals)?;
    push_failures(text, &status.totals)?;
    push_stations(text, &status.stations)?;
    push_segments(text, &status.totals)?;
    push_octets(text, &status.totals)?;
    push_events(text, &status.totals)?;
    push_records(text, &status.totals)?;
    push_reloads(text, &status.reloads)
}

/// How many lines are in each state.
fn push_lines(text: &mut String, lines: &[LineStatus]) -> Result<(), AllocError>
    ensures { OnOk result (string_bytes text.new ≡ string_bytes text.old ++ lines_text lines.now) }
{
    push_head(text, LINES, GAUGE, "Lines, by the state of their channel.")?;
    push_states(text, lines, &STATES)
}

/// How many places have no line.
#[tactic(auto, unfolding(crate::specs::Metrics::spare_text))]
fn push_spare(text: &mut String, count: u64) -> Result<(), AllocError>
    ensures { OnOk result (string_bytes text.new ≡ string_bytes text.old ++ spare_text count) }
{
    push_single(
        text,
        "gonukire_spare_lines",
        GAUGE,
        "Places for lines that a reload may bring.",
        count,
    )
}

/// How many lines are in each of these states.
fn push_states(
    text: &mut String,
    lines: &[LineStatus],
    states: &[LineState],
) -> Result<(), AllocError>
    ensures { OnOk result (string_bytes text.new ≡ string_bytes text.old ++ flat_map (state_sample lines.now) states.now) }
{
    for state in states {
        push_state(text, lines, *state)?;
    }
    Ok(())
}

/// How many lines are in this state.
#[tactic(auto, unfolding(crate::specs::Metrics::state_sample))]
fn push_state(text: &mut String, lines: &[LineStatus], state: LineState) -> Result<(), AllocError>
    ensures { OnOk result (string_bytes text.new ≡ string_bytes text.old ++ state_sample lines.now state) }
{
    let count = count_in_state(lines, state);
    push_labelled(text, LINES, "state", state_text(state), count as u64)
}

#[tactic(auto, unfolding(crate::specs::Metrics::count_in))]
fn count_in_state(lines: &[LineStatus], state: LineState) -> usize
    ensures { result ≡ count_in state lines.now }
{
    lines
        .iter()
        .filter(|line| is_same(line.state, state))
        .count()
}

fn is_same(one: LineState, other: LineState) -> bool
    ensures { result ≡ is_same_state one other }
{
    one == other
}

/// How many calls are live, and how many were requested.
fn push_calls(text: &mut String, status: &ExchangeStatus) -> Result<(), AllocError>
    ensures { OnOk result (string_bytes text.new ≡ string_bytes text.old ++ calls_text status.now) }
{
    let (live, all) = (status.calls.len() as u64, status.totals.calls);
    let help = "Calls that have not ended.";
    push_single(text, "gonukire_calls_live", GAUGE, help, live)?;
    let help = "Call requests, with those that were refused.";
    push_single(text, "gonukire_calls_total", COUNTER, help, all)
}

/// How many call requests were refused, and how many calls of routers no line took, by the clearing cause.
fn push_refused(text: &mut String, totals: &Totals) -> Result<(), AllocError>
    ensures { OnOk result (string_bytes text.new ≡ string_bytes text.old ++ refused_text totals.now) }
{
    let help = "Call requests that were refused, by the clearing cause.";
    push_by_cause(text, REFUSED, help, &totals.refused)?;
    let help = "Calls of routers that no line took, by the clearing cause.";
    push_by_cause(text, ROUTER_REFUSALS, help, &totals.router_refusals)
}

/// How many connections to routers could not be made.
#[tactic(auto, unfolding(crate::specs::Metrics::failures_text))]
fn push_failures(text: &mut String, totals: &Totals) -> Result<(), AllocError>
    ensures { OnOk result (string_bytes text.new ≡ string_bytes text.old ++ failures_text totals.now) }
{
    push_single(
        text,
        "gonukire_router_failures_total",
        COUNTER,
        "Connections to routers that could not be made.",
        totals.router_failures,
    )
}

/// How many calls were refused, by the clearing cause.
fn push_by_cause(
    text: &mut String,
    name: &str,
    help: &str,
    refused: &RefusedCalls,
) -> Result<(), AllocError>
    ensures { OnOk result (string_bytes text.new ≡ string_bytes text.old ++ causes_text name.now help.now refused.now) }
{
    push_head(text, name, COUNTER, help)?;
    let counts = refused.by_cause();
    for count in &counts {
        push_cause(text, name, count.0, count.1)?;
    }
    Ok(())
}

/// How many calls were refused with this cause.
#[tactic(auto, unfolding(crate::specs::Metrics::cause_sample))]
fn push_cause(text: &mut String, name: &str, cause: u8, count: u64) -> Result<(), AllocError>
    ensures { OnOk result (string_bytes text.new ≡ string_bytes text.old ++ cause_sample name.now (cause, count)) }
{
    push_labelled(text, name, "cause", cause_text(cause), count)
}

/// How many segments ended calls had, by the end that sent them.
fn push_segments(text: &mut String, totals: &Totals) -> Result<(), AllocError>
    ensures { OnOk result (string_bytes text.new ≡ string_bytes text.old ++ segments_text totals.now) }
{
    let help = "Segments of ended calls, by the end that sent them.";
    push_head(text, SEGMENTS, COUNTER, help)?;
    let (callers, called) = (totals.segments_from_callers, totals.segments_from_called);
    push_directions(
        text,
        SEGMENTS,
        "from_caller",
        callers,
        "from_called",
        called,
    )
}

/// How many octets the connections of lines had, in each direction.
fn push_octets(text: &mut String, totals: &Totals) -> Result<(), AllocError>
    ensures { OnOk result (string_bytes text.new ≡ string_bytes text.old ++ octets_text totals.now) }
{
    push_head(text, OCTETS, COUNTER, "Octets of the connections of lines.")?;
    let (received, sent) = (totals.octets_received, totals.octets_sent);
    push_directions(text, OCTETS, "received", received, "sent", sent)
}

/// How many events lines had, and how many stalls were forced.
fn push_events(text: &mut String, totals: &Totals) -> Result<(), AllocError>
    ensures { OnOk result (string_bytes text.new ≡ string_bytes text.old ++ events_text totals.now) }
{
    push_single(
        text,
        "gonukire_events_total",
        COUNTER,
        "Events of lines.",
        totals.events,
    )?;
    let help = "Lines taken out of service for not taking their output.";
    push_single(text, "gonukire_stalls_total", COUNTER, help, totals.stalls)
}

/// How many records wait, and how many calls of the run before got a partial one.
fn push_records(text: &mut String, totals: &Totals) -> Result<(), AllocError>
    ensures { OnOk result (string_bytes text.new ≡ string_bytes text.old ++ records_text totals.now) }
{
    let (waiting, partial) = (totals.records_waiting, totals.partial_records);
    let help = "Records of ended calls that are not written yet.";
    push_single(text, "gonukire_records_waiting", GAUGE, help, waiting)?;
    let help = "Calls of the run before that got a partial record.";
    push_single(text, "gonukire_partial_records", GAUGE, help, partial)
}

/// How often the subscription file was read again, by what became of it.
fn push_reloads(text: &mut String, reloads: &ReloadCounts) -> Result<(), AllocError>
    ensures { OnOk result (string_bytes text.new ≡ string_bytes text.old ++ reloads_text reloads.now) }
{
    let help = "Reloads of the subscription file, by what became of them.";
    push_head(text, RELOADS, COUNTER, help)?;
    push_results(text, reloads)
}

/// A sample for each of what may become of a reload.
fn push_results(text: &mut String, reloads: &ReloadCounts) -> Result<(), AllocError>
    ensures { OnOk result (string_bytes text.new ≡ string_bytes text.old ++ results_text reloads.now) }
{
    push_labelled(text, RELOADS, "result", "done", reloads.done)?;
    push_labelled(text, RELOADS, "result", "refused", reloads.refused)
}

/// A sample for each of two directions.
fn push_directions(
    text: &mut String,
    name: &str,
    one: &str,
    first: u64,
    other: &str,
    second: u64,
) -> Result<(), AllocError>
    ensures { OnOk result (string_bytes text.new ≡ string_bytes text.old
        ++ directions_text name.now one.now first other.now second) }
{
    push_labelled(text, name, "direction", one, first)?;
    push_labelled(text, name, "direction", other, second)
}

/// A metric of one sample.
#[tactic(auto, unfolding(crate::specs::Metrics::single_text))]
fn push_single(
    text: &mut String,
    name: &str,
    kind: &str,
    help: &str,
    value: u64,
) -> Result<(), AllocError>
    ensures { OnOk result (string_bytes text.new ≡ string_bytes text.old ++ single_text name.now kind.now help.now value) }
{
    push_head(text, name, kind, help)?;
    push_sample(text, name, value)
}

/// What a metric is, in front of its samples.
pub(crate) fn push_head(
    text: &mut String,
    name: &str,
    kind: &str,
    help: &str,
) -> Result<(), AllocError>
    ensures { OnOk result (string_bytes text.new ≡ string_bytes text.old ++ head_text name.now kind.now help.now) }
{
    push_all(
        text,
        &[
            "# HELP ",
            name,
            " ",
            help,
            "\n# TYPE ",
            name,
            " ",
            kind,
            "\n",
        ],
    )
}

#[tactic(auto, unfolding(crate::specs::Metrics::sample_text))]
fn push_sample(text: &mut String, name: &str, value: u64) -> Result<(), AllocError>
    ensures { OnOk result (string_bytes text.new ≡ string_bytes text.old ++ sample_text name.now value) }
{
    text.push_str(name)?;
    text.push_str(" ")?;
    push_number(text, value)?;
    text.push_str("\n")
}

/// A sample with a label. Its word has no quote, backslash or line feed, which would have to be escaped.
#[tactic(auto, unfolding(crate::specs::Metrics::labelled_text))]
pub(crate) fn push_labelled(
    text: &mut String,
    name: &str,
    label: &str,
    word: &str,
    value: u64,
) -> Result<(), AllocError>
    ensures { OnOk result (string_bytes text.new ≡ string_bytes text.old ++ labelled_text name.now label.now word.now value) }
{
    push_all(text, &[name, "{", label, "=\"", word, "\"} "])?;
    push_number(text, value)?;
    text.push_str("\n")
}

pub(crate) fn push_number(text: &mut String, number: u64) -> Result<(), AllocError>
    ensures { OnOk result (string_bytes text.new ≡ string_bytes text.old ++ decimal number) }
{
    text.push_str(Buffer::new().format(number))
}

pub(crate) fn push_all(text: &mut String, pieces: &[&str]) -> Result<(), AllocError>
    ensures { OnOk result (string_bytes text.new ≡ string_bytes text.old ++ flat_map (λ piece. piece.now) pieces.now) }
{
    for piece in pieces {
        text.push_str(piece)?;
    }
    Ok(())
}
