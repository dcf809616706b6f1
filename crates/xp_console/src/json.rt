//! One moment of the exchange as JSON.

ghost use Rattle.std.specs.Prelude.{◌≡◌, ◌++◌, IfOk, map, OnOk, string_bytes};
ghost use Rattle.serde_json.specs.Data.{array};
ghost use Rattle.serde_json.specs.View.{items_of, view};
ghost use Rattle.xp_console.specs.Refusals.{by_cause};
ghost use Rattle.xp_console.specs.Json.{cleared_data, count_data, ended_data, json_text, line_data, live_data, optional_party_data, party_data, peer_data, refused_data, reloads_data, segments_data, station_data, totals_data};

use crate::json_text::{Item, push_array, push_item};
use crate::object::Object;
use crate::refused::RefusedCalls;
use crate::status::{
    EndedCall, ExchangeStatus, LineStatus, LiveCall, Party, ReloadCounts, StationCalls, Totals,
};
use crate::words::{cause_text, payer_text, state_text};
use serde_json::Value;
use std::alloc::{AllocError, Global};
use std::net::SocketAddr;

/// Writes what the exchange shows of one moment, as JSON with no space, piece by piece.
pub(crate) fn push_json(
    alloc: Global,
    text: &mut String,
    status: &ExchangeStatus,
) -> Result<(), AllocError>
    ensures { OnOk result (string_bytes text.new ≡ string_bytes text.old ++ json_text status.now) }
{
    push_array(alloc, text, "{\"calls\":[", &status.calls)?;
    push_array(alloc, text, ",\"lines\":[", &status.lines)?;
    push_item(alloc, text, ",\"moment\":", &status.moment)?;
    push_array(alloc, text, ",\"recent\":[", &status.recent)?;
    push_item(alloc, text, ",\"reloads\":", &status.reloads)?;
    push_item(alloc, text, ",\"started\":", &status.started)?;
    push_array(alloc, text, ",\"stations\":[", &status.stations)?;
    push_item(alloc, text, ",\"totals\":", &status.totals)?;
    text.push_str("}")
}

impl Item for u64 {
    ghost shown = { count_data };

    fn value(&self, _alloc: Global) -> Result<Value, AllocError> {
        Ok(Value::from(*self))
    }
}

impl Item for LineStatus {
    ghost shown = { line_data };

    fn value(&self, alloc: Global) -> Result<Value, AllocError> {
        Object::new(alloc)
            .with_text("address", self.address.as_str())
            .with_optional("call", self.call)
            .with_text("name", self.name.as_str())
            .with("peer", peer_value(alloc, self.peer))
            .with_optional("router_unreachable_since", self.router_unreachable_since)
            .with_count("since", self.since)
            .with_text("state", state_text(self.state))
            .with_text("station", self.station.as_str())
            .value()
    }
}

impl Item for LiveCall {
    ghost shown = { live_data };

    fn value(&self, alloc: Global) -> Result<Value, AllocError> {
        Object::new(alloc)
            .with("called", party_value(alloc, &self.called))
            .with("caller", party_value(alloc, &self.caller))
            .with_optional("connected", self.connected)
            .with_count("number", self.number)
            .with_count("requested", self.requested)
            .with_count("seconds", self.seconds)
            .with(
                "segments",
                segments_value(alloc, self.segments_from_caller, self.segments_from_called),
            )
            .value()
    }
}

impl Item for EndedCall {
    ghost shown = { ended_data };

    fn value(&self, alloc: Global) -> Result<Value, AllocError> {
        Object::new(alloc)
            .with("called", optional_party_value(alloc, &self.called))
            .with("caller", party_value(alloc, &self.caller))
            .with("cleared", cleared_value(alloc, self.cause, self.diagnostic))
            .with_optional("connected", self.connected)
            .with_text("dialled", self.dialled.as_str())
            .with_count("ended", self.ended)
            .with_count("number", self.number)
            .with_text("payer", payer_text(self.payer))
            .with_count("requested", self.requested)
            .with_count("seconds", self.seconds)
            .with(
                "segments",
                segments_value(alloc, self.segments_from_caller, self.segments_from_called),
            )
            .value()
    }
}

impl Item for StationCalls {
    ghost shown = { station_data };

    fn value(&self, alloc: Global) -> Result<Value, AllocError> {
        Object::new(alloc)
            .with_text("address", self.address.as_str())
            .with_count("from", self.from)
            .with_count("refused", self.refused)
            .with_count("to", self.to)
            .value()
    }
}

impl Item for ReloadCounts {
    ghost shown = { reloads_data };

    fn value(&self, alloc: Global) -> Result<Value, AllocError> {
        Object::new(alloc)
            .with_count("done", self.done)
            .with_optional("last", self.last)
            .with_count("refused", self.refused)
            .value()
    }
}

impl Item for Totals {
    ghost shown = { totals_data };

    fn value(&self, alloc: Global) -> Result<Value, AllocError> {
        Object::new(alloc)
            .with_count("calls", self.calls)
            .with_count("events", self.events)
            .with_count("octets_received", self.octets_received)
            .with_count("octets_sent", self.octets_sent)
            .with_count("partial_records", self.partial_records)
            .with_count("records_waiting", self.records_waiting)
            .with("refused", causes_value(alloc, &self.refused))
            .with_count("router_failures", self.router_failures)
            .with(
                "router_refusals",
                causes_value(alloc, &self.router_refusals),
            )
            .with_count("segments_from_called", self.segments_from_called)
            .with_count("segments_from_callers", self.segments_from_callers)
            .with_count("stalls", self.stalls)
            .value()
    }
}

fn causes_value(alloc: Global, refused: &RefusedCalls) -> Result<Value, AllocError>
    ensures { IfOk result (λ value. view value ≡ array (items_of (map refused_data (by_cause refused.now)))) }
{
    let counts = refused.by_cause();
    let mut values = Vec::with_capacity(alloc, counts.len())?;
    for count in &counts {
        values.push(refused_value(alloc, count.0, count.1)?)?;
    }
    Ok(Value::Array(values))
}

fn refused_value(alloc: Global, cause: u8, count: u64) -> Result<Value, AllocError>
    ensures { IfOk result (λ value. view value ≡ refused_data (cause, count)) }
{
    Object::new(alloc)
        .with_count("cause", u64::from(cause))
        .with_count("count", count)
        .with_text("words", cause_text(cause))
        .value()
}

fn segments_value(alloc: Global, from_caller: u64, from_called: u64) -> Result<Value, AllocError>
    ensures { IfOk result (λ value. view value ≡ segments_data from_caller from_called) }
{
    Object::new(alloc)
        .with_count("from_called", from_called)
        .with_count("from_caller", from_caller)
        .value()
}

fn cleared_value(alloc: Global, cause: u8, diagnostic: u8) -> Result<Value, AllocError>
    ensures { IfOk result (λ value. view value ≡ cleared_data cause diagnostic) }
{
    Object::new(alloc)
        .with_count("cause", u64::from(cause))
        .with_count("diagnostic", u64::from(diagnostic))
        .with_text("words", cause_text(cause))
        .value()
}

fn optional_party_value(alloc: Global, party: &Option<Party>) -> Result<Value, AllocError>
    ensures { IfOk result (λ value. view value ≡ optional_party_data party.now) }
{
    match party {
        Some(party) => party_value(alloc, party),
        None => Ok(Value::Null),
    }
}

fn party_value(alloc: Global, party: &Party) -> Result<Value, AllocError>
    ensures { IfOk result (λ value. view value ≡ party_data party.now) }
{
    Object::new(alloc)
        .with_text("address", party.address.as_str())
        .with_text("line", party.line.as_str())
        .value()
}

fn peer_value(alloc: Global, peer: Option<SocketAddr>) -> Result<Value, AllocError>
    ensures { IfOk result (λ value. view value ≡ peer_data peer) }
{
    match peer {
        Some(peer) => Ok(Value::from(peer.to_string(alloc)?)),
        None => Ok(Value::Null),
    }
}
