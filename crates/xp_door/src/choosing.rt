//! Which line a router's call is given to.

ghost use Rattle.std.specs.Prelude.{◌≡◌, ◌<◌, ◌↔◌, Any, IsTrue};
ghost use Rattle.xp_door.specs.Callers.{HasSome, IsBehind, IsByRule, IsOneStation, IsRule, caller_of};
ghost use Rattle.xp_door.specs.Choices.{IsChoice, IsFirstFree, MayTake, refusal_by};
ghost use Rattle.xp_door.specs.Hosts.{IsSameHost};
ghost use Rattle.xp_subs.specs.Tables.{line_at, line_count};

use crate::hosts::is_same_host;
use crate::router_call::RouterCall;
use std::net::IpAddr;
use xp_causes::Refusal;
use xp_packets::{Digits, Modulus};
use xp_subs::{LineNo, StationNo, Subs};

/// What the calls of a router are matched with, of a line behind it.
#[derive(Drop)]
pub struct Caller {
    pub modulus: Modulus,
    pub station: StationNo,
    /// The line's own address, if it has one.
    pub own_address: Option<Digits>,
    /// The address of its station.
    pub address: Digits,
    /// Whether its station takes the calls of its router whose calling address no station there has.
    pub is_default: bool,
}

impl Caller {
    /// What the calls of a router are matched with, of this line behind it.
    pub fn of(subs: &Subs, line: LineNo) -> Caller
        requires line { line < line_count subs.now }
        ensures { result ≡ caller_of subs.now (line_at subs.now line) }
    {
        let entry = subs.line(line);
        let station = subs.station(subs.station_of(line));
        Caller {
            modulus: entry.modulus,
            station: entry.station,
            own_address: copied(&entry.address),
            address: station.address.copy(),
            is_default: station.default_caller,
        }
    }

    /// An equal copy.
    pub fn copy(&self) -> Caller
        ensures { result ≡ self.now }
    {
        Caller {
            modulus: self.modulus,
            station: self.station,
            own_address: copied(&self.own_address),
            address: self.address.copy(),
            is_default: self.is_default,
        }
    }
}

/// An equal copy of an address, if there is one.
fn copied(address: &Option<Digits>) -> Option<Digits>
    ensures { result ≡ address.now }
{
    match address {
        Some(address) => Some(address.copy()),
        None => None,
    }
}

/// A line behind a router, as a connection of that router comes.
#[derive(Drop)]
pub struct Candidate {
    /// The address of its router.
    pub router: IpAddr,
    pub caller: Caller,
    /// Whether it has no connection and makes none.
    pub is_free: bool,
}

/// By which rule lines are found that may take a call of their router: the first that applies.
#[derive(Clone, Copy)]
pub enum CallerRule {
    /// Those whose own address is the calling address.
    OwnAddress,
    /// Those of the station whose address it is.
    StationAddress,
    /// All: one station alone has lines behind the router.
    OneStation,
    /// Those of the default caller.
    DefaultCaller,
}

/// Which line takes a call of a router.
#[derive(Clone, Copy, PartialEq)]
pub enum Choice {
    /// The one in this place.
    Line(usize),
    /// Each line that may take it has a connection, or another modulus.
    NoFreeLine,
    /// None may take it.
    NoCaller,
}

impl Choice {
    /// Why a call is refused that no line has taken.
    pub fn refusal(&self) -> Refusal
        ensures { result ≡ refusal_by self.now }
    {
        match self {
            Choice::Line(_) | Choice::NoFreeLine => Refusal::NUMBER_BUSY,
            Choice::NoCaller => Refusal::CALLER_NOT_KNOWN,
        }
    }
}

/// The place of the line that takes a call of a router: the first that is free and of the call's modulus, of those that may by the
/// rule which applies. An IPv4-mapped IPv6 address counts as the IPv4 address in it.
pub fn choose(call: &RouterCall, candidates: &[Candidate]) -> Choice
    ensures { IsChoice call.now candidates.now result }
{
    let rule = rule_of(call, candidates);
    for (place, candidate) in candidates.iter().enumerate() {
        if may_take(call, rule, candidate) {
            return Choice::Line(place);
        }
    }
    if has_some(call, rule, candidates) {
        Choice::NoFreeLine
    } else {
        Choice::NoCaller
    }
}

/// The rule that applies to a call.
fn rule_of(call: &RouterCall, candidates: &[Candidate]) -> CallerRule
    ensures { IsRule call.now candidates.now result }
{
    if has_some(call, CallerRule::OwnAddress, candidates) {
        CallerRule::OwnAddress
    } else if has_some(call, CallerRule::StationAddress, candidates) {
        CallerRule::StationAddress
    } else if is_one_station(call, candidates) {
        CallerRule::OneStation
    } else {
        CallerRule::DefaultCaller
    }
}

/// Whether a line behind the call's router may take it by this rule.
fn has_some(call: &RouterCall, rule: CallerRule, candidates: &[Candidate]) -> bool
    ensures { IsTrue result ↔ HasSome call.now rule candidates.now }
{
    for candidate in candidates {
        if is_by_rule(call, rule, candidate) {
            return true;
        }
    }
    false
}

/// Whether all lines behind the call's router are of one station.
fn is_one_station(call: &RouterCall, candidates: &[Candidate]) -> bool
    ensures { IsTrue result ↔ IsOneStation call.now candidates.now }
{
    let mut station = None;
    for candidate in candidates {
        if is_same_host(candidate.router, call.peer) {
            match station {
                Some(first) if first != candidate.caller.station => return false,
                _ => station = Some(candidate.caller.station),
            }
        }
    }
    true
}

/// Whether a line is behind the call's router, and may take the call by this rule.
fn is_by_rule(call: &RouterCall, rule: CallerRule, candidate: &Candidate) -> bool
    ensures { IsTrue result ↔ (IsBehind call.now candidate.now × IsByRule call.now rule candidate.now.caller) }
{
    is_same_host(candidate.router, call.peer) && is_called_by(call, rule, &candidate.caller)
}

/// Whether a line may take a call of its router by this rule.
fn is_called_by(call: &RouterCall, rule: CallerRule, caller: &Caller) -> bool
    ensures { IsTrue result ↔ IsByRule call.now rule caller.now }
{
    match rule {
        CallerRule::OwnAddress => match &caller.own_address {
            Some(own) => *own == call.calling,
            None => false,
        },
        CallerRule::StationAddress => caller.address == call.calling,
        CallerRule::OneStation => true,
        CallerRule::DefaultCaller => caller.is_default,
    }
}

/// Whether a line may take a call now.
fn may_take(call: &RouterCall, rule: CallerRule, candidate: &Candidate) -> bool
    ensures { IsTrue result ↔ MayTake call.now rule candidate.now }
{
    candidate.is_free
        && candidate.caller.modulus == call.modulus
        && is_by_rule(call, rule, candidate)
}

/// The place of the first line behind a peer's router that is free. `None` where there is none. What a connection opens with that is no
/// call request is given to it.
pub fn line_for(peer: IpAddr, candidates: &[Candidate]) -> Option<usize>
    ensures { IsFirstFree peer candidates.now result }
{
    for (place, candidate) in candidates.iter().enumerate() {
        if candidate.is_free && is_same_host(candidate.router, peer) {
            return Some(place);
        }
    }
    None
}

/// Whether one of the lines is behind the peer's router.
pub fn is_router(peer: IpAddr, candidates: &[Candidate]) -> bool
    ensures { IsTrue result ↔ Any (λ candidate. IsSameHost candidate.router peer) candidates.now }
{
    for candidate in candidates {
        if is_same_host(candidate.router, peer) {
            return true;
        }
    }
    false
}
