//! One moment of a serving exchange, as an operator is shown it.

use crate::refused::RefusedCalls;
use std::net::SocketAddr;

/// What an exchange shows of itself: all of it is of one moment. Moments are in seconds since 1970.
#[derive(Drop)]
pub struct ExchangeStatus {
    /// The moment at which the exchange began to serve.
    pub started: u64,
    /// The moment that is shown.
    pub moment: u64,
    /// The lines, in the order of their places.
    pub lines: Vec<LineStatus>,
    /// How many places have no line: a reload may bring one.
    pub spare_lines: u64,
    /// The live calls.
    pub calls: Vec<LiveCall>,
    /// The calls that ended last, at most 100, the latest last.
    pub recent: Vec<EndedCall>,
    /// The stations, in the order of the subscription file, with what was counted of each since the exchange began to serve.
    pub stations: Vec<StationCalls>,
    /// What was counted since the exchange began to serve.
    pub totals: Totals,
    /// The reloads since the exchange began to serve.
    pub reloads: ReloadCounts,
}

/// How often the exchange was asked to read its subscription file again.
#[derive(Clone, Copy, Default)]
pub struct ReloadCounts {
    /// Reloads after which other subscriptions were in force.
    pub done: u64,
    /// Reloads that were refused.
    pub refused: u64,
    /// The moment of the last one that was done.
    pub last: Option<u64>,
}

/// A line, and what it is doing.
#[derive(Drop)]
pub struct LineStatus {
    pub name: String,
    /// The address of the line, in digits: its own if it has one, otherwise its station's.
    pub address: String,
    /// The address of its station, in digits.
    pub station: String,
    pub state: LineState,
    /// The far end of the line's connection.
    pub peer: Option<SocketAddr>,
    /// The moment since which the line is in this state.
    pub since: u64,
    /// The number of the call that it takes part in.
    pub call: Option<u64>,
    /// The moment since which no connection to the line's router has been made, where the last try has failed.
    pub router_unreachable_since: Option<u64>,
}

/// What was counted of the calls of a station that have ended.
#[derive(Drop)]
pub struct StationCalls {
    /// The address of the station, in digits.
    pub address: String,
    /// The calls that its lines requested, with those that were refused.
    pub from: u64,
    /// The calls that were offered to its lines.
    pub to: u64,
    /// The calls that its lines requested and that were refused.
    pub refused: u64,
}

/// The state of a line's logical channel (X.25 Annex B).
#[derive(Clone, Copy, PartialEq)]
pub enum LineState {
    /// The line has no connection.
    OutOfService,
    /// p1, ready.
    Ready,
    /// p2, DTE waiting: the line has requested a call.
    DteWaiting,
    /// p3, DCE waiting: the line has an incoming call to answer.
    DceWaiting,
    /// p4, data transfer.
    DataTransfer,
    /// p7, DCE clear indication: the line has a clear indication to confirm.
    DceClearIndication,
}

/// A line's part in a call.
#[derive(Drop)]
pub struct Party {
    /// The name of the line.
    pub line: String,
    /// The address of the line, in digits.
    pub address: String,
}

/// A call that has not ended.
#[derive(Drop)]
pub struct LiveCall {
    /// The call's number, from 1.
    pub number: u64,
    pub caller: Party,
    pub called: Party,
    /// The moment of the call request.
    pub requested: u64,
    /// The moment at which the call was accepted, if it was.
    pub connected: Option<u64>,
    pub segments_from_caller: u64,
    pub segments_from_called: u64,
    /// For how many seconds the call has been connected.
    pub seconds: u64,
}

/// A call that has ended, with the fields of its call detail record.
#[derive(Drop)]
pub struct EndedCall {
    /// The call's number, from 1.
    pub number: u64,
    pub caller: Party,
    /// The line that the call was offered to, if it was.
    pub called: Option<Party>,
    /// The called address, as the caller gave it.
    pub dialled: String,
    pub payer: Payer,
    pub segments_from_caller: u64,
    pub segments_from_called: u64,
    /// The moment of the call request.
    pub requested: u64,
    /// The moment at which the call was accepted, if it was.
    pub connected: Option<u64>,
    /// The moment at which the call ended.
    pub ended: u64,
    /// For how many seconds the call was connected.
    pub seconds: u64,
    /// The clearing cause (X.25 clause 5.2.4).
    pub cause: u8,
    /// The diagnostic (X.25 Annex E).
    pub diagnostic: u8,
}

/// The end that pays for a call.
#[derive(Clone, Copy)]
pub enum Payer {
    Caller,
    Called,
}

/// What was counted since the exchange began to serve, and how many records wait.
#[derive(Clone, Copy)]
pub struct Totals {
    /// Call requests, with those that were refused.
    pub calls: u64,
    /// Call requests that were refused, by the cause.
    pub refused: RefusedCalls,
    /// Calls of routers that no line took, by the cause. They are no call requests of a line, and have no number.
    pub router_refusals: RefusedCalls,
    /// Connections to routers that could not be made.
    pub router_failures: u64,
    /// Segments of the calls that have ended.
    pub segments_from_callers: u64,
    pub segments_from_called: u64,
    /// Events of lines.
    pub events: u64,
    /// Lines that were taken out of service since they did not take what was put out to them.
    pub stalls: u64,
    /// Records of ended calls that are not written yet.
    pub records_waiting: u64,
    /// Calls of the run before that got a partial record as this one began, since that one had died.
    pub partial_records: u64,
    /// Octets that came by the lines' connections.
    pub octets_received: u64,
    /// Octets that went out by the lines' connections.
    pub octets_sent: u64,
}
