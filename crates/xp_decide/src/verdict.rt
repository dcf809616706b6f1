use std::alloc::{Allocator, Global};
use xp_causes::Refusal;
use xp_facilities::{IndicatedFacilities, Reason, RequestedFacilities};
use xp_subs::LineNo;

/// The outcome of a call request.
#[derive(Drop)]
pub enum Verdict<A: Allocator = Global> {
    /// A line rings.
    Take(IncomingCall<A>),
    /// The call is refused, and the caller receives a clear indication.
    Refuse(Refusal),
}

/// An incoming call for a line.
#[derive(Drop)]
pub struct IncomingCall<A: Allocator = Global> {
    /// An idle line of the address where the call ends.
    pub line: LineNo,
    /// The facilities of the incoming call.
    pub told: IndicatedFacilities<A>,
    /// The facilities of the call request.
    pub asked: RequestedFacilities<A>,
    /// Why the call was first redirected, if it was.
    pub reason: Option<Reason>,
}
