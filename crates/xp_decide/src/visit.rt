ghost use Rattle.std.specs.Prelude.{◌<◌};
ghost use Rattle.xp_decide.specs.Routes.{lines_of, Visits};
ghost use Rattle.xp_decide.specs.steps.Routes.{IsRedirected};
ghost use Rattle.xp_hunt.specs.Picks.{Picks};
ghost use Rattle.xp_subs.specs.Tables.{station_at, station_count};

use crate::acceptance::{Wanted, accept};
use xp_causes::Refusal;
use xp_facilities::Reason;
use xp_groups::Admission;
use xp_hunt::{HuntOutcome, Lines, pick};
use xp_packets::Digits;
use xp_subs::{LineNo, Station, Subs, Target};

/// The outcome of a call at an address that does not refuse it.
#[derive(Clone, Copy)]
pub enum AddressOutcome<'a> {
    /// The call is redirected to this address, for this reason.
    RedirectedTo(Reason, &'a Digits),
    /// This idle line takes the call.
    Taken(LineNo, Admission),
}

/// The outcome of the call at this address.
///
/// # Errors
///
/// The first refusal, if the call is not redirected: the address is not known, the station does not accept the call,
/// or no line of the address is idle.
pub fn call_at<'a, L: Lines>(
    subs: &'a Subs,
    lines: &L,
    wanted: &Wanted,
    address: &Digits,
) -> Result<AddressOutcome<'a>, Refusal>
    ensures { Visits subs.now (L.states lines.now) wanted.now address.now result }
{
    let target = subs.find(address).ok_or(Refusal::ADDRESS_NOT_KNOWN)?;
    let station = subs.station(target.station);
    if let Some(left) = redirected(station, Reason::Systematic) {
        return Ok(left);
    }
    let admission = accept(wanted, station)?;
    match hunt(station, target, lines) {
        HuntOutcome::Take(line) => Ok(AddressOutcome::Taken(line, admission)),
        HuntOutcome::AllOff => redirected(station, Reason::OutOfOrder).ok_or(Refusal::OUT_OF_ORDER),
        HuntOutcome::Busy => redirected(station, Reason::Busy).ok_or(Refusal::NUMBER_BUSY),
    }
}

/// Hunts for an idle line of the target.
fn hunt<L: Lines>(station: &Station, target: Target, lines: &L) -> HuntOutcome
    ensures { Picks (L.states lines.now) (lines_of station.now target.line) result }
{
    match target.line {
        Some(line) => pick(&[line], lines),
        None => pick(station.lines.as_slice(), lines),
    }
}

/// The redirection of the station's calls for this reason, if it has one (X.25 clause 6.25.1).
fn redirected(station: &Station, reason: Reason) -> Option<AddressOutcome<'_>>
    ensures { IsRedirected station.now reason result }
{
    let redirection = station.redirect.as_ref()?;
    let redirects = match reason {
        Reason::Systematic => redirection.systematic,
        Reason::OutOfOrder => redirection.out_of_order,
        Reason::Busy => redirection.busy,
        Reason::Distribution => false,
    };
    redirects.then_some(AddressOutcome::RedirectedTo(reason, &redirection.to))
}
