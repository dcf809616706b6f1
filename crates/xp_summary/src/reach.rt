//! Whether a station reaches another by a call.

ghost use Rattle.std.specs.Prelude.{◌≡◌, ◌<◌, IsTrue, ◌↔◌};
ghost use Rattle.std.specs.List.{list_any};
ghost use Rattle.xp_subs.specs.Tables.{station_at, station_count};
ghost use Rattle.xp_summary.specs.Reach.{IsDecidedAlike, IsReach, ReachIsDetermined};
ghost use Rattle.xp_summary.specs.steps.Ways.{has_besides, has_two_ends, IsOpen, LetsThrough, LetsThroughIn, LetsThroughInSome};

use xp_facilities::Selection;
use xp_groups::{admit, intent};
use xp_subs::{LineNo, Membership, Station, StationNo, Subs};

/// How a station reaches another by call requests, where every line is idle and no call is redirected.
#[derive(Clone, Copy, PartialEq, Eq)]
pub enum Reach {
    /// A call request without facilities is put through.
    Plain,
    /// Only one that selects a closed user group is put through.
    Selecting,
    /// None is put through, whatever it asks for.
    Never,
}

/// How the one station reaches the other. The calling line has its own call, so a station with one line never reaches itself.
pub fn reach_between(subs: &Subs, caller: StationNo, called: StationNo) -> Reach
    requires caller { caller < station_count subs.now }
    requires called { called < station_count subs.now }
    ensures { IsReach subs.now caller called result }
{
    // The contract of this call says that all subscriptions are sound.
    let _ = subs.counts();
    let from = subs.station(caller);
    let to = subs.station(called);
    if !is_open(from, to) {
        Reach::Never
    } else if lets_through(from, to, Selection::Nothing) {
        Reach::Plain
    } else if lets_through_in_some(from, to) {
        Reach::Selecting
    } else {
        Reach::Never
    }
}

/// Whether the one station makes calls, the other takes them, and both have a line for the call.
fn is_open(caller: &Station, called: &Station) -> bool
    ensures { IsTrue result ↔ IsOpen caller.now called.now }
{
    !caller.facilities.outgoing_barred
        && !called.facilities.incoming_barred
        && has_two_ends(caller, called)
}

/// Whether some line of the caller is another one than some line of the called station.
fn has_two_ends(caller: &Station, called: &Station) -> bool
    ensures { result ≡ has_two_ends caller.now called.now }
{
    caller.lines.iter().any(|line| has_besides(called, *line))
}

/// Whether the station has a line besides this one.
fn has_besides(station: &Station, line: LineNo) -> bool
    ensures { result ≡ has_besides station.now.lines.items line }
{
    station.lines.iter().any(|own| *own != line)
}

/// Whether closed user groups let a call with this selection through (X.301).
fn lets_through(caller: &Station, called: &Station, selection: Selection) -> bool
    ensures { IsTrue result ↔ LetsThrough caller.now called.now selection }
{
    match intent(caller, selection) {
        Ok(made) => admit(&made, called).is_ok(),
        Err(_) => false,
    }
}

/// Whether they let a call through that selects this group of the caller's, with or without outgoing access.
fn lets_through_in(caller: &Station, called: &Station, held: Membership) -> bool
    ensures { IsTrue result ↔ LetsThroughIn caller.now called.now held }
{
    lets_through(caller, called, Selection::Closed(held.index))
        || lets_through(caller, called, Selection::WithOutsideAccess(held.index))
}

/// Whether they let a call through that selects one of the caller's groups.
fn lets_through_in_some(caller: &Station, called: &Station) -> bool
    ensures { IsTrue result ↔ LetsThroughInSome caller.now called.now }
{
    for held in caller.memberships.as_slice() {
        if lets_through_in(caller, called, *held) {
            return true;
        }
    }
    false
}

/// A station has only one reach to another.
pub fn reach_is_determined()
    ensures { ReachIsDetermined }
{}

/// Calls to a station that has no redirection are put through as they are where no station has one.
pub fn calls_without_redirection_are_decided_alike()
    ensures { IsDecidedAlike }
{}
