//! The stations behind XOT routers, and which of them are default callers.

ghost use Rattle.std.specs.Prelude.{◌≡◌, ◌<◌, IsTrue, ◌↔◌};
ghost use Rattle.xp_subs.specs.Tables.{is_router, line_count, station_count};
ghost use Rattle.xp_summary.specs.DefaultCallers.{HasNoDefaultCaller, IsAloneBehind};
ghost use Rattle.xp_summary.specs.steps.DefaultCallers.{IsBehindNone, IsFirstBehind};

use xp_subs::{Access, LineNo, StationNo, Subs};

/// Whether all lines behind the router with this address are the station's.
pub fn is_alone_behind(subs: &Subs, station: StationNo, router: &str) -> bool
    ensures { IsTrue result ↔ IsAloneBehind subs.now station router.now }
{
    for number in 0..subs.counts().lines {
        let line = number as LineNo;
        if subs.access_of(line).is_behind(router) && subs.station_of(line) != station {
            return false;
        }
    }
    true
}

/// Whether the router with this address has no default caller.
pub fn has_no_default_caller(subs: &Subs, router: &str) -> bool
    ensures { IsTrue result ↔ HasNoDefaultCaller subs.now router.now }
{
    for number in 0..subs.counts().lines {
        let line = number as LineNo;
        if subs.access_of(line).is_behind(router)
            && subs.station(subs.station_of(line)).default_caller
        {
            return false;
        }
    }
    true
}

/// Whether no line before this one is behind the router with this address.
pub(crate) fn is_first_behind(subs: &Subs, line: LineNo, router: &str) -> bool
    requires { line < line_count subs.now }
    ensures { IsTrue result ↔ IsFirstBehind subs.now line router.now }
{
    for earlier in 0..line {
        if subs.access_of(earlier).is_behind(router) {
            return false;
        }
    }
    true
}

/// Whether the station is the default caller of a router.
pub(crate) fn is_default_caller(subs: &Subs, station: StationNo) -> bool
    requires { station < station_count subs.now }
{
    subs.station(station).default_caller && !is_behind_none(subs, station)
}

/// Whether no line of the station is behind a router.
fn is_behind_none(subs: &Subs, station: StationNo) -> bool
    ensures { IsTrue result ↔ IsBehindNone subs.now station }
{
    for number in 0..subs.counts().lines {
        let line = number as LineNo;
        if subs.station_of(line) == station && is_router(subs.access_of(line)) {
            return false;
        }
    }
    true
}

fn is_router(access: &Access) -> bool
    ensures { result ≡ is_router access.now }
{
    matches!(access, Access::Router(_))
}
