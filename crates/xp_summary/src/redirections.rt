//! What redirections lead to.

ghost use Rattle.std.specs.Prelude.{◌≡◌, ◌<◌, IsTrue, ◌↔◌, IfSome, option_map};
ghost use Rattle.xp_subs.specs.Tables.{station_at, station_count};
ghost use Rattle.xp_summary.specs.Redirections.{IsInCircle, alternate_address, next_station, alternate_of_nobody, redirects, redirects_never};

use xp_packets::Digits;
use xp_subs::{Redirection, Station, StationNo, Subs};

/// Whether the station's calls may be redirected in a circle: from station to station, and back to it. It is so whatever the
/// reasons of the redirections; where all are systematic, each call to the station is refused.
pub fn is_in_circle(subs: &Subs, station: StationNo) -> bool
    requires { station < station_count subs.now }
    ensures { IsTrue result ↔ IsInCircle subs.now station }
{
    let mut reached = station;
    for _step in 0..subs.counts().stations {
        match next_station(subs, reached) {
            Some(next) if next == station => return true,
            Some(next) => reached = next,
            None => return false,
        }
    }
    false
}

/// The station to which a station's calls may be redirected, if somebody has the address.
fn next_station(subs: &Subs, station: StationNo) -> Option<StationNo>
    requires { station < station_count subs.now }
    ensures next { result ≡ next_station subs.now station }
    ensures known { IfSome result (λ next. next < station_count subs.now) }
{
    let address = alternate_address(subs.station(station))?;
    let target = subs.find(address)?;
    Some(target.station)
}

/// The address to which a station's calls may be redirected.
fn alternate_address(station: &Station) -> Option<&Digits>
    ensures { option_map (λ address. address.now) result ≡ alternate_address station.now.redirect }
{
    match &station.redirect {
        Some(redirect) if redirects(redirect) => Some(&redirect.to),
        _ => None,
    }
}

/// The address to which the station's calls are redirected, where nobody has it.
pub fn alternate_of_nobody<'a>(subs: &Subs, station: &'a Station) -> Option<&'a Digits>
    ensures { option_map (λ address. address.now) result ≡ alternate_of_nobody subs.now station.now.redirect }
{
    match &station.redirect {
        Some(redirect) if subs.find(&redirect.to).is_none() => Some(&redirect.to),
        _ => None,
    }
}

/// Whether the station has a redirection that applies in no case.
pub fn redirects_never(station: &Station) -> bool
    ensures { result ≡ redirects_never station.now.redirect }
{
    match &station.redirect {
        Some(redirect) => !redirects(redirect),
        None => false,
    }
}

/// Whether calls are redirected for some reason.
fn redirects(redirect: &Redirection) -> bool
    ensures { result ≡ redirects redirect.now }
{
    redirect.systematic || redirect.busy || redirect.out_of_order
}
